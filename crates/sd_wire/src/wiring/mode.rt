//! What an item does to a container.
ghost use Rattle.std.specs.Prelude.{◌≡◌, nat_eq, ◌&&◌};
ghost use Rattle.sd_graph.specs.Mode as definition;
ghost use Rattle.sd_graph.specs.Wiring.{reduction_mode};
ghost use Rattle.sd_wire.specs.wiring.Mentioned.{mode_of, is_of};

use crate::wiring::access::Access;
use sd_num::Resolution;
use std::marker::Model;

/// A mode on a container.
#[derive(Clone, Copy, Debug, PartialEq, Eq)]
pub enum UseMode {
    Read,
    Write,
    /// By a resolution that commutes.
    Resolve(Resolution),
    Push,
    Take,
}

/// A mode on one container.
#[derive(Drop)]
pub struct Use {
    container: u32,
    mode: UseMode,
}

impl Model for Use {
    ghost use Rattle.sd_graph.specs.Wiring as plain;
    ghost use Rattle.sd_wire.specs.wiring.Mentioned.{mode_of};

    ghost Value = { plain.Use };

    ghost view = { λ u. record { container = u.container; mode = mode_of u.mode } };
}

impl Use {
    pub(crate) fn new(container: u32, mode: UseMode) -> Use
        ensures { result ≡ record { container = container; mode = mode_of mode } }
    {
        Use { container, mode }
    }

    /// The same once more.
    pub(crate) fn copy_of(&self) -> Use
        ensures { result ≡ self.now }
    {
        Use {
            container: self.container,
            mode: self.mode,
        }
    }

    pub fn container(&self) -> u32
        ensures { result ≡ self.now.container }
    {
        self.container
    }

    pub fn mode(&self) -> UseMode
        ensures { mode_of result ≡ self.now.mode }
    {
        self.mode
    }
}

/// Whether a mode is one of this access.
pub(crate) fn is_of(access: Access, mode: UseMode) -> bool
    ensures { result ≡ is_of access (mode_of mode) }
{
    match mode {
        UseMode::Read | UseMode::Take => match access {
            Access::Reads => true,
            Access::Writes => false,
        },
        UseMode::Write | UseMode::Resolve(_) | UseMode::Push => match access {
            Access::Reads => false,
            Access::Writes => true,
        },
    }
}

/// The place of a resolution among the resolutions.
fn number_of(resolution: Resolution) -> u8
    ensures { result ≡ definition.resolution_number resolution }
{
    match resolution {
        Resolution::Sum => 0,
        Resolution::Product => 1,
        Resolution::Min => 2,
        Resolution::Max => 3,
        Resolution::And => 4,
        Resolution::Or => 5,
        Resolution::Xor => 6,
        Resolution::Last => 7,
    }
}

/// Whether two modes on one container conflict.
pub fn do_conflict(first: UseMode, second: UseMode) -> bool
    ensures { result ≡ definition.do_conflict (mode_of first) (mode_of second) }
{
    match (first, second) {
        (UseMode::Read, UseMode::Read) | (UseMode::Push, UseMode::Push) => false,
        (UseMode::Resolve(by), UseMode::Resolve(other)) => number_of(by) != number_of(other),
        _ => true,
    }
}

/// The mode of an output of an array.
pub(crate) fn mode_by(resolution: Option<Resolution>) -> UseMode
    ensures { mode_of result ≡ definition.mode_by resolution }
{
    match resolution {
        None | Some(Resolution::Last) => UseMode::Write,
        Some(by) => UseMode::Resolve(by),
    }
}

/// The mode of a reduction on its target.
pub fn reduction_mode(resolution: Resolution, identity: Option<i64>) -> UseMode
    ensures { mode_of result ≡ reduction_mode resolution identity }
{
    match identity {
        None => mode_by(Some(resolution)),
        Some(_) => UseMode::Write,
    }
}

/// Two modes in one.
pub(crate) fn common_mode(mode: UseMode, other: UseMode) -> UseMode
    ensures { mode_of result ≡ definition.common_mode (mode_of mode) (mode_of other) }
{
    if do_conflict(mode, other) {
        UseMode::Write
    } else {
        mode
    }
}
