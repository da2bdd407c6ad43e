//! An access.
ghost use Rattle.std.specs.Prelude.{◌≡◌, IfOk};
ghost use Rattle.sd_prop.specs.propagation.Accesses.{access_replaced};
ghost use Rattle.sd_wire.specs.wiring.Mentioned.{mode_of};

use sd_list::{NoMemory, Sequence};
use sd_range::Range;
use sd_subset::{Bounds, replaced};
use sd_wire::UseMode;
use std::alloc::Global;
use std::marker::Model;

/// What a node of an item does to a container: in which mode, and the bounds of what it touches in
/// each dimension. A stream has no dimension.
#[derive(Drop)]
pub struct Access {
    node: u32,
    container: u32,
    mode: UseMode,
    bounds: Sequence<Bounds>,
}

impl Model for Access {
    ghost use Rattle.sd_prop.specs.propagation.Accesses as plain;
    ghost use Rattle.sd_wire.specs.wiring.Mentioned.{mode_of};

    ghost Value = { plain.Access };

    ghost view = { λ a. record { node = a.node; container = a.container; mode = mode_of a.mode; box = a.bounds } };
}

/// The same bounds once more.
pub(crate) fn bounds_copied(alloc: Global, bounds: &[Bounds]) -> Result<Sequence<Bounds>, NoMemory>
    ensures { IfOk result (λ copy. copy ≡ bounds.now) }
{
    let mut copy = Vec::with_capacity(alloc, bounds.len())?;
    for one in bounds {
        copy.push(one.copy_of(alloc)?)?;
    }
    Ok(Sequence::from(copy))
}

impl Access {
    pub fn new(node: u32, container: u32, mode: UseMode, bounds: Sequence<Bounds>) -> Access
        ensures { result ≡ record { node = node; container = container; mode = mode_of mode; box = bounds } }
    {
        Access {
            node,
            container,
            mode,
            bounds,
        }
    }

    pub fn node(&self) -> u32
        ensures { result ≡ self.now.node }
    {
        self.node
    }

    pub fn container(&self) -> u32
        ensures { result ≡ self.now.container }
    {
        self.container
    }

    pub fn mode(&self) -> UseMode
        ensures { mode_of result ≡ self.now.mode }
    {
        self.mode
    }

    pub fn bounds(&self) -> &[Bounds]
        ensures { result.now ≡ self.now.box }
    {
        self.bounds.as_slice()
    }

    /// The same access once more.
    pub fn copy_of(&self, alloc: Global) -> Result<Access, NoMemory>
        ensures { IfOk result (λ copy. copy ≡ self.now) }
    {
        Ok(Access {
            node: self.node,
            container: self.container,
            mode: self.mode,
            bounds: bounds_copied(alloc, self.bounds.as_slice())?,
        })
    }

    /// The same access with the parameters of a map replaced.
    pub(crate) fn replaced(
        &self,
        alloc: Global,
        parameters: &[(u32, Range)],
    ) -> Result<Access, NoMemory>
        ensures { IfOk result (λ access. access ≡ access_replaced parameters.now self.now) }
    {
        Ok(Access {
            node: self.node,
            container: self.container,
            mode: self.mode,
            bounds: replaced(alloc, parameters, self.bounds.as_slice())?,
        })
    }
}

/// The same accesses once more.
pub(crate) fn copied(alloc: Global, accesses: &[Access]) -> Result<Sequence<Access>, NoMemory>
    ensures { IfOk result (λ copy. copy ≡ accesses.now) }
{
    let mut copy = Vec::with_capacity(alloc, accesses.len())?;
    for access in accesses {
        copy.push(access.copy_of(alloc)?)?;
    }
    Ok(Sequence::from(copy))
}
