//! What the items do that a path has reached: one mode for each container, by its number.
ghost use Rattle.std.specs.Prelude.{◌≡◌, ℕ, nat_eq, None, Some, option_map, slice_index_or, if◌then◌else◌, OnOk};
ghost use Rattle.sd_graph.specs.Mode as modes;
ghost use Rattle.sd_wire.specs.wiring.Mentioned.{mode_of};
ghost use Rattle.sd_order.specs.items.Joined as definition;
ghost use Rattle.sd_order.specs.items.Joined.{mode_at, with_use, joined_behind, meets_one};

use crate::items::use_::Use;
use sd_list::NoMemory;
use sd_wire::{UseMode, do_conflict};

/// The mode of a container; `None` where nothing was done to it.
fn mode_at(modes: &[Option<UseMode>], container: u32) -> Option<UseMode>
    ensures { result ≡ slice_index_or modes.now container None }
{
    match modes.get(container as usize) {
        Some(mode) => *mode,
        None => None,
    }
}

/// Whether a mode conflicts with that of a container.
fn meets(mode: Option<UseMode>, other: UseMode) -> bool
    ensures { result ≡ definition.meets (option_map mode_of mode) (mode_of other) }
{
    match mode {
        None => false,
        Some(mode) => do_conflict(mode, other),
    }
}

/// Whether one of the uses conflicts with the mode of its container.
pub(crate) fn do_meet(modes: &[Option<UseMode>], uses: &[Use]) -> bool
    ensures { result ≡ meets_one (mode_at modes.now) uses.now }
{
    for use_ in uses {
        if meets(mode_at(modes, use_.container()), use_.mode()) {
            return true;
        }
    }
    false
}

/// A mode beside that of a container, in one.
fn with_mode(mode: Option<UseMode>, other: UseMode) -> UseMode
    ensures { mode_of result ≡ definition.with_mode (option_map mode_of mode) (mode_of other) }
{
    match mode {
        None => other,
        Some(mode) => {
            if do_conflict(mode, other) {
                UseMode::Write
            } else {
                mode
            }
        }
    }
}

/// Puts a mode in the place of that of a container.
fn put(modes: &mut Vec<Option<UseMode>>, container: u32, mode: UseMode) -> Result<(), NoMemory>
    ensures { OnOk result ((other : ℕ) → slice_index_or modes.new.items other None ≡ (if nat_eq other container then Some mode else slice_index_or modes.old.items other None)) }
{
    let index = container as usize;
    if index >= modes.len() {
        modes.resize(index + 1, None)?;
    }
    modes[index] = Some(mode);
    Ok(())
}

/// Adds a use.
fn add_use(modes: &mut Vec<Option<UseMode>>, use_: &Use) -> Result<(), NoMemory>
    ensures { OnOk result ((container : ℕ) → mode_at modes.new.items container ≡ with_use container (mode_at modes.old.items container) use_.now) }
{
    let container = use_.container();
    let mode = mode_at(modes, container);
    put(modes, container, with_mode(mode, use_.mode()))
}

/// Adds uses, one after another.
pub(crate) fn add(modes: &mut Vec<Option<UseMode>>, uses: &[Use]) -> Result<(), NoMemory>
    ensures { OnOk result ((container : ℕ) → mode_at modes.new.items container ≡ joined_behind container (mode_at modes.old.items container) uses.now) }
{
    for use_ in uses {
        add_use(modes, use_)?;
    }
    Ok(())
}
