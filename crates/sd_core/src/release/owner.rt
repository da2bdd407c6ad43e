//! A finished point or element.
ghost use Rattle.std.specs.Prelude.{◌≡◌, [], true, OnOk};
ghost use Rattle.sd_work.specs.Memory.{Memories};
ghost use Rattle.sd_left.specs.left.Kept.{body_kept};
ghost use Rattle.sd_left.specs.left.Tells.{body_tells};
ghost use Rattle.sd_left.specs.left.Waits.{is_body_counted};

use sd_left::Body;
use sd_list::{NoMemory, Tally};
use sd_mem::Memory;
use std::alloc::Global;

/// Lets go of all items of a body, and of its memory. Its numbers stay.
pub(crate) fn let_go(alloc: Global, body: &mut Body) -> Result<(), NoMemory>
    ensures kept { OnOk result (body_kept body.new ≡ record { at = (body_kept body.old).at; own = []; order = (body_kept body.old).order; parts = [] }) }
    ensures counted { OnOk result ((memories : Memories) → is_body_counted body.new memories ≡ true) }
    ensures right { OnOk result ((body_tells body.new).is_right ≡ true) }
{
    body.moves = Tally::of(alloc, &[])?;
    body.unfinished = Tally::of(alloc, &[])?;
    body.open = Tally::of(alloc, &[])?;
    body.parts = Vec::new(alloc);
    body.own = Memory::empty(alloc);
    Ok(())
}
