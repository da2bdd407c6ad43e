//! What the boxes of a part mark.
ghost use Rattle.std.specs.Prelude.{◌≡◌, length, IfOk};
ghost use Rattle.sd_wire.specs.wiring.Mentioned.{mode_of};
ghost use Rattle.sd_part.specs.Hulls.{AreOfLength};
ghost use Rattle.sd_part.specs.Marks as definition;

use crate::boxes::NumberBox;
use crate::hulls::{is_of_elements, window_for};
use crate::numbers::numbers_within;
use sd_list::NoMemory;
use sd_num::Resolution;
use sd_wire::{UseMode, do_conflict};
use std::alloc::Global;

/// Whether a resolution has an identity.
fn has_identity(by: Resolution) -> bool
    ensures { result ≡ definition.has_identity by }
{
    match by {
        Resolution::Sum
        | Resolution::Product
        | Resolution::Min
        | Resolution::Max
        | Resolution::And
        | Resolution::Or
        | Resolution::Xor => true,
        Resolution::Last => false,
    }
}

/// Whether no box of a container is of a mode that conflicts with this one.
fn none_conflicts(boxes: &[NumberBox], container: u32, mode: UseMode) -> bool
    ensures { result ≡ definition.none_conflicts boxes.now container (mode_of mode) }
{
    for one in boxes {
        if one.container() == container && do_conflict(one.mode(), mode) {
            return false;
        }
    }
    true
}

/// The resolution by which the elements of a box in this mode are gathered: its own, where it has an identity and no box of the container does
/// anything else. `None` where they are kept.
pub fn resolution_among(boxes: &[NumberBox], container: u32, mode: UseMode) -> Option<Resolution>
    ensures { result ≡ definition.resolution_among boxes.now container (mode_of mode) }
{
    match mode {
        UseMode::Resolve(by) => {
            if has_identity(by) && none_conflicts(boxes, container, mode) {
                Some(by)
            } else {
                None
            }
        }
        UseMode::Read | UseMode::Write | UseMode::Push | UseMode::Take => None,
    }
}

/// The numbers, in the window of its container, of the elements that a box touches among others, in row order. It touches none where it is of a stream.
pub fn numbers_among(
    alloc: Global,
    boxes: &[NumberBox],
    one: &NumberBox,
) -> Result<Vec<u64>, NoMemory>
    requires even { AreOfLength (length one.now.intervals) one.now.container boxes.now }
    ensures { IfOk result (λ numbers. numbers.items ≡ definition.numbers_among boxes.now one.now) }
{
    if !is_of_elements(one.mode()) {
        return Ok(Vec::new(alloc));
    }
    match window_for(alloc, boxes, one.container())? {
        None => Ok(Vec::new(alloc)),
        Some(window) => numbers_within(alloc, &window, one.intervals()),
    }
}

/// Whether values are pushed to a stream.
pub fn is_pushed_to(boxes: &[NumberBox], container: u32) -> bool
    ensures { result ≡ definition.is_pushed_to boxes.now container }
{
    for one in boxes {
        if one.container() == container && matches!(one.mode(), UseMode::Push) {
            return true;
        }
    }
    false
}

/// Whether values are taken from a stream.
pub fn is_taken_from(boxes: &[NumberBox], container: u32) -> bool
    ensures { result ≡ definition.is_taken_from boxes.now container }
{
    for one in boxes {
        if one.container() == container && matches!(one.mode(), UseMode::Take) {
            return true;
        }
    }
    false
}

/// The streams of boxes, in their order; one that has several boxes stands there several times.
pub fn streams_of(alloc: Global, boxes: &[NumberBox]) -> Result<Vec<u32>, NoMemory>
    ensures { IfOk result (λ streams. streams.items ≡ definition.streams_of boxes.now) }
{
    let mut streams = Vec::new(alloc);
    for one in boxes {
        if !is_of_elements(one.mode()) {
            streams.push(one.container())?;
        }
    }
    Ok(streams)
}
