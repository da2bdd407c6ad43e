//! A cut of a memory, marked by the boxes of a part.
ghost use Rattle.std.specs.Prelude.{◌≡◌, List, length, OnOk, OnErr};
ghost use Rattle.std.specs.List.{fold};
ghost use Rattle.sd_part.specs.Boxes as plain;
ghost use Rattle.sd_part.specs.Hulls.{AreEven, AreOfLength};
ghost use Rattle.sd_part.specs.Marking as definition;

use crate::boxes::NumberBox;
use crate::hulls::is_of_elements;
use crate::marks::{is_taken_from, numbers_among, resolution_among};
use sd_cut::Overlay;
use sd_list::NoMemory;
use sd_num::Resolution;
use std::alloc::Global;

/// Marks an element as gathered by a resolution, or else as kept.
fn mark_element(overlay: &mut Overlay, by: Option<Resolution>, container: u32, number: u64)
    ensures { overlay.new ≡ definition.with_mark by container number overlay.old }
{
    match by {
        None => overlay.keep(container, number),
        Some(by) => overlay.gather(container, number, by),
    }
}

/// So it does with those of these numbers.
fn mark_elements(overlay: &mut Overlay, by: Option<Resolution>, container: u32, numbers: &[u64])
    ensures { overlay.new ≡ definition.with_marks by container numbers.now overlay.old }
{
    for number in numbers {
        mark_element(overlay, by, container, *number);
    }
}

/// Marks a stream: one that values are taken from is drained, another one appended to.
fn mark_stream(overlay: &mut Overlay, boxes: &[NumberBox], container: u32) -> Result<(), NoMemory>
    ensures ok { OnOk result (overlay.new ≡ definition.with_stream boxes.now container overlay.old) }
    ensures err { OnErr result (overlay.new ≡ overlay.old) }
{
    if is_taken_from(boxes, container) {
        overlay.drain(container)
    } else {
        overlay.append(container)
    }
}

/// Marks what a box among others touches.
fn mark_box(
    alloc: Global,
    overlay: &mut Overlay,
    boxes: &[NumberBox],
    one: &NumberBox,
) -> Result<(), NoMemory>
    requires even { AreOfLength (length one.now.intervals) one.now.container boxes.now }
    ensures ok { OnOk result (overlay.new ≡ definition.with_box boxes.now overlay.old one.now) }
    ensures err { OnErr result (overlay.new ≡ overlay.old) }
{
    let container = one.container();
    if !is_of_elements(one.mode()) {
        return mark_stream(overlay, boxes, container);
    }
    let by = resolution_among(boxes, container, one.mode());
    let numbers = numbers_among(alloc, boxes, one)?;
    mark_elements(overlay, by, container, numbers.as_slice());
    Ok(())
}

/// Marks what the boxes of a part touch on a cut that nothing has touched yet. Where memory is wanting some may be marked.
pub fn mark_boxes(alloc: Global, overlay: &mut Overlay, boxes: &[NumberBox]) -> Result<(), NoMemory>
    requires even { AreEven boxes.now }
    ensures ok { OnOk result (overlay.new ≡ definition.with_boxes boxes.now overlay.old) }
    ensures err { OnErr result ((some : List plain.NumberBox) × (overlay.new ≡ fold (definition.with_box boxes.now) overlay.old some)) }
{
    for one in boxes {
        mark_box(alloc, overlay, boxes, one)?;
    }
    Ok(())
}
