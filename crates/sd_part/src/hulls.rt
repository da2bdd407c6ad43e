//! The windows of a part: for each container the hull of its boxes.
ghost use Rattle.std.specs.Prelude.{◌≡◌, ◌≤◌, length, Some, IfOk};
ghost use Rattle.sd_wire.specs.wiring.Mentioned.{mode_of};
ghost use Rattle.sd_part.specs.Hulls as definition;

use crate::boxes::{Interval, NumberBox};
use sd_cut::Window;
use sd_list::{NoMemory, Sequence};
use sd_wire::UseMode;
use std::alloc::Global;

/// Whether each dimension has an index.
fn has_index(intervals: &[Interval]) -> bool
    ensures { result ≡ definition.has_index intervals.now }
{
    for interval in intervals {
        if interval.count == 0 {
            return false;
        }
    }
    true
}

/// Whether elements are touched in a mode, and not a stream.
pub(crate) fn is_of_elements(mode: UseMode) -> bool
    ensures { result ≡ definition.is_of_elements (mode_of mode) }
{
    match mode {
        UseMode::Read | UseMode::Write | UseMode::Resolve(_) => true,
        UseMode::Push | UseMode::Take => false,
    }
}

/// Whether a box is of a container, and has an index.
fn has_index_of(container: u32, one: &NumberBox) -> bool
    ensures { result ≡ definition.has_index_of container one.now }
{
    one.container() == container && has_index(one.intervals())
}

/// The indices from the least to the greatest of two dimensions that have some. An index that does not fit 64 bits counts as want of memory.
fn joined(one: Interval, other: Interval) -> Result<Interval, NoMemory>
    ensures { IfOk result (λ both. both ≡ definition.joined one other) }
{
    let low = one.low.min(other.low);
    let end = one.low.checked_add(one.count).ok_or(NoMemory)?;
    let other_end = other.low.checked_add(other.count).ok_or(NoMemory)?;
    Ok(Interval {
        low,
        count: end.max(other_end) - low,
    })
}

/// So in each dimension of both.
fn joined_each(
    alloc: Global,
    ones: &[Interval],
    others: &[Interval],
) -> Result<Sequence<Interval>, NoMemory>
    ensures { IfOk result (λ all. all ≡ definition.joined_each ones.now others.now) }
{
    let mut all = Vec::with_capacity(alloc, ones.len())?;
    let mut left = others;
    for one in ones {
        match left.split_first() {
            None => return Ok(Sequence::from(all)),
            Some((other, rest)) => {
                all.push(joined(*one, *other)?)?;
                left = rest;
            }
        }
    }
    Ok(Sequence::from(all))
}

/// A hull, if there is one, with one box more.
fn with_box(
    alloc: Global,
    hull: &Option<Sequence<Interval>>,
    one: &NumberBox,
) -> Result<Sequence<Interval>, NoMemory>
    ensures { IfOk result (λ more. Some more ≡ definition.with_box hull.now one.now) }
{
    match hull {
        None => Ok(Sequence::from(one.intervals().to_vec(alloc)?)),
        Some(hull) => joined_each(alloc, hull.as_slice(), one.intervals()),
    }
}

/// The hull of the boxes of a container that have an index, if one has.
fn hull_of(
    alloc: Global,
    container: u32,
    boxes: &[NumberBox],
) -> Result<Option<Sequence<Interval>>, NoMemory>
    ensures { IfOk result (λ hull. hull ≡ definition.hull_of container boxes.now) }
{
    let mut hull = None;
    for one in boxes {
        if has_index_of(container, one) {
            hull = Some(with_box(alloc, &hull, one)?);
        }
    }
    Ok(hull)
}

/// The window of these indices.
fn window_over(alloc: Global, intervals: &[Interval]) -> Result<Window, NoMemory>
    ensures { IfOk result (λ window. window ≡ definition.window_over intervals.now) }
{
    let mut shift = Vec::with_capacity(alloc, intervals.len())?;
    let mut extents = Vec::with_capacity(alloc, intervals.len())?;
    for interval in intervals {
        shift.push(-i128::from(interval.low))?;
        extents.push(interval.count)?;
    }
    Ok(Window {
        shift: Sequence::from(shift),
        extents: Sequence::from(extents),
    })
}

/// Whether elements of a container are touched.
fn has_elements(boxes: &[NumberBox], container: u32) -> bool
    ensures { result ≡ definition.has_elements boxes.now container }
{
    for one in boxes {
        if one.container() == container && is_of_elements(one.mode()) {
            return true;
        }
    }
    false
}

/// The window of a container of which elements are touched: the hull of its boxes that have an index.
pub(crate) fn window_for(
    alloc: Global,
    boxes: &[NumberBox],
    container: u32,
) -> Result<Option<Window>, NoMemory>
    ensures { IfOk result (λ window. window ≡ definition.window_for boxes.now container) }
{
    if !has_elements(boxes, container) {
        return Ok(None);
    }
    match hull_of(alloc, container, boxes)? {
        None => Ok(None),
        Some(hull) => Ok(Some(window_over(alloc, hull.as_slice())?)),
    }
}

/// A number above that of each container of boxes, and at least this one.
fn numbers_below(least: u32, boxes: &[NumberBox]) -> u64
    ensures least { least ≤ result }
    ensures below { definition.AreBelow result boxes.now }
{
    let mut above = u64::from(least);
    for one in boxes {
        above = above.max(u64::from(one.container()) + 1);
    }
    above
}

/// The window of each container, by their numbers; there are at least so many of them, and those behind the end have none.
pub fn windows_of(
    alloc: Global,
    containers: u32,
    boxes: &[NumberBox],
) -> Result<Vec<Option<Window>>, NoMemory>
    ensures windows { IfOk result (λ windows. definition.AreWindowsFor boxes.now windows.items) }
    ensures all { IfOk result (λ windows. containers ≤ length windows.items) }
{
    let mut windows = Vec::new(alloc);
    for number in 0..numbers_below(containers, boxes) {
        let container = u32::try_from(number).map_err(|_| NoMemory)?;
        windows.push(window_for(alloc, boxes, container)?)?;
    }
    Ok(windows)
}
