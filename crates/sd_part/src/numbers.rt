//! The numbers in a window of the elements of a box.
ghost use Rattle.std.specs.Prelude.{◌≡◌, ◌+◌, ◌*◌, ◌++◌, pos, ◌+ℤ◌, ◌≤ℤ◌, length, IfOk, OnOk};
ghost use Rattle.sd_part.specs.Marks as definition;
ghost use Rattle.sd_part.specs.Sides as plain;

use crate::boxes::Interval;
use sd_cut::Window;
use sd_list::NoMemory;
use std::alloc::Global;

/// The places in a dimension of a window of the indices that a box has.
#[derive(Clone, Copy)]
struct Side {
    first: u64,
    count: u64,
    extent: u64,
}

/// The places of an interval; one that begins below the window counts as want of memory.
fn side_of(shift: i128, extent: u64, interval: Interval) -> Result<Side, NoMemory>
    ensures side { IfOk result (λ side. side ≡ plain.side_of shift extent interval) }
    ensures within { IfOk result (λ _. pos 0 ≤ℤ (shift +ℤ pos interval.low)) }
{
    let first = shift.checked_add(i128::from(interval.low)).ok_or(NoMemory)?;
    if first < 0 {
        return Err(NoMemory);
    }
    Ok(Side {
        first: u64::try_from(first.unsigned_abs()).map_err(|_| NoMemory)?,
        count: interval.count,
        extent,
    })
}

/// The places of each interval.
fn sides_of(
    alloc: Global,
    shift: &[i128],
    extents: &[u64],
    intervals: &[Interval],
) -> Result<Vec<Side>, NoMemory>
    requires shift { length shift.now ≡ length intervals.now }
    requires extents { length extents.now ≡ length intervals.now }
    ensures sides { IfOk result (λ all. all.items ≡ plain.sides_of shift.now extents.now intervals.now) }
    ensures within { IfOk result (λ _. plain.BeginsWithin shift.now intervals.now) }
{
    let mut all = Vec::with_capacity(alloc, intervals.len())?;
    for i in 0..intervals.len() {
        all.push(side_of(shift[i], extents[i], intervals[i])?)?;
    }
    Ok(all)
}

/// The number of a row's first place in the next dimension. A number that does not fit 64 bits counts as want of memory.
fn first_place(row: u64, side: Side) -> Result<u64, NoMemory>
    ensures { IfOk result (λ place. place ≡ row * side.extent + side.first) }
{
    let rows = row.checked_mul(side.extent).ok_or(NoMemory)?;
    rows.checked_add(side.first).ok_or(NoMemory)
}

/// Adds the numbers of the elements at these places, in a row that has this number.
fn push_numbers(sides: &[Side], row: u64, found: &mut Vec<u64>) -> Result<(), NoMemory>
    ensures { OnOk result (found.new.items ≡ found.old.items ++ plain.numbers_along sides.now row) }
{
    let Some((side, inner)) = sides.split_first() else {
        found.push(row)?;
        return Ok(());
    };
    let first = first_place(row, *side)?;
    for place in 0..side.count {
        push_numbers(inner, first.checked_add(place).ok_or(NoMemory)?, found)?;
    }
    Ok(())
}

/// The numbers in a window of the elements of a box, in row order.
pub(crate) fn numbers_within(
    alloc: Global,
    window: &Window,
    intervals: &[Interval],
) -> Result<Vec<u64>, NoMemory>
    requires shift { length window.now.shift ≡ length intervals.now }
    requires extents { length window.now.extents ≡ length intervals.now }
    ensures { IfOk result (λ numbers. numbers.items ≡ definition.numbers_within window.now intervals.now) }
{
    let shift = window.shift.as_slice();
    let extents = window.extents.as_slice();
    let sides = sides_of(alloc, shift, extents, intervals)?;
    let mut found = Vec::new(alloc);
    push_numbers(sides.as_slice(), 0, &mut found)?;
    Ok(found)
}
