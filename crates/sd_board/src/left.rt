//! Of each item, how many pieces of the items before it are not finished.
ghost use Rattle.std.specs.Prelude.{◌≡◌, ◌-◌, ◌≤◌, ℕ, length, slice_index_or, if◌then◌else◌, IfOk};
ghost use Rattle.sd_order.specs.table.Told.{told};
ghost use Rattle.sd_board.specs.Progress as definition;

use crate::mark::Mark;
use sd_order::Order;
use std::alloc::{AllocError, Global};

/// Whether a piece of an item stands before another item and is not finished, as a count.
fn one_left(order: &Order, item: usize, earlier: u32, mark: Mark) -> usize
    ensures is { result ≡ (if told order.now earlier item then definition.one_if_left mark else 0) }
    ensures most { result ≤ 1 }
{
    let counts = order.is_before(earlier as usize, item) && !mark.is_finished();
    usize::from(counts)
}

/// How many of these pieces are of items before this one and not finished.
fn count_left(order: &Order, item: usize, items: &[u32], marks: &[Mark]) -> usize
    requires { length marks.now ≡ length items.now }
    ensures { result ≡ definition.count_left order.now item items.now marks.now }
{
    let mut count = 0;
    for number in 0..items.len() {
        count += one_left(order, item, items[number], marks[number]);
    }
    count
}

/// The table of these pieces. It has no row for an item before which there is none.
pub(crate) fn table_of(
    alloc: Global,
    order: &Order,
    items: &[u32],
    marks: &[Mark],
) -> Result<Vec<usize>, AllocError>
    requires { length marks.now ≡ length items.now }
    ensures { IfOk result (λ left. definition.AreCounted (definition.standing_of items.now order.now marks.now) left.items) }
{
    let rows = order.count.min(order.table.len());
    let mut left = Vec::with_capacity(alloc, rows)?;
    for item in 0..rows {
        left.push(count_left(order, item, items, marks))?;
    }
    Ok(left)
}

/// What a table tells of an item.
pub(crate) fn left_before(left: &[usize], item: usize) -> usize
    ensures { result ≡ slice_index_or left.now item 0 }
{
    match left.get(item) {
        Some(count) => *count,
        None => 0,
    }
}

/// A piece of an item is finished: before each item behind that, one less is left.
pub(crate) fn count_off(order: &Order, item: usize, left: &mut Vec<usize>)
    ensures { (to : ℕ) → slice_index_or left.new.items to 0 ≡ slice_index_or left.old.items to 0 - (if told order.now item to then 1 else 0) }
{
    for to in 0..left.len() {
        if order.is_before(item, to) {
            left[to] = left[to].saturating_sub(1);
        }
    }
}
