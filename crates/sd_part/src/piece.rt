//! Pieces of items. A number that does not fit 128 bits counts as want of memory; ranges of a graph's maps have values far below that.
ghost use Rattle.std.specs.Prelude.{◌≡◌, pos, ◌+ℤ◌, ◌*ℤ◌, IfOk};
ghost use Rattle.sd_graph.specs.TreeFold.{item_tree, kind_tree};
ghost use Rattle.sd_windows.specs.MapPieces as definition;

use sd_graph::{Item, ItemKind};
use sd_list::{NoMemory, Sequence};
use sd_range::{Affine, Range};
use sd_scope::value_of;
use std::alloc::Global;

/// The number so many steps above another.
fn steps_above(number: i128, steps: u128, step: i128) -> Result<i128, NoMemory>
    ensures { IfOk result (λ above. above ≡ number +ℤ (pos steps *ℤ step)) }
{
    let steps = i128::try_from(steps).map_err(|_| NoMemory)?;
    let distance = steps.checked_mul(step).ok_or(NoMemory)?;
    number.checked_add(distance).ok_or(NoMemory)
}

/// The last of so many numbers from a begin on, a step apart; where there is none, a number before the begin.
fn last_of(begin: i128, step: i128, count: u128) -> Result<i128, NoMemory>
    ensures { IfOk result (λ last. last ≡ definition.last_of begin step count) }
{
    match count.checked_sub(1) {
        None => begin.checked_sub(1).ok_or(NoMemory),
        Some(more) => steps_above(begin, more, step),
    }
}

/// So many of a range's values, from the one of number `first` on.
fn range_piece(
    alloc: Global,
    range: &Range,
    values: &[i128],
    first: u128,
    count: u128,
) -> Result<Range, NoMemory>
    ensures { IfOk result (λ piece. piece ≡ definition.range_piece values.now first count range.now) }
{
    let begin = steps_above(value_of(&range.begin, values)?, first, range.step)?;
    let last = last_of(begin, range.step, count)?;
    let mut ends = Vec::new(alloc);
    ends.push(Affine::constant(alloc, last))?;
    Ok(Range {
        begin: Affine::constant(alloc, begin),
        ends: Sequence::from(ends),
        step: range.step,
    })
}

/// Parameters, the first one with so many of its values.
pub(crate) fn params_piece(
    alloc: Global,
    params: &[(u32, Range)],
    values: &[i128],
    first: u128,
    count: u128,
) -> Result<Vec<(u32, Range)>, NoMemory>
    ensures { IfOk result (λ piece. piece.items ≡ definition.params_piece values.now first count params.now) }
{
    let mut piece = Vec::with_capacity(alloc, params.len())?;
    let Some((outer, others)) = params.split_first() else {
        return Ok(piece);
    };
    piece.push((outer.0, range_piece(alloc, &outer.1, values, first, count)?))?;
    for (variable, range) in others {
        piece.push((*variable, range.copy_of(alloc)?))?;
    }
    Ok(piece)
}

/// The same of what an item does.
fn kind_piece(
    alloc: Global,
    kind: &ItemKind,
    values: &[i128],
    first: u128,
    count: u128,
) -> Result<ItemKind, NoMemory>
    ensures { IfOk result (λ piece. kind_tree piece ≡ definition.kind_piece values.now first count (kind_tree kind.now)) }
{
    match kind.copy_of(alloc)? {
        ItemKind::Map {
            params,
            private,
            body,
            sequential: false,
        } => Ok(ItemKind::Map {
            params: params_piece(alloc, &params, values, first, count)?,
            private,
            body,
            sequential: false,
        }),
        whole => Ok(whole),
    }
}

/// A piece of an item: a map whose points are in any order, with so many values of its first parameter, from the one of number `first`
/// on. A sequential map, and any other item, is one piece, itself.
pub fn piece_of(
    alloc: Global,
    item: &Item,
    values: &[i128],
    first: u128,
    count: u128,
) -> Result<Item, NoMemory>
    ensures { IfOk result (λ piece. item_tree piece ≡ ((item_tree item.now).0, definition.kind_piece values.now first count (item_tree item.now).1)) }
{
    Ok(Item {
        line: item.line,
        kind: kind_piece(alloc, &item.kind, values, first, count)?,
    })
}
