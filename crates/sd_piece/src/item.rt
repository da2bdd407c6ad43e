//! The items of a graph's states, and the values that their pieces share out.
ghost use Rattle.std.specs.Prelude.{◌≡◌, ◌↔◌, ◌-◌, ◌^◌, min, None, Some, IfOk, IsTrue};
ghost use Rattle.std.specs.Option.{MatchOption};
ghost use Rattle.sd_graph.specs.TreeFold.{graph_tree, item_tree, kind_tree};
ghost use Rattle.sd_safe.specs.pieces.ItemPieces.{state_items};
ghost use Rattle.sd_piece.specs.Piece as definition;

use crate::piece::PieceAt;
use sd_graph::{Item, ItemKind, Sdfg};
use sd_list::{NoMemory, Sequence};
use sd_range::{Env, Range};
use sd_scope::checked_points;
use std::alloc::Global;

/// The item of a number in a state; `None` where there is none.
pub(crate) fn item_at(graph: &Sdfg, state: u32, item: u32) -> Option<&Item>
    ensures { MatchOption result (definition.item_of (state_items (graph_tree graph.now) state) item ≡ None) (λ found. definition.item_of (state_items (graph_tree graph.now) state) item ≡ Some (item_tree found.now)) }
{
    let states = graph.states.as_slice();
    if state as usize >= states.len() {
        return None;
    }
    let items = states[state as usize].items.as_slice();
    if item as usize >= items.len() {
        return None;
    }
    Some(&items[item as usize])
}

/// How many values the first parameter takes; one where there is none. All 2^128 numbers count as one less.
fn count_params(alloc: Global, params: &[(u32, Range)], values: &[i128]) -> Result<u128, NoMemory>
    ensures { IfOk result (λ count. count ≡ min (definition.count_params values.now params.now) (2 ^ 128 - 1)) }
{
    if params.is_empty() {
        return Ok(1);
    }
    let env = Env {
        values: Sequence::from(values.to_vec(alloc)?),
    };
    let points = checked_points(alloc, &params[..1], &env)?;
    Ok(points.first_count())
}

/// How many values an item has for its pieces to share out.
fn value_count(alloc: Global, kind: &ItemKind, values: &[i128]) -> Result<u128, NoMemory>
    ensures { IfOk result (λ count. count ≡ min (definition.value_count values.now (kind_tree kind.now)) (2 ^ 128 - 1)) }
{
    match kind {
        ItemKind::Map {
            params,
            sequential: false,
            ..
        } => count_params(alloc, params, values),
        _ => Ok(1),
    }
}

/// Whether an item has a piece of so many values, at least one. Of 2^128 - 1 values or more it is not known how many are behind these: a piece
/// that ends there counts as want of memory.
pub(crate) fn has_piece(
    alloc: Global,
    kind: &ItemKind,
    values: &[i128],
    at: PieceAt,
) -> Result<bool, NoMemory>
    ensures { IfOk result (λ has. IsTrue has ↔ definition.HasValues values.now at.first at.count (kind_tree kind.now)) }
{
    let count = value_count(alloc, kind, values)?;
    let Some(left) = count.checked_sub(at.first) else {
        return Ok(false);
    };
    if count == u128::MAX && at.count > left {
        return Err(NoMemory);
    }
    Ok(at.count > 0 && at.count <= left)
}
