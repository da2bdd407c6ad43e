//! Where the pieces of a state's items are.
ghost use Rattle.std.specs.Prelude.{◌≡◌, ◌++◌, ◌-◌, ◌<◌, ◌≤◌, ◌^◌, min, map, IfOk, OnOk};
ghost use Rattle.sd_graph.specs.TreeFold.{graph_tree, item_trees, kind_tree};
ghost use Rattle.sd_piece.specs.Piece as pieces;
ghost use Rattle.sd_safe.specs.pieces.ItemPieces.{state_items};
ghost use Rattle.sd_crew.specs.Places as definition;

use sd_graph::{Item, ItemKind, Sdfg};
use sd_list::{NoMemory, Sequence};
use sd_lower::{piece_count, values_of_piece};
use sd_piece::PieceAt;
use sd_range::{Env, Range};
use sd_scope::checked_points;
use std::alloc::Global;

/// The items of a state; none where there is no such state.
pub(crate) fn items_of(graph: &Sdfg, state: u32) -> &[Item]
    ensures { item_trees result.now ≡ state_items (graph_tree graph.now) state }
{
    let states = graph.states.as_slice();
    if state as usize >= states.len() {
        return &[];
    }
    states[state as usize].items.as_slice()
}

/// How many values the first parameter takes; one where there is none. All 2^128 numbers count as one less.
fn count_params(alloc: Global, params: &[(u32, Range)], values: &[i128]) -> Result<u128, NoMemory>
    ensures { IfOk result (λ count. count ≡ min (pieces.count_params values.now params.now) (2 ^ 128 - 1)) }
{
    if params.is_empty() {
        return Ok(1);
    }
    let env = Env {
        values: Sequence::from(values.to_vec(alloc)?),
    };
    let points = checked_points(alloc, &params[..1], &env)?;
    Ok(points.first_count())
}

/// How many values an item has for its pieces to share out, where these are fewer than 2^128 - 1.
fn value_count(alloc: Global, kind: &ItemKind, values: &[i128]) -> Result<u128, NoMemory>
    ensures { IfOk result (λ count. count ≡ min (pieces.value_count values.now (kind_tree kind.now)) (2 ^ 128 - 1)) }
{
    match kind {
        ItemKind::Map {
            params,
            sequential: false,
            ..
        } => count_params(alloc, params, values),
        _ => Ok(1),
    }
}

/// How many values an item has; 2^120 of them or more count as want of memory.
fn few_values(alloc: Global, kind: &ItemKind, values: &[i128]) -> Result<u128, NoMemory>
    ensures is { IfOk result (λ count. count ≡ pieces.value_count values.now (kind_tree kind.now)) }
    ensures few { IfOk result (λ count. count < 2 ^ 120) }
{
    let count = value_count(alloc, kind, values)?;
    if count >= 1 << 120 {
        return Err(NoMemory);
    }
    Ok(count)
}

/// Adds the places of the pieces of an item that has so many values.
fn push_places(
    places: &mut Vec<PieceAt>,
    state: u32,
    item: u32,
    values: u128,
    workers: u64,
) -> Result<(), NoMemory>
    requires workers { workers ≤ 64 }
    requires few { values < 2 ^ 120 }
    ensures { OnOk result (places.new.items ≡ places.old.items ++ definition.item_places state item values workers) }
{
    for piece in 0..piece_count(values, workers) {
        let share = values_of_piece(values, workers, piece);
        places.push(PieceAt {
            state,
            item,
            first: share.first,
            count: share.count,
        })?;
    }
    Ok(())
}

/// The places of the pieces of a state's items, in order, for so many workers.
pub(crate) fn places_of(
    alloc: Global,
    items: &[Item],
    state: u32,
    values: &[i128],
    workers: u64,
) -> Result<Vec<PieceAt>, NoMemory>
    requires workers { workers ≤ 64 }
    ensures { IfOk result (λ places. places.items ≡ definition.places_from state values.now workers 0 (item_trees items.now)) }
{
    let mut places = Vec::new(alloc);
    for number in 0..items.len() {
        let item = u32::try_from(number).map_err(|_| NoMemory)?;
        let count = few_values(alloc, &items[number].kind, values)?;
        push_places(&mut places, state, item, count, workers)?;
    }
    Ok(places)
}

/// The item of each piece.
pub(crate) fn items_at(alloc: Global, places: &[PieceAt]) -> Result<Vec<u32>, NoMemory>
    ensures { IfOk result (λ items. items.items ≡ map (λ at. at.item) places.now) }
{
    let mut items = Vec::with_capacity(alloc, places.len())?;
    for at in places {
        items.push(at.item)?;
    }
    Ok(items)
}
