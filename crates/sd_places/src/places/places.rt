//! The places of a graph, one after another.
ghost use Rattle.std.specs.Prelude.{◌≡◌, ◌++◌, ◌∷◌, [], map, IfOk, OnOk};
ghost use Rattle.sd_graph.specs.TreeFold.{graph_tree, item_tree, item_trees, kind_tree, state_tree, state_trees};
ghost use Rattle.sd_validity.specs.rules.Places as places;
ghost use Rattle.sd_places.specs.places.PlaceOf.{place_of, scopes_of};

use crate::places::place::{Place, Scopes};
use sd_graph::{Item, ItemKind, Sdfg, State};
use sd_list::NoMemory;
use std::alloc::Global;

/// The places of a whole graph.
pub fn all_places(alloc: Global, graph: &Sdfg) -> Result<Vec<Place<'_>>, NoMemory>
    ensures { IfOk result (λ all. map place_of all.items ≡ places.all_places (graph_tree graph.now)) }
{
    let mut all = Vec::new(alloc);
    push_graph(alloc, &mut all, graph, &[], 0)?;
    Ok(all)
}

/// Adds the places of a graph with its path, in so many graphs.
#[cycle(placing)]
fn push_graph<'a>(
    alloc: Global,
    all: &mut Vec<Place<'a>>,
    graph: &'a Sdfg,
    path: &[u32],
    depth: u64,
) -> Result<(), NoMemory>
    ensures { OnOk result (map place_of all.new.items ≡ map place_of all.old.items ++ places.places_of (graph_tree graph.now) path.now depth) }
{
    let place = Place::of_graph(alloc, graph, path, depth)?;
    all.push(place.copy_of(alloc)?)?;
    push_states(alloc, all, &place, &graph.states)
}

/// Adds those of the states of a graph.
#[cycle(placing)]
fn push_states<'a>(
    alloc: Global,
    all: &mut Vec<Place<'a>>,
    around: &Place<'a>,
    states: &'a [State],
) -> Result<(), NoMemory>
    ensures { OnOk result (map place_of all.new.items ≡ map place_of all.old.items ++ places.state_places (state_trees states.now) (place_of around.now) 0) }
{
    for (number, state) in states.iter().enumerate() {
        push_state(alloc, all, around, number, state)?;
    }
    Ok(())
}

/// Adds those of a state.
#[cycle(placing)]
fn push_state<'a>(
    alloc: Global,
    all: &mut Vec<Place<'a>>,
    around: &Place<'a>,
    number: usize,
    state: &'a State,
) -> Result<(), NoMemory>
    ensures { OnOk result (map place_of all.new.items ≡ map place_of all.old.items ++ places.places_at_state (place_of around.now) number (state_tree state.now).0 (state_tree state.now).1) }
{
    let number = u32::try_from(number).map_err(|_| NoMemory)?;
    let place = around.of_state(alloc, number, state)?;
    all.push(place.copy_of(alloc)?)?;
    push_items(alloc, all, &place, &Scopes::none(alloc), &state.items)
}

/// Adds those of the items of a list, in these scopes.
#[cycle(placing)]
fn push_items<'a>(
    alloc: Global,
    all: &mut Vec<Place<'a>>,
    around: &Place<'a>,
    scopes: &Scopes,
    items: &'a [Item],
) -> Result<(), NoMemory>
    ensures { OnOk result (map place_of all.new.items ≡ map place_of all.old.items ++ places.item_places (item_trees items.now) (place_of around.now) (scopes_of scopes.now) 0) }
{
    for (number, item) in items.iter().enumerate() {
        push_item(alloc, all, around, scopes, number, &item.kind)?;
    }
    Ok(())
}

/// Adds those of an item.
#[cycle(placing)]
fn push_item<'a>(
    alloc: Global,
    all: &mut Vec<Place<'a>>,
    around: &Place<'a>,
    scopes: &Scopes,
    number: usize,
    kind: &'a ItemKind,
) -> Result<(), NoMemory>
    ensures { OnOk result (map place_of all.new.items ≡ map place_of all.old.items ++ places.places_at_item (place_of around.now) (scopes_of scopes.now) number (kind_tree kind.now)) }
{
    let number = u32::try_from(number).map_err(|_| NoMemory)?;
    let place = around.of_item(alloc, scopes, number, kind)?;
    all.push(place.copy_of(alloc)?)?;
    push_inside(alloc, all, &place, kind)
}

/// Adds those of what is in an item.
#[cycle(placing)]
fn push_inside<'a>(
    alloc: Global,
    all: &mut Vec<Place<'a>>,
    place: &Place<'a>,
    kind: &'a ItemKind,
) -> Result<(), NoMemory>
    ensures { OnOk result (map place_of all.new.items ≡ map place_of all.old.items ++ places.places_in (kind_tree kind.now) (place_of place.now)) }
{
    match kind {
        ItemKind::Map {
            params,
            private,
            body,
            ..
        } => {
            let scopes = place.scopes.in_map(alloc, params, private)?;
            push_items(alloc, all, place, &scopes, body)
        }
        ItemKind::Consume {
            element,
            private,
            body,
            ..
        } => {
            let scopes = place.scopes.in_consume(alloc, *element, private)?;
            push_items(alloc, all, place, &scopes, body)
        }
        ItemKind::Nested { graph, .. } => {
            let depth = place.depth.checked_add(1).ok_or(NoMemory)?;
            push_graph(alloc, all, graph, &place.path, depth)
        }
        ItemKind::Task { .. } | ItemKind::Reduce { .. } | ItemKind::Copy { .. } => Ok(()),
    }
}
