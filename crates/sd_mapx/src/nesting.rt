//! Whether a place leads on into a nested graph.
ghost use Rattle.std.specs.Prelude.{◌≡◌};
ghost use Rattle.sd_graph.specs.TreeFold.{item_trees, kind_tree, state_trees};
ghost use Rattle.sd_alike.specs.alike.Places as places;

use sd_graph::{Item, ItemKind, State};

/// Whether it does so from an item.
#[cycle(nesting)]
fn kind_nests(kind: &ItemKind, place: &[u32]) -> bool
    ensures { result ≡ places.kind_nests (kind_tree kind.now) place.now }
{
    match kind {
        ItemKind::Map { body, .. } | ItemKind::Consume { body, .. } => items_nest(body, place),
        ItemKind::Nested { .. } => true,
        ItemKind::Task { .. } | ItemKind::Reduce { .. } | ItemKind::Copy { .. } => false,
    }
}

/// Whether it does so from one of these items.
#[cycle(nesting)]
fn items_nest(items: &[Item], place: &[u32]) -> bool
    ensures { result ≡ places.items_nest (item_trees items.now) place.now }
{
    let Some((number, rest)) = place.split_first() else {
        return false;
    };
    let Some(item) = items.get(*number as usize) else {
        return false;
    };
    match rest.split_first() {
        None => false,
        Some(_) => kind_nests(&item.kind, rest),
    }
}

/// Whether it does so from one of these states.
pub(crate) fn states_nest(states: &[State], place: &[u32]) -> bool
    ensures { result ≡ places.states_nest (state_trees states.now) place.now }
{
    let Some((number, rest)) = place.split_first() else {
        return false;
    };
    let Some(state) = states.get(*number as usize) else {
        return false;
    };
    items_nest(&state.items, rest)
}
