ghost use Rattle.std.specs.Prelude.{◌≡◌};
ghost use Rattle.sd_graph.specs.TreeFold.{graph_tree, kind_tree, item_trees, state_trees};
ghost use Rattle.sd_left.specs.pool_free.Consuming.{kind_consumes, items_consume, states_consume, graph_consumes};

use sd_graph::{Item, ItemKind, Sdfg, State};

/// Whether a graph, or one nested in it, has a consume scope.
#[cycle(consumes)]
pub fn graph_consumes(graph: &Sdfg) -> bool
    ensures { result ≡ graph_consumes (graph_tree graph.now) }
{
    states_consume(&graph.states)
}

/// Whether one of the states has one.
#[cycle(consumes)]
fn states_consume(states: &[State]) -> bool
    ensures { result ≡ states_consume (state_trees states.now) }
{
    for state in states {
        if items_consume(&state.items) {
            return true;
        }
    }
    false
}

/// Whether one of the items has one.
#[cycle(consumes)]
fn items_consume(items: &[Item]) -> bool
    ensures { result ≡ items_consume (item_trees items.now) }
{
    for item in items {
        if kind_consumes(&item.kind) {
            return true;
        }
    }
    false
}

/// Whether an item is one, or has one in it.
#[cycle(consumes)]
fn kind_consumes(kind: &ItemKind) -> bool
    ensures { result ≡ kind_consumes (kind_tree kind.now) }
{
    match kind {
        ItemKind::Task { .. } => false,
        ItemKind::Map { body, .. } => items_consume(body),
        ItemKind::Consume { .. } => true,
        ItemKind::Nested { graph, .. } => graph_consumes(graph),
        ItemKind::Reduce { .. } => false,
        ItemKind::Copy { .. } => false,
    }
}
