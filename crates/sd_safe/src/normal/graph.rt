//! A graph, with its states and items and the graphs nested in it.
ghost use Rattle.sd_graph.specs.TreeFold.{graph_tree, item_trees, kind_tree, state_trees};
ghost use Rattle.sd_safe.specs.normal.NormalForm.{IsKindNormal, AreItemsNormal, AreStatesNormal, IsGraphNormal};

use crate::normal::parts::{show_containers, show_exits, show_link, show_links, show_params};
use sd_graph::{Item, ItemKind, Sdfg, State};

/// Shows that the expressions of a graph, and of those nested in it, are in normal form. It looks at
/// each one once, changes nothing and takes no memory.
#[cycle(showing)]
pub fn show_normal_forms(graph: &Sdfg)
    ensures { IsGraphNormal (graph_tree graph.now) }
{
    show_containers(&graph.containers);
    show_states(&graph.states);
}

#[cycle(showing)]
fn show_states(states: &[State])
    ensures { AreStatesNormal (state_trees states.now) }
{
    for state in states {
        show_items(&state.items);
        show_exits(&state.exits);
    }
}

#[cycle(showing)]
fn show_items(items: &[Item])
    ensures { AreItemsNormal (item_trees items.now) }
{
    for item in items {
        show_kind(&item.kind);
    }
}

#[cycle(showing)]
fn show_kind(kind: &ItemKind)
    ensures { IsKindNormal (kind_tree kind.now) }
{
    match kind {
        ItemKind::Task { ins, outs, .. } => {
            show_links(ins);
            show_links(outs);
        }
        ItemKind::Map { params, body, .. } => {
            show_params(params);
            show_items(body);
        }
        ItemKind::Consume { body, .. } => show_items(body),
        ItemKind::Nested { graph, links } => {
            show_links(links);
            show_normal_forms(graph);
        }
        ItemKind::Reduce { from, to, .. } | ItemKind::Copy { from, to } => {
            show_link(from);
            show_link(to);
        }
    }
}
