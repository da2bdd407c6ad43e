//! The containers that a graph writes.
ghost use Rattle.std.specs.Prelude.{◌≡◌, ◌++◌, map, IfOk, OnOk};
ghost use Rattle.sd_graph.specs.TreeFold.{graph_tree, item_trees, kind_tree, state_trees};
ghost use Rattle.sd_validity.specs.rules.NestedLinks as nested;
ghost use Rattle.sd_validity.specs.rules.Parts.{container_of};

use sd_graph::{Item, ItemKind, Link, Sdfg, State};
use sd_list::NoMemory;
use sd_places::has_number;
use std::alloc::Global;

/// Adds the containers of links.
fn push_containers(links: &[Link], all: &mut Vec<u32>) -> Result<(), NoMemory>
    ensures { OnOk result (all.new.items ≡ all.old.items ++ map container_of links.now) }
{
    for link in links {
        all.push(link.memlet.container)?;
    }
    Ok(())
}

/// Adds those of the links whose parameters are written.
fn push_through(written: &[u32], links: &[Link], all: &mut Vec<u32>) -> Result<(), NoMemory>
    ensures { OnOk result (all.new.items ≡ all.old.items ++ nested.written_through written.now 0 links.now) }
{
    for (number, link) in links.iter().enumerate() {
        let number = u32::try_from(number).map_err(|_| NoMemory)?;
        if has_number(written, number) {
            all.push(link.memlet.container)?;
        }
    }
    Ok(())
}

/// Adds those that an item writes.
#[cycle(writing)]
fn push_kind(alloc: Global, kind: &ItemKind, all: &mut Vec<u32>) -> Result<(), NoMemory>
    ensures { OnOk result (all.new.items ≡ all.old.items ++ nested.written_by (kind_tree kind.now)) }
{
    match kind {
        ItemKind::Task { outs, .. } => push_containers(outs, all),
        ItemKind::Map { body, .. } | ItemKind::Consume { body, .. } => {
            push_items(alloc, body, all)
        }
        ItemKind::Nested { graph, links } => {
            let written = written_of(alloc, graph)?;
            push_through(written.as_slice(), links, all)
        }
        ItemKind::Reduce { to, .. } | ItemKind::Copy { to, .. } => {
            Ok(all.push(to.memlet.container)?)
        }
    }
}

#[cycle(writing)]
fn push_items(alloc: Global, items: &[Item], all: &mut Vec<u32>) -> Result<(), NoMemory>
    ensures { OnOk result (all.new.items ≡ all.old.items ++ nested.written_in (item_trees items.now)) }
{
    for item in items {
        push_kind(alloc, &item.kind, all)?;
    }
    Ok(())
}

#[cycle(writing)]
fn push_states(alloc: Global, states: &[State], all: &mut Vec<u32>) -> Result<(), NoMemory>
    ensures { OnOk result (all.new.items ≡ all.old.items ++ nested.written_in_states (state_trees states.now)) }
{
    for state in states {
        push_items(alloc, &state.items, all)?;
    }
    Ok(())
}

/// The containers that a graph writes, each as often as it stands there.
#[cycle(writing)]
pub(crate) fn written_of(alloc: Global, graph: &Sdfg) -> Result<Vec<u32>, NoMemory>
    ensures { IfOk result (λ written. written.items ≡ nested.written_of (graph_tree graph.now)) }
{
    let mut written = Vec::new(alloc);
    push_states(alloc, &graph.states, &mut written)?;
    Ok(written)
}
