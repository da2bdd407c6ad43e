//! The accesses of items.
ghost use Rattle.std.specs.Prelude.{◌≡◌, ◌++◌, ◌∷◌, map, drop, IfOk, OnOk};
ghost use Rattle.sd_graph.specs.TreeFold.{item_trees, kind_tree, named_container};
ghost use Rattle.sd_prop.specs.propagation.Accesses as definition;
ghost use Rattle.sd_prop.specs.propagation.ItemNodes.{past, node_counts, nodes_behind};

use crate::collecting::access::Access;
use crate::collecting::link::{
    push_inputs, push_link, push_nested, push_outputs, push_outside, push_replaced,
};
use crate::collecting::node::{nodes_behind, own_node};
use indexmap::IndexMap;
use sd_graph::{Container, Item, ItemKind};
use sd_list::{NoMemory, Sequence};
use sd_wire::{UseMode, graph_uses, reduction_mode};
use std::alloc::Global;

/// Numbers with one before them.
pub(crate) fn with_first(alloc: Global, first: u32, numbers: &[u32]) -> Result<Vec<u32>, NoMemory>
    ensures { IfOk result (λ all. all.items ≡ first ∷ numbers.now) }
{
    let mut all = vec![in alloc; first]?;
    all.extend_from_slice(numbers)?;
    Ok(all)
}

/// Adds the accesses of an item, whose nodes are the first of these. Gives those behind them.
#[cycle(accesses)]
fn push_kind<'n>(
    alloc: Global,
    kind: &ItemKind,
    containers: &IndexMap<String, Container>,
    nodes: &'n [u32],
    found: &mut Vec<Access>,
) -> Result<&'n [u32], NoMemory>
    ensures accesses { OnOk result (found.new.items ≡ found.old.items ++ definition.kind_accesses (kind_tree kind.now) (map named_container containers.now.entries) nodes.now) }
    ensures rest { IfOk result (λ rest. rest.now ≡ past (kind_tree kind.now) nodes.now) }
{
    let node = own_node(nodes);
    let behind = nodes_behind(nodes);
    match kind {
        ItemKind::Task { ins, outs, .. } => {
            push_inputs(alloc, node, ins, found)?;
            push_outputs(alloc, containers, node, outs, found)?;
            Ok(behind)
        }
        ItemKind::Map {
            params,
            private,
            body,
            ..
        } => {
            let mut inner = Vec::new(alloc);
            let rest = push_body(alloc, private, body, containers, behind, &mut inner)?;
            push_replaced(alloc, params, inner.as_slice(), found)?;
            Ok(rest)
        }
        ItemKind::Consume {
            stream,
            element,
            private,
            body,
        } => {
            let taken = Access::new(node, *stream, UseMode::Take, Sequence::new(alloc));
            found.push(taken)?;
            let own = with_first(alloc, *element, private)?;
            push_body(alloc, own.as_slice(), body, containers, behind, found)
        }
        ItemKind::Nested { graph, links } => {
            let inner = graph_uses(alloc, graph)?;
            push_nested(alloc, node, inner.as_slice(), links, found)?;
            Ok(behind)
        }
        ItemKind::Reduce {
            resolution,
            identity,
            from,
            to,
            ..
        } => {
            push_link(alloc, node, UseMode::Read, from, found)?;
            let mode = reduction_mode(*resolution, *identity);
            push_link(alloc, node, mode, to, found)?;
            Ok(behind)
        }
        ItemKind::Copy { from, to } => {
            push_link(alloc, node, UseMode::Read, from, found)?;
            push_link(alloc, node, UseMode::Write, to, found)?;
            Ok(behind)
        }
    }
}

/// Adds the accesses of the body of a scope to other containers than the scope's own.
#[cycle(accesses)]
pub(crate) fn push_body<'n>(
    alloc: Global,
    own: &[u32],
    body: &[Item],
    containers: &IndexMap<String, Container>,
    nodes: &'n [u32],
    found: &mut Vec<Access>,
) -> Result<&'n [u32], NoMemory>
    ensures accesses { OnOk result (found.new.items ≡ found.old.items ++ definition.outside_accesses own.now (definition.item_accesses (item_trees body.now) (map named_container containers.now.entries) nodes.now)) }
    ensures rest { IfOk result (λ rest. rest.now ≡ drop (node_counts (item_trees body.now)) nodes.now) }
{
    let mut inner = Vec::new(alloc);
    let rest = push_items(alloc, body, containers, nodes, &mut inner)?;
    push_outside(alloc, own, inner.as_slice(), found)?;
    Ok(rest)
}

/// Adds the accesses of items one after another.
#[cycle(accesses)]
fn push_items<'n>(
    alloc: Global,
    items: &[Item],
    containers: &IndexMap<String, Container>,
    nodes: &'n [u32],
    found: &mut Vec<Access>,
) -> Result<&'n [u32], NoMemory>
    ensures accesses { OnOk result (found.new.items ≡ found.old.items ++ definition.item_accesses (item_trees items.now) (map named_container containers.now.entries) nodes.now) }
    ensures rest { IfOk result (λ rest. rest.now ≡ drop (node_counts (item_trees items.now)) nodes.now) }
{
    let mut left = nodes;
    for item in items {
        left = push_kind(alloc, &item.kind, containers, left, found)?;
    }
    Ok(left)
}
