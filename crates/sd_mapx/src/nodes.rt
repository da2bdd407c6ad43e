//! The nodes of a state's items.
ghost use Rattle.std.specs.Prelude.{◌≡◌, drop, map, IfOk};
ghost use Rattle.sd_graph.specs.TreeFold.{item_trees, kind_tree, named_container};
ghost use Rattle.sd_prop.specs.propagation.ItemNodes as definition;

use indexmap::IndexMap;
use sd_graph::{Container, Item, ItemKind, Node, NodeKind};
use sd_list::NoMemory;
use sd_wire::wire_items;
use std::alloc::Global;

/// Whether a node is an item's: neither an access nor an exit.
fn is_of_item(kind: NodeKind) -> bool
    ensures { result ≡ definition.is_of_item kind }
{
    match kind {
        NodeKind::Access(_) | NodeKind::Exit(_) => false,
        NodeKind::Tasklet
        | NodeKind::MapEntry
        | NodeKind::ConsumeEntry
        | NodeKind::Nested
        | NodeKind::Reduce
        | NodeKind::Copy => true,
    }
}

/// The numbers of the nodes that are of items.
fn of_items(alloc: Global, nodes: &[Node]) -> Result<Vec<u32>, NoMemory>
    ensures { IfOk result (λ found. found.items ≡ definition.of_items 0 nodes.now) }
{
    let mut found = Vec::new(alloc);
    let mut number = 0_u32;
    for node in nodes {
        if is_of_item(node.kind) {
            found.push(number)?;
        }
        number = number.checked_add(1).ok_or(NoMemory)?;
    }
    Ok(found)
}

/// The nodes of the items of a state.
pub(crate) fn item_nodes(
    alloc: Global,
    containers: &IndexMap<String, Container>,
    items: &[Item],
) -> Result<Vec<u32>, NoMemory>
    ensures { IfOk result (λ found. found.items ≡ definition.item_nodes (map named_container containers.now.entries) (item_trees items.now)) }
{
    let wired = wire_items(alloc, containers, items)?;
    of_items(alloc, wired.nodes.as_slice())
}

/// The first of these nodes, which is the item's own; 0 where there is none.
pub(crate) fn own_node(nodes: &[u32]) -> u32
    ensures { result ≡ definition.own_node nodes.now }
{
    match nodes.first() {
        Some(node) => *node,
        None => 0,
    }
}

/// The others.
pub(crate) fn nodes_behind(nodes: &[u32]) -> &[u32]
    ensures { result.now ≡ definition.nodes_behind nodes.now }
{
    match nodes.split_first() {
        Some((_, behind)) => behind,
        None => nodes,
    }
}

/// Those that are left without the nodes of an item.
#[cycle(past)]
pub(crate) fn past<'n>(kind: &ItemKind, nodes: &'n [u32]) -> &'n [u32]
    ensures { result.now ≡ definition.past (kind_tree kind.now) nodes.now }
{
    match kind {
        ItemKind::Map { body, .. } | ItemKind::Consume { body, .. } => {
            past_items(body, nodes_behind(nodes))
        }
        ItemKind::Task { .. }
        | ItemKind::Nested { .. }
        | ItemKind::Reduce { .. }
        | ItemKind::Copy { .. } => nodes_behind(nodes),
    }
}

/// Those that are left without the nodes of items.
#[cycle(past)]
fn past_items<'n>(items: &[Item], nodes: &'n [u32]) -> &'n [u32]
    ensures { result.now ≡ drop (definition.node_counts (item_trees items.now)) nodes.now }
{
    let mut left = nodes;
    for item in items {
        left = past(&item.kind, left);
    }
    left
}
