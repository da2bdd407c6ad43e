ghost use Rattle.std.specs.Prelude.{◌≡◌, map, IfOk};
ghost use Rattle.sd_graph.specs.TreeFold.{graph_tree, item_trees, named_container};
ghost use Rattle.sd_wire.specs.wiring.Listing.{nodes_of, edges_of, state_nodes, state_edges};

use crate::wiring::drawing::Drawing;
use crate::wiring::items::draw_items;
use crate::wiring::listing::list;
use crate::wiring::mentioned::own_of_state;
use indexmap::IndexMap;
use sd_graph::{Container, Item, Sdfg, Wired};
use sd_list::NoMemory;
use std::alloc::Global;

/// The nodes and edges of the items of a state of a graph with these containers.
pub fn wire_items(
    alloc: Global,
    containers: &IndexMap<String, Container>,
    items: &[Item],
) -> Result<Wired, NoMemory>
    ensures nodes { IfOk result (λ wired. wired.nodes.items ≡ nodes_of (map named_container containers.now.entries) (item_trees items.now)) }
    ensures edges { IfOk result (λ wired. wired.edges.items ≡ edges_of (map named_container containers.now.entries) (item_trees items.now)) }
{
    let own = own_of_state(alloc, containers)?;
    let mut drawing = Drawing::new(alloc);
    draw_items(alloc, items, containers, None, own.as_slice(), &mut drawing)?;
    let Drawing { nodes, edges, .. } = drawing;
    let mut edges = edges.into_vec();
    list(&mut edges)?;
    Ok(Wired {
        nodes: nodes.into_vec(),
        edges,
    })
}

/// The nodes and edges of a state of a graph. A state that is not there has none.
///
/// Nothing is asked of the graph: a container in an item that is not in force there has no edge.
pub fn wire(alloc: Global, graph: &Sdfg, state: u32) -> Result<Wired, NoMemory>
    ensures nodes { IfOk result (λ wired. wired.nodes.items ≡ state_nodes (graph_tree graph.now) state) }
    ensures edges { IfOk result (λ wired. wired.edges.items ≡ state_edges (graph_tree graph.now) state) }
{
    match graph.states.get(state as usize) {
        Some(found) => wire_items(alloc, &graph.containers, &found.items),
        None => wire_items(alloc, &graph.containers, &[]),
    }
}
