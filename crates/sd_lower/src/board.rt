//! A board: the items of a state, with what workers have to know to run them side by side.
ghost use Rattle.std.specs.Prelude.{◌≡◌, length, map, string_bytes, IfOk};
ghost use Rattle.sd_graph.specs.LoopScope.{loops_in_force};
ghost use Rattle.sd_graph.specs.PlainTree.{StateTrees};
ghost use Rattle.sd_graph.specs.TreeFold.{item_trees, named_container};
ghost use Rattle.sd_order.specs.table.Told.{told};
ghost use Rattle.sd_prop.specs.propagation.ItemNodes as numbered;
ghost use Rattle.sd_lower.specs.Boards as definition;
ghost use Rattle.sd_wire.specs.loops.Spans as spans_of;

use crate::hulls::{Hull, copied_containers, copied_hulls, hulls_of_each};
use indexmap::IndexMap;
use sd_graph::{Container, Item, Node, NodeKind, Path};
use sd_list::{NoMemory, Sequence};
use sd_order::{Order, order_of};
use sd_wire::{LoopSpan, variables_in, wire_items};
use std::alloc::Global;

/// The items of a state that workers run side by side. A map whose points are in any order is cut into pieces, any other item is one piece.
#[derive(Drop)]
pub struct BoardWork {
    /// The path of the first item: its state and its node.
    pub at: Path,
    /// The items of the state, in order.
    pub items: Vec<Item>,
    /// Which of them are before which: no piece of an item may begin before all pieces of those before it are done.
    pub before: Order,
    /// For each item the containers that it touches in the order of first access, each with the hull of all accesses.
    pub hulls: Sequence<Sequence<Hull>>,
    /// The containers of the graph.
    pub containers: IndexMap<String, Container>,
    /// The names of the graph's variables.
    pub variables: Vec<String>,
    /// The loop variables that are in force in the state, from the outermost.
    pub loops: Sequence<u32>,
    /// How many workers there are at most.
    pub workers: u64,
}

/// The same order once more.
fn copied_order(alloc: Global, order: &Order) -> Result<Order, NoMemory>
    ensures { IfOk result (λ copy. told copy ≡ told order.now) }
{
    Ok(Order {
        count: order.count,
        table: order.table.as_slice().to_vec(alloc)?,
    })
}

/// The same items once more.
fn copied_items(alloc: Global, items: &[Item]) -> Result<Vec<Item>, NoMemory>
    ensures { IfOk result (λ copy. item_trees copy.items ≡ item_trees items.now) }
{
    let mut copy = Vec::with_capacity(alloc, items.len())?;
    for item in items {
        copy.push(item.copy_of(alloc)?)?;
    }
    Ok(copy)
}

/// The same names once more.
fn copied_names(alloc: Global, names: &[String]) -> Result<Vec<String>, NoMemory>
    ensures { IfOk result (λ copy. map string_bytes copy.items ≡ map string_bytes names.now) }
{
    let mut copy = Vec::with_capacity(alloc, names.len())?;
    for name in names {
        copy.push(name.as_str().to_string(alloc)?)?;
    }
    Ok(copy)
}

impl BoardWork {
    /// The same board once more.
    pub fn copy_of(&self, alloc: Global) -> Result<BoardWork, NoMemory>
        ensures { IfOk result (λ copy. definition.plain_board copy ≡ definition.plain_board self.now) }
    {
        Ok(BoardWork {
            at: self.at.copy_of(alloc)?,
            items: copied_items(alloc, &self.items)?,
            before: copied_order(alloc, &self.before)?,
            hulls: copied_hulls(alloc, self.hulls.as_slice())?,
            containers: copied_containers(alloc, &self.containers)?,
            variables: copied_names(alloc, &self.variables)?,
            loops: Sequence::from(self.loops.as_slice().to_vec(alloc)?),
            workers: self.workers,
        })
    }
}

/// Whether a node is an item's: neither an access nor an exit.
fn is_of_item(kind: NodeKind) -> bool
    ensures { result ≡ numbered.is_of_item kind }
{
    match kind {
        NodeKind::Access(_) | NodeKind::Exit(_) => false,
        NodeKind::Tasklet
        | NodeKind::MapEntry
        | NodeKind::ConsumeEntry
        | NodeKind::Nested
        | NodeKind::Reduce
        | NodeKind::Copy => true,
    }
}

/// The number of the first node that is an item's; 0 where there is none.
fn first_of_item(nodes: &[Node]) -> Result<u32, NoMemory>
    ensures { IfOk result (λ first. first ≡ numbered.own_node (numbered.of_items 0 nodes.now)) }
{
    let mut number = 0_u32;
    for node in nodes {
        if is_of_item(node.kind) {
            return Ok(number);
        }
        number = number.checked_add(1).ok_or(NoMemory)?;
    }
    Ok(0)
}

/// The path of the first of the items of a state.
fn first_path(
    alloc: Global,
    state: u32,
    containers: &IndexMap<String, Container>,
    items: &[Item],
) -> Result<Path, NoMemory>
    ensures { IfOk result (λ path. path.steps ≡ definition.first_path state (map named_container containers.now.entries) (item_trees items.now)) }
{
    let wired = wire_items(alloc, containers, items)?;
    let node = first_of_item(wired.nodes.as_slice())?;
    Ok(Path {
        steps: Sequence::from(vec![in alloc; state, node]?),
    })
}

/// The board of the items of a state, in a graph of these containers and variables whose loops have these spans.
pub(crate) fn board_of(
    alloc: Global,
    containers: &IndexMap<String, Container>,
    variables: &[String],
    spans: &[LoopSpan],
    workers: u64,
    state: u32,
    items: &[Item],
) -> Result<BoardWork, NoMemory>
    ensures { IfOk result (λ board. (states : StateTrees) → spans_of.variables_in spans.now state ≡ loops_in_force states (length (map string_bytes variables.now)) state
        → definition.plain_board board ≡ definition.board_of (map named_container containers.now.entries) (map string_bytes variables.now) states workers state (item_trees items.now)) }
{
    Ok(BoardWork {
        at: first_path(alloc, state, containers, items)?,
        items: copied_items(alloc, items)?,
        before: order_of(alloc, items, containers)?,
        hulls: hulls_of_each(alloc, containers, items)?,
        containers: copied_containers(alloc, containers)?,
        variables: copied_names(alloc, variables)?,
        loops: Sequence::from(variables_in(alloc, spans, state)?),
        workers,
    })
}
