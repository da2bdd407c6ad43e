//! The plan of a graph.
ghost use Rattle.std.specs.Prelude.{◌≡◌, ℕ, map, length, string_bytes, IfOk};
ghost use Rattle.sd_graph.specs.LoopScope.{loops_in_force};
ghost use Rattle.sd_graph.specs.PlainTree.{StateTrees};
ghost use Rattle.sd_graph.specs.TreeFold.{graph_tree, item_trees, named_container, state_trees};
ghost use Rattle.sd_lower.specs.Boards as definition;
ghost use Rattle.sd_lower.specs.Kinds.{all_kinds};
ghost use Rattle.sd_wire.specs.loops.Spans as spans_of;

use crate::board::{BoardWork, board_of};
use crate::kinds::{MapContainer, all_kinds};
use indexmap::IndexMap;
use sd_graph::{Bound, Container, Item, Sdfg, State};
use sd_list::NoMemory;
use sd_wire::{LoopSpan, loop_spans};
use std::alloc::Global;

/// What workers do of a graph side by side.
#[derive(Drop)]
pub struct Plan {
    /// A board of the items of each state of the graph itself that has an item, in the order of states.
    pub boards: Vec<BoardWork>,
    /// The containers of each map that is cut into pieces, by states and nodes, each map's in the order of first access.
    pub kinds: Vec<MapContainer>,
}

/// The board of the items of a state, if it has some.
fn boards_at(
    alloc: Global,
    containers: &IndexMap<String, Container>,
    variables: &[String],
    spans: &[LoopSpan],
    workers: u64,
    state: u32,
    items: &[Item],
) -> Result<Vec<BoardWork>, NoMemory>
    ensures { IfOk result (λ boards. (states : StateTrees) → spans_of.variables_in spans.now state ≡ loops_in_force states (length (map string_bytes variables.now)) state
        → map definition.plain_board boards.items ≡ definition.boards_at (map named_container containers.now.entries) (map string_bytes variables.now) states workers state (item_trees items.now)) }
{
    if items.is_empty() {
        return Ok(Vec::new(alloc));
    }
    let board = board_of(alloc, containers, variables, spans, workers, state, items)?;
    let mut boards = Vec::new(alloc);
    boards.push(board)?;
    Ok(boards)
}

/// The boards of states, in a graph of these containers and variables whose loops have these spans.
fn boards_of(
    alloc: Global,
    containers: &IndexMap<String, Container>,
    variables: &[String],
    spans: &[LoopSpan],
    workers: u64,
    states: &[State],
) -> Result<Vec<BoardWork>, NoMemory>
    requires spans { (state : ℕ) → spans_of.variables_in spans.now state ≡ loops_in_force (state_trees states.now) (length (map string_bytes variables.now)) state }
    ensures { IfOk result (λ boards. map definition.plain_board boards.items
        ≡ definition.boards_from (map named_container containers.now.entries) (map string_bytes variables.now) (state_trees states.now) workers 0 (state_trees states.now)) }
{
    let mut boards = Vec::new(alloc);
    let mut number = 0_u32;
    for state in states {
        let items = state.items.as_slice();
        let mut more = boards_at(alloc, containers, variables, spans, workers, number, items)?;
        boards.append(&mut more)?;
        number = number.checked_add(1).ok_or(NoMemory)?;
    }
    Ok(boards)
}

/// How many names there are.
fn count_of(names: &[String]) -> Result<u32, NoMemory>
    ensures { IfOk result (λ count. count ≡ length (map string_bytes names.now)) }
{
    u32::try_from(names.len()).map_err(|_| NoMemory)
}

/// The boards of a graph.
fn all_boards(alloc: Global, graph: &Sdfg, workers: u64) -> Result<Vec<BoardWork>, NoMemory>
    ensures { IfOk result (λ boards. map definition.plain_board boards.items ≡ definition.boards_of (graph_tree graph.now) workers) }
{
    let variables = count_of(&graph.variables)?;
    let spans = loop_spans(alloc, &graph.states, variables)?;
    boards_of(
        alloc,
        &graph.containers,
        &graph.variables,
        spans.as_slice(),
        workers,
        &graph.states,
    )
}

/// The plan of a graph for so many workers.
pub fn plan_of(alloc: Global, bound: &Bound, workers: u64) -> Result<Plan, NoMemory>
    ensures boards { IfOk result (λ plan. map definition.plain_board plan.boards.items ≡ definition.boards_of (graph_tree bound.now.graph) workers) }
    ensures kinds { IfOk result (λ plan. plan.kinds.items ≡ all_kinds (graph_tree bound.now.graph)) }
{
    Ok(Plan {
        boards: all_boards(alloc, &bound.graph, workers)?,
        kinds: all_kinds(alloc, bound)?,
    })
}
