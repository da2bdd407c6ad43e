//! A graph that workers run from state to state.
ghost use Rattle.std.specs.Prelude.{◌≡◌, ℕ, List, ◌<◌, ◌≤◌, ◌^◌, IfOk};
ghost use Rattle.sd_graph.specs.TreeFold.{graph_tree};
ghost use Rattle.sd_mem.specs.mem.Shaped.{Shaped};
ghost use Rattle.sd_part.specs.Whole.{IsOfWidths};
ghost use Rattle.sd_race.specs.race.Pairs.{IsGraphAccepted};
ghost use Rattle.sd_safe.specs.normal.NormalForm.{IsGraphNormal};
ghost use Rattle.sd_safe.specs.pieces.ItemPieces.{state_place, IsStateInPieces};
ghost use Rattle.sd_validity.specs.rules.Valid.{IsValid};
ghost use Rattle.sd_board.specs.Boards.{IsClosed};
ghost use Rattle.sd_board.specs.States.{state_assignment};
ghost use Rattle.sd_crew.specs.Ends.{IsCrewEnd};
ghost use Rattle.sd_crew.specs.Going.{GoesOn, Stands};

use crate::crew_end::CrewEnd;
use crate::stage::{Stage, run_stage};
use sd_board::Closed;
use sd_graph::Bound;
use sd_io::Gate;
use sd_list::NoMemory;
use sd_mem::Memory;
use sd_part::{Followed, follow};
use sd_safe::show_normal_forms;
use std::alloc::Global;
use std::sync::Wait;
use std::thread::Threads;

/// Where a run of a graph stands: at the begin of a state, where the variables have these values, with so many turns left.
#[derive(Drop)]
pub(crate) struct Stand {
    pub(crate) state: u32,
    pub(crate) values: Vec<i128>,
    pub(crate) memory: Memory,
    pub(crate) turns: u64,
}

/// How a run goes on behind a state.
#[derive(Drop)]
pub(crate) enum Onward {
    To(Stand),
    End(CrewEnd),
}

/// Goes on from what the board of a state left, which had so many turns.
fn leave(
    alloc: Global,
    bound: &Bound,
    state: u32,
    mut values: Vec<i128>,
    closed: Closed,
    turns: u64,
) -> Result<Onward, NoMemory>
    ensures { IfOk result (λ onward. (opening memory : Shaped) (whole : ℕ) (counts : ℕ → List ℕ)
        → IsStateInPieces (graph_tree bound.now.graph) state counts (state_place (graph_tree bound.now.graph) state values.items)
        → Stands (graph_tree bound.now.graph) opening whole state values.items memory turns
        → IsClosed (state_assignment (graph_tree bound.now.graph) state values.items counts memory turns) closed
        → GoesOn (graph_tree bound.now.graph) opening whole onward) }
{
    let Closed {
        mut memory,
        history: _,
        is_whole,
        turns: spent,
        stopped,
    } = closed;
    if stopped.is_some() {
        return Ok(Onward::End(CrewEnd::Stopped));
    }
    let Some(left) = turns.checked_sub(spent) else {
        return Ok(Onward::End(CrewEnd::Stopped));
    };
    if !is_whole {
        return Err(NoMemory);
    }
    match follow(alloc, bound, state, &mut values, &mut memory, left)? {
        Followed::To(state, paid) => Ok(Onward::To(Stand {
            state,
            values,
            memory,
            turns: left.saturating_sub(paid),
        })),
        Followed::End => Ok(Onward::End(CrewEnd::Done {
            memory,
            turns: left,
        })),
        Followed::Stopped(_) => Ok(Onward::End(CrewEnd::Stopped)),
    }
}

/// Does the items of the state at which a run stands, and leaves it.
fn advance<R: Threads + Wait + Sync, G: Gate + Sync + Send>(
    rt: &R,
    alloc: Global,
    bound: &Bound,
    stand: Stand,
    workers: u64,
    gate: &G,
) -> Result<Onward, NoMemory>
    requires valid { IsValid (graph_tree bound.now.graph) }
    requires normal { IsGraphNormal (graph_tree bound.now.graph) }
    requires accepted { IsGraphAccepted (graph_tree bound.now.graph) }
    requires widths { IsOfWidths stand.memory }
    requires turns { stand.turns ≤ 2 ^ 40 }
    requires some { 0 < workers }
    requires few { workers ≤ 64 }
    ensures { IfOk result (λ onward. (opening : Shaped) (whole : ℕ)
        → Stands (graph_tree bound.now.graph) opening whole stand.state stand.values.items stand.memory stand.turns
        → GoesOn (graph_tree bound.now.graph) opening whole onward) }
{
    let Stand {
        state,
        values,
        memory,
        turns,
    } = stand;
    let stage = Stage {
        bound,
        state,
        values: values.as_slice(),
        workers,
        turns,
    };
    let closed = run_stage(rt, alloc, &stage, memory, gate)?;
    leave(alloc, bound, state, values, closed, turns)
}

/// Runs a graph by so many workers over a copy of a memory, with so many turns. Before each piece a worker passes the gate, with the number of the
/// piece on its board.
///
/// The graph is valid and accepted by the race check; the elements and values of the memory are of their containers' widths, as those of an
/// opening memory are. Where the answer is `Done`, the graph's sequential run over this memory is done, with as many turns left and the same memory, but for the
/// order of values in streams. Where it is `Stopped`, the sequential run is not done with so many turns. So where it is done, the answer is `Done`, or want
/// of memory, as which a piece counts that a worker left.
pub fn run_crew<R: Threads + Wait + Sync, G: Gate + Sync + Send>(
    rt: &R,
    alloc: Global,
    bound: &Bound,
    memory: &Memory,
    turns: u64,
    workers: u64,
    gate: &G,
) -> Result<CrewEnd, NoMemory>
    requires valid { IsValid (graph_tree bound.now.graph) }
    requires accepted { IsGraphAccepted (graph_tree bound.now.graph) }
    requires widths { IsOfWidths memory.now }
    requires turns { turns ≤ 2 ^ 40 }
    requires some { 0 < workers }
    requires few { workers ≤ 64 }
    ensures { IfOk result (IsCrewEnd (graph_tree bound.now.graph) memory.now turns) }
{
    show_normal_forms(&bound.graph);
    let values = vec![in alloc; 0; bound.graph.variables.len()]?;
    let copy = memory.copy_of(alloc)?;
    let mut stand = Stand {
        state: 0,
        values,
        memory: copy,
        turns,
    };
    for _ in rt.forever() {
        match advance(rt, alloc, bound, stand, workers, gate)? {
            Onward::To(next) => stand = next,
            Onward::End(end) => return Ok(end),
        }
    }
    unreachable!()
}
