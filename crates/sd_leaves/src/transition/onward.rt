ghost use Rattle.std.specs.Prelude.{◌≡◌, IfOk};
ghost use Rattle.sd_graph.specs.TreeFold.{graph_tree, state_tree, exit_tree};
ghost use Rattle.sd_graph.specs.TreeParts.{containers_of, states_of_graph, exits_at};
ghost use Rattle.sd_mem.specs.machine.Coming.{exits_of};
ghost use Rattle.sd_work.specs.Exit.{first_exit};
ghost use Rattle.sd_scope.specs.scope.Standing.{opening_reach};
ghost use Rattle.sd_leaves.specs.transition.Onward.{IsOnward, IsBehind};

use crate::leaves::{Next, next_exit};
use sd_graph::{Exit, FaultKind, Place, Sdfg, State};
use sd_list::NoMemory;
use sd_mem::Machine;
use sd_scope::{Base, Scope, values_behind};
use std::alloc::Global;

/// A state that a run goes on with, the values of the variables there, and whether the way to it wants a turn.
#[derive(Drop)]
pub struct Entry {
    pub state: u32,
    pub values: Vec<i128>,
    pub marked: bool,
}

/// Where a run goes on.
#[derive(Drop)]
pub enum Onward {
    /// Nowhere: no exit may be taken.
    Nowhere,
    State(Entry),
    /// A condition came to a fault.
    Fault(Place, FaultKind),
}

/// Where a run of a graph goes on from a state in which the variables have these values, inside the run's memory.
pub fn go_on(
    alloc: Global,
    state: u32,
    values: &[i128],
    graph: &Sdfg,
    base: &Base,
    machine: &Machine,
) -> Result<Onward, NoMemory>
    ensures { IfOk result (IsOnward (first_exit (exits_of (graph_tree graph.now) (opening_reach (containers_of (graph_tree graph.now)) base.now) base.now.around state values.now) machine.now.memories)) }
{
    let states = graph.states.as_slice();
    if state as usize >= states.len() {
        return Ok(Onward::Nowhere);
    }
    let here = &states[state as usize];
    go_on_from(alloc, here, state, values, graph, base, machine)
}

/// The same from this state, which has this number.
fn go_on_from(
    alloc: Global,
    here: &State,
    state: u32,
    values: &[i128],
    graph: &Sdfg,
    base: &Base,
    machine: &Machine,
) -> Result<Onward, NoMemory>
    requires here { exits_at (states_of_graph (graph_tree graph.now)) state ≡ (state_tree here.now).1 }
    ensures { IfOk result (IsOnward (first_exit (exits_of (graph_tree graph.now) (opening_reach (containers_of (graph_tree graph.now)) base.now) base.now.around state values.now) machine.now.memories)) }
{
    let scope = Scope::at_state(alloc, state, values)?;
    let exits = here.exits.as_slice();
    match next_exit(alloc, exits, graph, base, &scope, machine)? {
        Next::Nowhere => Ok(Onward::Nowhere),
        Next::Fault(place, kind) => Ok(Onward::Fault(place, kind)),
        Next::By(number) => {
            let entry = entry_by(alloc, &exits[number], values)?;
            Ok(Onward::State(entry))
        }
    }
}

/// The state behind an exit, where the variables have these values before it.
fn entry_by(alloc: Global, exit: &Exit, values: &[i128]) -> Result<Entry, NoMemory>
    ensures { IfOk result (IsBehind (exit_tree exit.now) values.now) }
{
    let behind = values_behind(alloc, exit, values)?;
    Ok(Entry {
        state: exit.to,
        values: behind,
        marked: exit.back,
    })
}
