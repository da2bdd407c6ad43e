ghost use Rattle.std.specs.Prelude.{◌≡◌, map, IfOk};
ghost use Rattle.sd_graph.specs.TreeFold.{graph_tree, exit_tree, guard_tree};
ghost use Rattle.sd_graph.specs.TaskletMeaning.{Inputs};
ghost use Rattle.sd_graph.specs.Unfold.{does_hold, guard_of};
ghost use Rattle.sd_tasklet.specs.tasklet.Kept.{told as told_effect};
ghost use Rattle.sd_scope.specs.scope.Standing.{context_of};
ghost use Rattle.sd_leaves.specs.leaves.Next.{IsNext, condition_of};

use crate::leaves::evaluation::{evaluated, inputs_of};
use crate::leaves::reading::values_of_links;
use sd_graph::{Exit, FaultKind, Guard, Place, Sdfg};
use sd_list::NoMemory;
use sd_mem::Machine;
use sd_scope::{Base, Scope, place_of};
use sd_tasklet::{Effect, holds};
use std::alloc::Global;

/// The way out of a state.
#[derive(Drop)]
pub enum Next {
    /// No exit may be taken.
    Nowhere,
    /// The exit of this number.
    By(usize),
    /// A condition came to a fault, at its own line's place.
    Fault(Place, FaultKind),
}

/// The first exit that may be taken; one without a condition always may.
pub fn next_exit(
    alloc: Global,
    exits: &[Exit],
    graph: &Sdfg,
    base: &Base,
    scope: &Scope,
    machine: &Machine,
) -> Result<Next, NoMemory>
    ensures { IfOk result (λ next. IsNext (context_of (graph_tree graph.now) base.now scope.now) (map exit_tree exits.now) machine.now.memories next) }
{
    for (number, exit) in exits.iter().enumerate() {
        let Some(guard) = &exit.when else {
            return Ok(Next::By(number));
        };
        match decided(alloc, guard, graph, base, scope, machine)? {
            Ok(true) => return Ok(Next::By(number)),
            Ok(false) => {}
            Err(kind) => {
                let place = place_of(alloc, graph, base, scope, guard.line)?;
                return Ok(Next::Fault(place, kind));
            }
        }
    }
    Ok(Next::Nowhere)
}

/// Whether a condition holds, or its fault.
fn decided(
    alloc: Global,
    guard: &Guard,
    graph: &Sdfg,
    base: &Base,
    scope: &Scope,
    machine: &Machine,
) -> Result<Result<bool, FaultKind>, NoMemory>
    ensures { IfOk result (λ held. held ≡ condition_of (guard_of (context_of (graph_tree graph.now) base.now scope.now) (guard_tree guard.now)) machine.now.memories) }
{
    let reads = guard.reads.as_slice();
    let Some(read) = values_of_links(alloc, reads, graph, base, scope, machine)? else {
        return Ok(Err(FaultKind::Subscript));
    };
    let inputs = inputs_of(alloc, &guard.code, reads, &[], scope, read)?;
    match evaluated(alloc, &guard.code, &inputs)? {
        Ok(effects) => Ok(Ok(last_holds(effects.list.as_slice()))),
        Err(kind) => Ok(Err(kind)),
    }
}

/// Whether the value that was assigned last is not 0; without one it is not.
fn last_holds(effects: &[Effect]) -> bool
    ensures { (inputs : Inputs) → result ≡ does_hold (map (told_effect inputs) effects.now) }
{
    let mut held = false;
    for effect in effects {
        held = holds(effect.value);
    }
    held
}
