ghost use Rattle.std.specs.Prelude.{◌≡◌, IfOk};
ghost use Rattle.sd_work.specs.BigStep.{Reached};
ghost use Rattle.sd_graph.specs.TreeFold.{graph_tree};
ghost use Rattle.sd_graph.specs.Context.{place_at};
ghost use Rattle.sd_mem.specs.machine.ComesTo.{outcome_of};
ghost use Rattle.sd_scope.specs.scope.Standing.{context_of};
ghost use Rattle.sd_leaves.specs.leaves.Done.{outcome_at};

use sd_graph::{FaultKind, Sdfg};
use sd_list::NoMemory;
use sd_mem::End;
use sd_scope::{Base, Scope, place_of};
use std::alloc::Global;

/// How work in a line ends: with this fault, at the line's place, or with none.
pub fn end_of(
    alloc: Global,
    fault: Option<FaultKind>,
    graph: &Sdfg,
    base: &Base,
    scope: &Scope,
    line: u32,
) -> Result<End, NoMemory>
    ensures { IfOk result (λ end. (now : Reached) → outcome_of end now ≡ outcome_at (place_at (context_of (graph_tree graph.now) base.now scope.now) line) fault now) }
{
    match fault {
        None => Ok(End::Finished),
        Some(kind) => {
            let place = place_of(alloc, graph, base, scope, line)?;
            Ok(End::Fault(place, kind))
        }
    }
}
