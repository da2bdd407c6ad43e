ghost use Rattle.std.specs.Prelude.{IfOk};
ghost use Rattle.sd_work.specs.Run.{Sequential};
ghost use Rattle.sd_graph.specs.TreeFold.{graph_tree};
ghost use Rattle.sd_graph.specs.Unfold.{run_of};
ghost use Rattle.sd_graph.specs.Upwards.{LeadsUpwards};
ghost use Rattle.sd_seq.specs.RunEnd.{outcome_of};

use crate::run::run_graph;
use crate::run_end::RunEnd;
use sd_graph::Bound;
use sd_list::NoMemory;
use sd_mem::{End, Machine, Memory};
use sd_scope::Base;
use std::alloc::Global;

/// Runs a graph over a memory, with so many turns.
pub fn run_seq(alloc: Global, bound: &Bound, memory: Memory, turns: u64) -> Result<RunEnd, NoMemory>
    requires upwards { LeadsUpwards (graph_tree bound.now.graph) }
    ensures { IfOk result (λ end. Sequential (run_of (graph_tree bound.now.graph) memory.contents) turns (outcome_of end)) }
{
    let base = Base::outermost(alloc);
    let mut machine = Machine::new(alloc, memory, turns)?;
    match run_graph(alloc, &bound.graph, &base, &mut machine)? {
        End::Finished => {
            let left = machine.turns();
            Ok(RunEnd::Done {
                memory: machine.into_memory(),
                turns: left,
            })
        }
        End::Fault(place, kind) => Ok(RunEnd::Fault(place, kind)),
        End::OutOfTurns => Ok(RunEnd::Spent),
    }
}
