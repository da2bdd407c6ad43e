//! Runs by workers of graphs that were made of others, told as the sequential runs of those.
ghost use Rattle.std.specs.Prelude.{◌<◌, ◌≤◌, ◌^◌, IfOk};
ghost use Rattle.sd_graph.specs.TreeFold.{graph_tree};
ghost use Rattle.sd_graph.specs.Unfold.{run_of};
ghost use Rattle.sd_graph.specs.Upwards.{LeadsUpwards};
ghost use Rattle.sd_exchange.specs.maps.RunsAlike.{RunsAlike};
ghost use Rattle.sd_part.specs.Whole.{IsOfWidths};
ghost use Rattle.sd_race.specs.race.Pairs.{IsGraphAccepted};
ghost use Rattle.sd_validity.specs.rules.Valid.{IsValid};
ghost use Rattle.sd_seq.specs.RunEnd.{outcome_of};
ghost use Rattle.sd_report.specs.stepping.Step.{IsToldEnd};

use sd_crew::{CrewEnd, run_crew};
use sd_graph::Bound;
use sd_io::Gate;
use sd_list::NoMemory;
use sd_mem::Memory;
use sd_seq::{RunEnd, run_seq};
use std::alloc::Global;
use std::sync::Wait;
use std::thread::Threads;

/// How many turns a run may spend, and how many workers do it.
#[derive(Clone, Copy)]
pub struct Limits {
    pub turns: u64,
    pub workers: u64,
}

/// Runs a valid, accepted graph that was made of a source's by workers over a copy of a memory, and tells the end of the sequential run of the
/// source's graph, but for the order of values in streams. Where the workers are not done, the source's graph is run over the memory itself, which
/// is told then: so it is too where they want memory.
pub fn run_by_workers<R: Threads + Wait + Sync, G: Gate + Sync + Send>(
    rt: &R,
    alloc: Global,
    source: &Bound,
    rewritten: &Bound,
    memory: Memory,
    limits: Limits,
    gate: &G,
) -> Result<RunEnd, NoMemory>
    requires upwards { LeadsUpwards (graph_tree source.now.graph) }
    requires valid { IsValid (graph_tree rewritten.now.graph) }
    requires accepted { IsGraphAccepted (graph_tree rewritten.now.graph) }
    requires alike { RunsAlike (graph_tree rewritten.now.graph) (graph_tree source.now.graph) }
    requires widths { IsOfWidths memory }
    requires turns { limits.turns ≤ 2 ^ 40 }
    requires some { 0 < limits.workers }
    requires few { limits.workers ≤ 64 }
    ensures { IfOk result (λ end. IsToldEnd (run_of (graph_tree source.now.graph) memory.contents) limits.turns (outcome_of end)) }
{
    let Limits { turns, workers } = limits;
    match run_crew(rt, alloc, rewritten, &memory, turns, workers, gate) {
        Ok(CrewEnd::Done { memory, turns }) => Ok(RunEnd::Done { memory, turns }),
        Ok(CrewEnd::Stopped) | Err(NoMemory) => run_seq(alloc, source, memory, turns),
    }
}
