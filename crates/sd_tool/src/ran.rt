//! Runs that have ended.
ghost use Rattle.std.specs.Prelude.{◌≡◌, ◌<◌, ◌≤◌, ◌^◌, ℕ, List, [], IfOk};
ghost use Rattle.sd_graph.specs.TreeFold.{graph_tree};
ghost use Rattle.sd_graph.specs.Unfold.{run_of};
ghost use Rattle.sd_part.specs.Whole.{IsOfWidths};
ghost use Rattle.sd_race.specs.race.Pairs.{IsGraphAccepted};
ghost use Rattle.sd_seq.specs.RunEnd.{outcome_of};
ghost use Rattle.sd_report.specs.stepping.Step.{IsToldEnd, IsRewrittenStep, steps_of};
ghost use Rattle.sd_words.specs.Command.{step_of};
ghost use Rattle.sd_tool.specs.Answers.{TellsRun, TellsStep};
ghost use Rattle.sd_tool.specs.Report.{Says, answer_of_ran};
ghost use Rattle.sd_tool.specs.Workspace.{work_of, made_of, graph_of, RunsFor};

use crate::steering::Steered;
use crate::workspace::Workspace;
use sd_core::TracedRun;
use sd_graph::Bound;
use sd_io::Gate;
use sd_list::NoMemory;
use sd_mem::Memory;
use sd_report::{Limits, run_by_workers, run_rewritten, step, step_rewritten};
use sd_seq::{RunEnd, run_seq};
use sd_words::{Run, Step};
use std::alloc::Global;
use std::sync::Wait;
use std::thread::Threads;

/// A run that has ended: the source's graph, the turns that it might spend, the steps that are told of it, and its end.
#[derive(Drop)]
pub(crate) struct Ran {
    pub(crate) bound: Bound,
    pub(crate) turns: u64,
    pub(crate) told: TracedRun,
}

/// The end of the source's sequential run. Where a chain made another graph, that one is run in its place, and where there are two
/// workers or more, they run it.
fn end_of<R: Threads + Wait + Sync, G: Gate + Sync + Send>(
    rt: &R,
    alloc: Global,
    source: &Bound,
    other: &Option<Bound>,
    memory: Memory,
    asked: Run,
    gate: &G,
) -> Result<RunEnd, NoMemory>
    requires runs { RunsFor (graph_tree source.now.graph) (made_of source.now other.now) }
    requires accepted { IsGraphAccepted (made_of source.now other.now) }
    requires widths { IsOfWidths memory }
    requires turns { asked.turns ≤ 2 ^ 40 }
    requires some { 0 < asked.workers }
    requires few { asked.workers ≤ 64 }
    ensures { IfOk result (λ end. IsToldEnd (run_of (graph_tree source.now.graph) memory.contents) asked.turns (outcome_of end)) }
{
    let Run { turns, workers } = asked;
    match other {
        None if workers == 1 => run_seq(alloc, source, memory, turns),
        None => {
            let limits = Limits { turns, workers };
            run_by_workers(rt, alloc, source, source, memory, limits, gate)
        }
        Some(rewritten) if workers == 1 => run_rewritten(alloc, source, rewritten, memory, turns),
        Some(rewritten) => {
            let limits = Limits { turns, workers };
            run_by_workers(rt, alloc, source, rewritten, memory, limits, gate)
        }
    }
}

/// Runs the work, and tells none of its steps.
pub(crate) fn run<R: Threads + Wait + Sync, G: Gate + Sync + Send>(
    rt: &R,
    alloc: Global,
    kept: Steered,
    asked: Run,
    gate: &G,
) -> Result<Ran, NoMemory>
    requires runs { RunsFor (work_of kept.work).tree (graph_of kept) }
    requires accepted { IsGraphAccepted (graph_of kept) }
    requires widths { IsOfWidths kept.work.memory }
    requires turns { asked.turns ≤ 2 ^ 40 }
    requires some { 0 < asked.workers }
    requires few { asked.workers ≤ 64 }
    ensures { IfOk result (λ ran. Says (TellsRun (work_of kept.work) asked.turns []) (answer_of_ran ran)) }
{
    let Steered { work, other, .. } = kept;
    let Workspace { bound, memory } = work;
    let end = end_of(rt, alloc, &bound, &other, memory, asked, gate)?;
    let told = TracedRun {
        end,
        trace: Vec::new(alloc),
    };
    Ok(Ran {
        bound,
        turns: asked.turns,
        told,
    })
}

/// The steps of a run by picks, of the graph that a chain made or of the source's own, and the end of the source's sequential run.
fn steps_and_end(
    alloc: Global,
    source: &Bound,
    other: &Option<Bound>,
    memory: Memory,
    asked: Step<'_>,
    picks: &[u64],
) -> Result<TracedRun, NoMemory>
    requires runs { RunsFor (graph_tree source.now.graph) (made_of source.now other.now) }
    requires accepted { IsGraphAccepted (made_of source.now other.now) }
    ensures { IfOk result (λ told.
        IsRewrittenStep (run_of (graph_tree source.now.graph) memory.contents) (run_of (made_of source.now other.now) memory.contents)
        asked.entry.turns picks.now asked.entry.traces (outcome_of told.end) (steps_of told)) }
{
    let Step { turns, traces, .. } = asked;
    match other {
        None => step(alloc, source, memory, turns, picks, traces),
        Some(rewritten) => step_rewritten(alloc, source, rewritten, memory, turns, picks, traces),
    }
}

/// Runs the work by picks. Its end is told as that of the source's sequential run.
pub(crate) fn run_by(alloc: Global, kept: Steered, asked: Step<'_>) -> Result<Ran, NoMemory>
    requires runs { RunsFor (work_of kept.work).tree (graph_of kept) }
    requires accepted { IsGraphAccepted (graph_of kept) }
    ensures { IfOk result (λ ran. Says (TellsStep (work_of kept.work) (graph_of kept) kept.picks.items (step_of asked.entry)) (answer_of_ran ran)) }
{
    let Steered { work, other, picks } = kept;
    let Workspace { bound, memory } = work;
    let told = steps_and_end(alloc, &bound, &other, memory, asked, picks.as_slice())?;
    Ok(Ran {
        bound,
        turns: asked.turns,
        told,
    })
}
