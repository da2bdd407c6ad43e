ghost use Rattle.std.specs.Prelude.{◌≡◌, ℕ, List, IfOk, IsTrue};
ghost use Rattle.sd_work.specs.Run.{Left, Run};
ghost use Rattle.sd_work.specs.Step.{Done};
ghost use Rattle.sd_graph.specs.TreeFold.{graph_tree};
ghost use Rattle.sd_graph.specs.Unfold.{run_of};
ghost use Rattle.sd_race.specs.race.Pairs.{IsGraphAccepted};
ghost use Rattle.sd_validity.specs.rules.Valid.{IsValid};
ghost use Rattle.sd_seq.specs.RunEnd.{outcome_of};
ghost use Rattle.sd_report.specs.stepping.Step.{IsPicked, IsToldEnd, IsStep, steps_of};

use sd_core::{TracedRun, run_picked, run_traced};
use sd_graph::Bound;
use sd_list::NoMemory;
use sd_mem::Memory;
use sd_safe::show_normal_forms;
use sd_seq::{RunEnd, run_seq};
use std::alloc::Global;

/// Whether a run is done.
pub(crate) fn is_done(end: &RunEnd) -> bool
    ensures { IsTrue result → (left : Left) × (outcome_of end.now ≡ Done left) }
{
    match end {
        RunEnd::Done { .. } => true,
        RunEnd::Fault(..) | RunEnd::Spent => false,
    }
}

/// Runs a graph by picks. Its steps are kept where they are asked for.
pub(crate) fn picked(
    alloc: Global,
    bound: &Bound,
    memory: Memory,
    turns: u64,
    picks: &[u64],
    traces: bool,
) -> Result<TracedRun, NoMemory>
    ensures { IfOk result (λ ran. IsPicked (run_of (graph_tree bound.now.graph) memory.contents) turns picks.now traces (outcome_of ran.end) (steps_of ran)) }
{
    if traces {
        return run_traced(alloc, bound, memory, turns, picks);
    }
    let end = run_picked(alloc, bound, memory, turns, picks)?;
    Ok(TracedRun {
        end,
        trace: Vec::new(alloc),
    })
}

/// The end that is told of a run by picks from this memory: its own where it is done, and else that of the sequential run.
fn told_end(
    alloc: Global,
    bound: &Bound,
    opening: Memory,
    turns: u64,
    end: RunEnd,
) -> Result<RunEnd, NoMemory>
    requires valid { IsValid (graph_tree bound.now.graph) }
    requires accepted { IsGraphAccepted (graph_tree bound.now.graph) }
    ensures { (picks : List ℕ) → Run (run_of (graph_tree bound.now.graph) opening.contents) turns picks (outcome_of end)
        → IfOk result (λ told. IsToldEnd (run_of (graph_tree bound.now.graph) opening.contents) turns (outcome_of told)) }
{
    if is_done(&end) {
        show_normal_forms(&bound.graph);
        return Ok(end);
    }
    run_seq(alloc, bound, opening, turns)
}

/// Runs a valid, accepted graph over a memory by picks, with so many turns, and tells its end as that of the sequential run,
/// with its steps where they are asked for. The memory is copied first.
pub fn step(
    alloc: Global,
    bound: &Bound,
    memory: Memory,
    turns: u64,
    picks: &[u64],
    traces: bool,
) -> Result<TracedRun, NoMemory>
    requires valid { IsValid (graph_tree bound.now.graph) }
    requires accepted { IsGraphAccepted (graph_tree bound.now.graph) }
    ensures { IfOk result (λ told. IsStep (run_of (graph_tree bound.now.graph) memory.contents) turns picks.now traces (outcome_of told.end) (steps_of told)) }
{
    let opening = memory.copy_of(alloc)?;
    let TracedRun { end, trace } = picked(alloc, bound, memory, turns, picks, traces)?;
    let end = told_end(alloc, bound, opening, turns, end)?;
    Ok(TracedRun { end, trace })
}
