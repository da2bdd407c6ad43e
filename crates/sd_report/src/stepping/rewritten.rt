//! Runs of graphs that were made of others, told as the sequential runs of those.
ghost use Rattle.std.specs.Prelude.{◌≡◌, ℕ, List, IfOk};
ghost use Rattle.sd_work.specs.Run.{Run, Sequential};
ghost use Rattle.sd_graph.specs.TreeFold.{graph_tree};
ghost use Rattle.sd_graph.specs.Unfold.{run_of};
ghost use Rattle.sd_graph.specs.Upwards.{LeadsUpwards};
ghost use Rattle.sd_alike.specs.alike.Rewritten.{RunsSame};
ghost use Rattle.sd_exchange.specs.maps.RunsAlike.{RunsAlike};
ghost use Rattle.sd_race.specs.race.Pairs.{IsGraphAccepted};
ghost use Rattle.sd_validity.specs.rules.Valid.{IsValid};
ghost use Rattle.sd_seq.specs.RunEnd.{outcome_of};
ghost use Rattle.sd_report.specs.stepping.Step.{IsToldEnd, IsRewrittenStep, steps_of};

use crate::stepping::telling::{is_done, picked};
use sd_core::TracedRun;
use sd_graph::Bound;
use sd_list::NoMemory;
use sd_mem::Memory;
use sd_safe::show_normal_forms;
use sd_seq::{RunEnd, run_seq};
use std::alloc::Global;

/// Runs a graph that was made of a source's over a memory, with so many turns, and tells the end of the sequential run of the
/// source's graph, but for the order of values in streams: its own where the run is done, and else the source's graph is run too. Of a
/// graph that runs the same the end is exactly that one. The memory is copied first.
pub fn run_rewritten(
    alloc: Global,
    source: &Bound,
    rewritten: &Bound,
    memory: Memory,
    turns: u64,
) -> Result<RunEnd, NoMemory>
    requires upwards { LeadsUpwards (graph_tree source.now.graph) }
    requires rewritten_upwards { LeadsUpwards (graph_tree rewritten.now.graph) }
    requires alike { RunsAlike (graph_tree rewritten.now.graph) (graph_tree source.now.graph) }
    ensures told { IfOk result (λ end. IsToldEnd (run_of (graph_tree source.now.graph) memory.contents) turns (outcome_of end)) }
    ensures same { RunsSame (graph_tree source.now.graph) (graph_tree rewritten.now.graph)
        → IfOk result (λ end. Sequential (run_of (graph_tree source.now.graph) memory.contents) turns (outcome_of end)) }
{
    let opening = memory.copy_of(alloc)?;
    let end = run_seq(alloc, rewritten, memory, turns)?;
    if is_done(&end) {
        return Ok(end);
    }
    run_seq(alloc, source, opening, turns)
}

/// The end that is told of a run by picks of a graph that was made of a source's: its own where it is done, and else that of the
/// sequential run of the source's graph.
fn source_end(
    alloc: Global,
    source: &Bound,
    rewritten: &Bound,
    opening: Memory,
    turns: u64,
    end: RunEnd,
) -> Result<RunEnd, NoMemory>
    requires upwards { LeadsUpwards (graph_tree source.now.graph) }
    requires valid { IsValid (graph_tree rewritten.now.graph) }
    requires accepted { IsGraphAccepted (graph_tree rewritten.now.graph) }
    requires alike { RunsAlike (graph_tree rewritten.now.graph) (graph_tree source.now.graph) }
    ensures { (picks : List ℕ) → Run (run_of (graph_tree rewritten.now.graph) opening.contents) turns picks (outcome_of end)
        → IfOk result (λ told. IsToldEnd (run_of (graph_tree source.now.graph) opening.contents) turns (outcome_of told)) }
{
    if is_done(&end) {
        show_normal_forms(&rewritten.graph);
        return Ok(end);
    }
    run_seq(alloc, source, opening, turns)
}

/// Runs a valid, accepted graph that was made of a source's by picks, with so many turns, and tells the end of the sequential run of the
/// source's graph, with the steps of the run by picks where they are asked for. The memory is copied first.
pub fn step_rewritten(
    alloc: Global,
    source: &Bound,
    rewritten: &Bound,
    memory: Memory,
    turns: u64,
    picks: &[u64],
    traces: bool,
) -> Result<TracedRun, NoMemory>
    requires upwards { LeadsUpwards (graph_tree source.now.graph) }
    requires valid { IsValid (graph_tree rewritten.now.graph) }
    requires accepted { IsGraphAccepted (graph_tree rewritten.now.graph) }
    requires alike { RunsAlike (graph_tree rewritten.now.graph) (graph_tree source.now.graph) }
    ensures { IfOk result (λ told.
        IsRewrittenStep (run_of (graph_tree source.now.graph) memory.contents) (run_of (graph_tree rewritten.now.graph) memory.contents)
        turns picks.now traces (outcome_of told.end) (steps_of told)) }
{
    let opening = memory.copy_of(alloc)?;
    let TracedRun { end, trace } = picked(alloc, rewritten, memory, turns, picks, traces)?;
    let end = source_end(alloc, source, rewritten, opening, turns, end)?;
    Ok(TracedRun { end, trace })
}
