ghost use Rattle.std.specs.Prelude.{◌≡◌, ◌<◌, zero, map, length, slice_index_or, IfOk};
ghost use Rattle.sd_work.specs.Step.{Done, next_moves, step};
ghost use Rattle.sd_work.specs.Run.{Run};
ghost use Rattle.sd_graph.specs.TreeFold.{graph_tree};
ghost use Rattle.sd_graph.specs.Unfold.{run_of};
ghost use Rattle.sd_race.specs.race.Pairs.{IsGraphAccepted};
ghost use Rattle.sd_validity.specs.rules.Valid.{IsValid};
ghost use Rattle.sd_seq.specs.RunEnd.{outcome_of};
ghost use Rattle.sd_core.specs.Interleaving.{EndsAsSequential};
ghost use Rattle.sd_core.specs.Kept.{machine_of};
ghost use Rattle.sd_core.specs.Stepped.{place_by, left_by, IsStepEnd};
ghost use Rattle.sd_core.specs.Traced.{IsTraced};

use crate::machine::Machine;
use crate::stepped::Stepped;
use sd_graph::Bound;
use sd_list::NoMemory;
use sd_mem::Memory;
use sd_safe::show_normal_forms;
use sd_seq::RunEnd;
use std::alloc::Global;

/// A step of a run by picks: the number of the move that was made, and how many there were.
#[derive(Clone, Copy)]
pub struct Chosen {
    pub number: u64,
    pub moves: u64,
}

/// A run by picks, and its steps.
#[derive(Drop)]
pub struct TracedRun {
    pub end: RunEnd,
    pub trace: Vec<Chosen>,
}

/// Runs a graph over a memory, with so many turns: each pick chooses the next move of its number modulo the number of moves, and
/// the first move where no pick is left. Whatever the picks are, the run of a valid graph that is accepted is done where the
/// sequential run is, and leaves the same but for the order of values in streams.
pub fn run_picked(
    alloc: Global,
    bound: &Bound,
    memory: Memory,
    turns: u64,
    picks: &[u64],
) -> Result<RunEnd, NoMemory>
    ensures run { IfOk result (λ end. Run (run_of (graph_tree bound.now.graph) memory.contents) turns picks.now (outcome_of end)) }
    ensures interleaving { IfOk result (λ end. IsValid (graph_tree bound.now.graph) → IsGraphAccepted (graph_tree bound.now.graph) → EndsAsSequential (run_of (graph_tree bound.now.graph) memory.contents) turns (outcome_of end)) }
{
    show_normal_forms(&bound.graph);
    run_by(alloc, bound, memory, turns, picks)
}

/// The same, with its steps.
pub fn run_traced(
    alloc: Global,
    bound: &Bound,
    memory: Memory,
    turns: u64,
    picks: &[u64],
) -> Result<TracedRun, NoMemory>
    ensures { IfOk result (λ traced. IsTraced (run_of (graph_tree bound.now.graph) memory.contents) turns picks.now (outcome_of traced.end) (map (λ chosen. (chosen.number, chosen.moves)) traced.trace.items)) }
{
    let mut machine = Machine::new(alloc, bound, memory, turns)?;
    let mut trace = Vec::new(alloc);
    for count in 0..usize::MAX {
        let moves = machine.moves();
        if moves == 0 {
            let end = end_of(machine);
            return Ok(TracedRun { end, trace });
        }
        let pick = pick_at(picks, count);
        let number = pick % moves;
        trace.push(Chosen { number, moves })?;
        let found = end_by(alloc, &mut machine, pick)?;
        if let Some(end) = found {
            return Ok(TracedRun { end, trace });
        }
        machine.release(alloc)?;
    }
    // So many steps count as want of memory.
    Err(NoMemory)
}

/// The run of a graph by picks.
fn run_by(
    alloc: Global,
    bound: &Bound,
    memory: Memory,
    turns: u64,
    picks: &[u64],
) -> Result<RunEnd, NoMemory>
    ensures { IfOk result (λ end. Run (run_of (graph_tree bound.now.graph) memory.contents) turns picks.now (outcome_of end)) }
{
    let mut machine = Machine::new(alloc, bound, memory, turns)?;
    for number in 0..usize::MAX {
        if machine.moves() == 0 {
            return Ok(end_of(machine));
        }
        let pick = pick_at(picks, number);
        if let Some(end) = end_by(alloc, &mut machine, pick)? {
            return Ok(end);
        }
        machine.release(alloc)?;
    }
    // So many steps count as want of memory.
    Err(NoMemory)
}

/// The pick of a number, and 0 where the picks are used up.
fn pick_at(picks: &[u64], number: usize) -> u64
    ensures { result ≡ slice_index_or picks.now number 0 }
{
    match picks.get(number) {
        Some(pick) => *pick,
        None => 0,
    }
}

/// Makes a step by a pick. The run ends by it where it has a fault or no turn is left.
fn end_by(alloc: Global, machine: &mut Machine, pick: u64) -> Result<Option<RunEnd>, NoMemory>
    requires { zero < length (next_moves (machine_of machine.old)) }
    ensures { IfOk result (IsStepEnd (step (place_by pick (machine_of machine.old)) (machine_of machine.old)) (machine_of machine.new)) }
{
    match machine.step(alloc, pick)? {
        Stepped::Moved | Stepped::Done => Ok(None),
        Stepped::Fault(place, kind) => Ok(Some(RunEnd::Fault(place, kind))),
        Stepped::Spent => Ok(Some(RunEnd::Spent)),
    }
}

/// The end of a run of which nothing is left.
fn end_of(machine: Machine) -> RunEnd
    ensures { outcome_of result ≡ Done (left_by (machine_of machine.entry)) }
{
    let turns = machine.turns();
    let memory = machine.into_memory();
    RunEnd::Done { memory, turns }
}
