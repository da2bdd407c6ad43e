//! Writes the steps of a run and its end.
ghost use Rattle.std.specs.Prelude.{◌≡◌, ◌≤◌, IfOk, OnOk, OnErr, IsErrOf, string_bytes};
ghost use Rattle.sd_io.specs.Count.{HasRisen};
ghost use Rattle.sd_io.specs.Sink.{Appends, AppendsPrefix};
ghost use Rattle.sd_work.specs.Move.{fault_at};
ghost use Rattle.sd_graph.specs.TreeFold.{graph_tree};
ghost use Rattle.sd_seq.specs.RunEnd.{outcome_of};
ghost use Rattle.sd_report.specs.write.RunText as texts;
ghost use Rattle.sd_report.specs.write.RunText.{pair_of, steps_told, step_text, steps_text, end_text, run_text};

use crate::write::arrays::write_arrays;
use crate::write::output;
use sd_core::Chosen;
use sd_graph::{Bound, FaultKind, Place};
use sd_io::{Sink, SinkError};
use sd_list::NoMemory;
use sd_print::fault_text;
use sd_seq::RunEnd;
use std::alloc::Global;

/// The line of a step.
fn step_line(alloc: Global, step: Chosen) -> Result<String, NoMemory>
    ensures { IfOk result (λ line. string_bytes line ≡ step_text (pair_of step)) }
{
    let mut line = String::new(alloc);
    writeln!(line, "move {} of {}", step.number, step.moves)?;
    Ok(line)
}

/// The line of a fault.
fn fault_line(alloc: Global, place: &Place, kind: FaultKind) -> Result<String, NoMemory>
    ensures { IfOk result (λ line. string_bytes line ≡ texts.fault_line (fault_at place.now kind)) }
{
    let mut line = fault_text(alloc, place, kind)?;
    line.push_str("\n")?;
    Ok(line)
}

/// The line of a run that wanted more turns than these.
fn spent_line(alloc: Global, turns: u64) -> Result<String, NoMemory>
    ensures { IfOk result (λ line. string_bytes line ≡ texts.spent_line turns) }
{
    let mut line = String::new(alloc);
    writeln!(line, "turns spent {turns}")?;
    Ok(line)
}

/// Writes the line of a step.
fn write_step<K: Sink>(alloc: Global, out: &mut K, step: Chosen) -> Result<(), SinkError>
    ensures ok { OnOk result (Appends (K.taken out.old) (K.taken out.new) (step_text (pair_of step))) }
    ensures err { OnErr result (AppendsPrefix (K.taken out.old) (K.taken out.new) (step_text (pair_of step))) }
    ensures failed { IsErrOf result SinkError.Failed → HasRisen (K.faults out.old) (K.faults out.new) }
    ensures faults_never_fall { K.faults out.old ≤ K.faults out.new }
{
    match step_line(alloc, step) {
        Ok(line) => output::write_text(out, line.as_bytes()),
        Err(_) => Err(SinkError::Memory),
    }
}

/// Writes the line of each step.
fn write_steps<K: Sink>(alloc: Global, out: &mut K, steps: &[Chosen]) -> Result<(), SinkError>
    ensures ok { OnOk result (Appends (K.taken out.old) (K.taken out.new) (steps_text (steps_told steps.now))) }
    ensures err { OnErr result (AppendsPrefix (K.taken out.old) (K.taken out.new) (steps_text (steps_told steps.now))) }
    ensures failed { IsErrOf result SinkError.Failed → HasRisen (K.faults out.old) (K.faults out.new) }
    ensures faults_never_fall { K.faults out.old ≤ K.faults out.new }
{
    for step in steps {
        write_step(alloc, out, *step)?;
    }
    Ok(())
}

/// Writes the arrays of a run that is done, its fault, or that it wanted more turns than these.
fn write_end<K: Sink>(
    alloc: Global,
    out: &mut K,
    bound: &Bound,
    turns: u64,
    end: &RunEnd,
) -> Result<(), SinkError>
    ensures ok { OnOk result (Appends (K.taken out.old) (K.taken out.new) (end_text (graph_tree bound.now.graph) turns (outcome_of end.now))) }
    ensures err { OnErr result (AppendsPrefix (K.taken out.old) (K.taken out.new) (end_text (graph_tree bound.now.graph) turns (outcome_of end.now))) }
    ensures failed { IsErrOf result SinkError.Failed → HasRisen (K.faults out.old) (K.faults out.new) }
    ensures faults_never_fall { K.faults out.old ≤ K.faults out.new }
{
    match end {
        RunEnd::Done { memory, .. } => write_arrays(alloc, out, bound, memory),
        RunEnd::Fault(place, kind) => match fault_line(alloc, place, *kind) {
            Ok(line) => output::write_text(out, line.as_bytes()),
            Err(_) => Err(SinkError::Memory),
        },
        RunEnd::Spent => match spent_line(alloc, turns) {
            Ok(line) => output::write_text(out, line.as_bytes()),
            Err(_) => Err(SinkError::Memory),
        },
    }
}

/// Writes the steps that are told of a run with so many turns, and then how it has ended.
pub fn write_run<K: Sink>(
    alloc: Global,
    out: &mut K,
    bound: &Bound,
    turns: u64,
    steps: &[Chosen],
    end: &RunEnd,
) -> Result<(), SinkError>
    ensures ok { OnOk result (Appends (K.taken out.old) (K.taken out.new) (run_text (steps_told steps.now) (graph_tree bound.now.graph) turns (outcome_of end.now))) }
    ensures err { OnErr result (AppendsPrefix (K.taken out.old) (K.taken out.new) (run_text (steps_told steps.now) (graph_tree bound.now.graph) turns (outcome_of end.now))) }
    ensures failed { IsErrOf result SinkError.Failed → HasRisen (K.faults out.old) (K.faults out.new) }
    ensures faults_never_fall { K.faults out.old ≤ K.faults out.new }
{
    write_steps(alloc, out, steps)?;
    write_end(alloc, out, bound, turns, end)
}
