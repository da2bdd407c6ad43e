//! One point of a row.
ghost use Rattle.std.specs.Prelude.{◌≡◌, ℕ, ◌+◌, ◌<◌, ◌^◌, [], ◌∷◌, List, ◌++◌, length, map, Some, None};
ghost use Rattle.std.specs.List.{AllByRecursion};
ghost use Rattle.sd_work.specs.Memory.{Memory};
ghost use Rattle.sd_graph.specs.PlainTree.{TaskletTree};
ghost use Rattle.sd_graph.specs.Context.{Context};
ghost use Rattle.sd_graph.specs.declared.link.Link.{Link};
ghost use Rattle.sd_tcode.specs.tcode.Compiled.{Compiled, IsCodeOf};
ghost use Rattle.sd_tcode.specs.tcode.Held.{IsReady, given, output_of};
ghost use Rattle.sd_leaves.specs.leaves.Done.{IsDone, performing, instance_work};
ghost use Rattle.sd_tcode.specs.columns.Columns.{value_on};
ghost use Rattle.sd_row.specs.row.Row.{write_on, order_of, IsAt};
ghost use Rattle.sd_row.specs.row.Point.{seen_on, HasScalars, IsBare, IsOver};

use crate::row::row::{Row, Write};
use crate::row::track::Track;
use sd_graph::FaultKind;
use sd_mem::Machine;
use sd_tcode::{Code, Frame, Spaced, run_plain};

/// Gives code with scalar inputs the elements that these tracks have at a point.
#[inline(always)]
pub fn load(frame: &mut Frame, reads: &[Track], k: u32, machine: &Machine)
    requires singles { AllByRecursion (λ values. length values ≡ 1) (given frame.old).values }
    requires reads { length (given frame.old).values ≡ length reads.now }
    requires few { length reads.now < 2 ^ 32 }
    ensures given { given frame.new ≡ record (given frame.old) { values = map (λ track. seen_on k machine.now.memories track ∷ []) reads.now } }
    ensures ready { (code : Compiled) → IsReady code frame.old → IsReady code frame.new }
{
    for number in 0..reads.len() {
        frame.load(number as u32, 0, machine.look(reads[number].cell(k)));
    }
}

/// Gives code the values of its variables at a point.
#[inline(always)]
pub fn set_variables(frame: &mut Frame, variables: &[Spaced], k: u32)
    requires variables { length (given frame.old).variables ≡ length variables.now }
    requires few { length variables.now < 2 ^ 32 }
    ensures given { given frame.new ≡ record (given frame.old) { variables = map (λ numbers. value_on numbers k) variables.now } }
    ensures ready { (code : Compiled) → IsReady code frame.old → IsReady code frame.new }
{
    for number in 0..variables.len() {
        frame.set(number as u32, variables[number].at(k));
    }
}

/// Writes the outputs that the code left.
#[inline(always)]
fn write_outputs(frame: &Frame, writes: &[Write], k: u32, machine: &mut Machine)
    requires outputs { AllByRecursion (λ connector. frame.now.variables + connector < length frame.now.registers.items) (map (λ write. write.connector) writes.now) }
    ensures done { IsDone (performing (map (write_on (output_of frame.now) k) writes.now)) machine.old None machine.new }
    ensures own { (own : Memory) → IsBare own → IsOver own machine.old → IsOver own machine.new }
{
    for write in writes {
        let value = frame.output(write.connector);
        machine.write(write.to.cell(k), write.by, value);
    }
}

/// What the code does at a point: it reads, evaluates and writes. The innermost memory stays as it is where it holds nothing.
#[inline(always)]
pub(crate) fn run_point(
    row: &Row,
    code: &Code,
    frame: &mut Frame,
    k: u32,
    machine: &mut Machine,
) -> Option<FaultKind>
    requires ready { IsReady code.now frame.old }
    requires scalars { HasScalars row.now code.now.layout.connectors (given frame.old) }
    requires plain { code.now.plain ≡ Some (order_of row.now) }
    ensures done { (tree : TaskletTree) (ins outs : List Link) (context : Context) → IsCodeOf tree code.now
        → length (ins ++ outs) ≡ code.now.layout.connectors → IsAt tree ins outs row.now k context
        → IsDone (instance_work context tree ins outs) machine.old result machine.new }
    ensures own { (own : Memory) → IsBare own → IsOver own machine.old → IsOver own machine.new }
    ensures ready { IsReady code.now frame.new }
    ensures scalars { HasScalars row.now code.now.layout.connectors (given frame.new) }
{
    load(frame, &row.reads, k, machine);
    set_variables(frame, &row.variables, k);
    match run_plain(code, frame) {
        Ok(()) => {
            write_outputs(frame, &row.writes, k, machine);
            None
        }
        Err(kind) => Some(kind),
    }
}
