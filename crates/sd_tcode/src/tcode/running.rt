ghost use Rattle.std.specs.Prelude.{◌≡◌, ℕ, ◌+◌, ◌≤◌, ◌<◌, ◌++◌, [], List, length, map, Some};
ghost use Rattle.std.specs.List.{AllByRecursion};
ghost use Rattle.sd_graph.specs.PlainTree.{TaskletTree};
ghost use Rattle.sd_graph.specs.TaskletMeaning.{meaning_of};
ghost use Rattle.sd_tasklet.specs.tasklet.Given.{IsWhole};
ghost use Rattle.sd_tasklet.specs.tasklet.Kept.{told};
ghost use Rattle.sd_tcode.specs.op.Machine.{held, after_all, state_only, answered};
ghost use Rattle.sd_tcode.specs.op.Within.{Room};
ghost use Rattle.sd_tcode.specs.tcode.Outputs.{output_effects};
ghost use Rattle.sd_tcode.specs.tcode.Compiled.{IsCodeOf, IsSafe, room_of};
ghost use Rattle.sd_tcode.specs.tcode.Held.{IsFrameOf, IsReady, HaveDims, given, given_with, effects_of, output_of, kept_output};

use crate::op::{Log, Own, Source, run_ops, run_own_ops};
use crate::tcode::code::Code;
use crate::tcode::frame::Frame;
use sd_graph::FaultKind;
use sd_tasklet::Effect;

/// The instructions of the code, from the first one on.
#[inline(always)]
fn run_code(code: &Code, frame: &mut Frame) -> Result<(), FaultKind>
    ghost room: { Room }
    requires room { room ≡ room_of code.now }
    requires frame { IsFrameOf code.now frame.old }
    requires whole { IsWhole (given frame.old) }
    ensures done { state_only (after_all (map held frame.old.arrays.items) 0 code.now.ops (record { registers = frame.old.registers.items; effects = [] })) ≡ answered result (record { registers = frame.new.registers.items; effects = frame.new.log.0 }) }
    ensures arrays { frame.new.arrays.items ≡ frame.old.arrays.items }
    ensures given { given frame.new ≡ given frame.old }
    ensures frame { IsFrameOf code.now frame.new }
    ensures safe { IsSafe code.now }
{
    frame.log.clear();
    run_own_ops(
        &code.ops,
        &Own { all: &frame.arrays },
        &mut frame.registers,
        &mut frame.log,
    )
}

/// The outputs of plain code as effects.
fn keep_outputs(order: &[u32], variables: usize, registers: &[i64], log: &mut Log)
    requires outputs { AllByRecursion (λ connector. variables + connector < length registers.now) order.now }
    requires room { length log.old.0 + length order.now ≤ log.old.1 }
    ensures kept { log.new.0 ≡ log.old.0 ++ map (kept_output variables registers.now) order.now }
    ensures slots { log.new.1 ≡ log.old.1 }
{
    for connector in order {
        log.keep(Effect {
            connector: *connector,
            at: [0; 4],
            value: registers[variables + *connector as usize],
        });
    }
}

/// Runs the code on what the frame holds: its effects stand in the frame, or else the fault comes
/// that the tasklet has. What the frame was given stays. Takes no memory.
#[inline(always)]
pub fn run(code: &Code, frame: &mut Frame) -> Result<(), FaultKind>
    requires { IsReady code.now frame.old }
    ensures meaning { (tree : TaskletTree) → IsCodeOf tree code.now → meaning_of tree (given frame.old) ≡ answered result (effects_of frame.new) }
    ensures given { given frame.new ≡ given frame.old }
    ensures ready { IsReady code.now frame.new }
{
    if let Err(kind) = run_code(code, frame) {
        return Err(kind);
    }
    if let Some(order) = &code.plain {
        frame.log.clear();
        keep_outputs(order, frame.variables, &frame.registers, &mut frame.log);
    }
    Ok(())
}

/// Runs plain code and leaves its outputs in their registers, for `Frame::output`, without a list of
/// effects. What the frame was given stays. Takes no memory.
#[inline(always)]
pub fn run_plain(code: &Code, frame: &mut Frame) -> Result<(), FaultKind>
    requires { IsReady code.now frame.old }
    ensures meaning { (tree : TaskletTree) (order : List ℕ) → IsCodeOf tree code.now → code.now.plain ≡ Some order → meaning_of tree (given frame.old) ≡ answered result (output_effects (output_of frame.new) order) }
    ensures given { given frame.new ≡ given frame.old }
    ensures ready { IsReady code.now frame.new }
    ensures outputs { (order : List ℕ) → code.now.plain ≡ Some order → AllByRecursion (λ connector. frame.new.variables + connector < length frame.new.registers.items) order }
{
    run_code(code, frame)
}

/// The instructions of the code, from the first one on, on connectors that stand elsewhere.
#[inline(always)]
fn run_code_from<S: Source>(code: &Code, frame: &mut Frame, source: &S) -> Result<(), FaultKind>
    ghost room: { Room }
    requires room { room ≡ room_of code.now }
    requires frame { IsFrameOf code.now frame.old }
    requires dims { HaveDims code.now (S.connectors source.now) }
    requires held { (connector : ℕ) → connector < code.now.layout.inputs → S.is_held source.now connector }
    ensures done { state_only (after_all (S.connectors source.now) 0 code.now.ops (record { registers = frame.old.registers.items; effects = [] })) ≡ answered result (record { registers = frame.new.registers.items; effects = frame.new.log.0 }) }
    ensures given { given frame.new ≡ given frame.old }
    ensures frame { IsFrameOf code.now frame.new }
    ensures safe { IsSafe code.now }
{
    frame.log.clear();
    run_ops(&code.ops, source, &mut frame.registers, &mut frame.log)
}

/// Runs the code on the scalars and variables that the frame holds, and on connectors that stand elsewhere: their
/// elements are read where the code wants them. Its effects stand in the frame, or else the fault comes that the tasklet
/// has. What the frame was given stays. Takes no memory.
#[inline(always)]
pub fn run_from<S: Source>(code: &Code, frame: &mut Frame, source: &S) -> Result<(), FaultKind>
    requires ready { IsReady code.now frame.old }
    requires dims { HaveDims code.now (S.connectors source.now) }
    requires held { (connector : ℕ) → connector < code.now.layout.inputs → S.is_held source.now connector }
    ensures meaning { (tree : TaskletTree) → IsCodeOf tree code.now → meaning_of tree (given_with (S.connectors source.now) (given frame.old)) ≡ answered result (map (told (given_with (S.connectors source.now) (given frame.new))) frame.new.log.0) }
    ensures given { given frame.new ≡ given frame.old }
    ensures ready { IsReady code.now frame.new }
{
    if let Err(kind) = run_code_from(code, frame, source) {
        return Err(kind);
    }
    if let Some(order) = &code.plain {
        frame.log.clear();
        keep_outputs(order, frame.variables, &frame.registers, &mut frame.log);
    }
    Ok(())
}
