ghost use Rattle.std.specs.Prelude.{◌≡◌, ℕ, ◌+◌, ◌<◌, ◌≤◌, length, map, take};
ghost use Rattle.std.specs.List.{AllByRecursion};
ghost use Rattle.sd_tcode.specs.op.Machine.{held, after_all, state_only, answered};
ghost use Rattle.sd_tcode.specs.op.Memory.{HasCells};
ghost use Rattle.sd_tcode.specs.op.Within.{Room, IsWithin, most_kept};

use crate::op::array::Own;
use crate::op::log::Log;
use crate::op::op::Op;
use crate::op::source::Source;
use crate::op::step::step;
use sd_graph::FaultKind;

/// Does the instructions one after another, from the first on. Takes no memory.
#[inline(always)]
pub fn run_ops<S: Source>(
    ops: &[Op],
    source: &S,
    registers: &mut [i64],
    log: &mut Log,
) -> Result<(), FaultKind>
    ghost room: { Room }
    requires within { AllByRecursion (IsWithin room) ops.now }
    requires registers { length registers.old ≡ room.registers }
    requires connectors { length (S.connectors source.now) ≡ room.connectors }
    requires inputs { room.inputs ≤ room.connectors }
    requires held { (connector : ℕ) → connector < room.inputs → S.is_held source.now connector }
    requires log { length log.old.0 + most_kept ops.now ≤ log.old.1 }
    ensures many { length registers.new ≡ length registers.old }
    ensures given { take room.given registers.new ≡ take room.given registers.old }
    ensures slots { log.new.1 ≡ log.old.1 }
    ensures kept { length log.new.0 ≤ length log.old.0 + most_kept ops.now }
    ensures done { state_only (after_all (S.connectors source.now) 0 ops.now (record { registers = registers.old; effects = log.old.0 })) ≡ answered result (record { registers = registers.new; effects = log.new.0 }) }
{
    let mut at = 0;
    while at < ops.len() {
        let passed = step(ops[at], source, registers, log)?;
        at += 1 + passed;
    }
    Ok(())
}

/// The same on arrays that have the elements themselves.
#[inline(always)]
pub fn run_own_ops(
    ops: &[Op],
    own: &Own<'_>,
    registers: &mut [i64],
    log: &mut Log,
) -> Result<(), FaultKind>
    ghost room: { Room }
    requires within { AllByRecursion (IsWithin room) ops.now }
    requires registers { length registers.old ≡ room.registers }
    requires connectors { length own.now.all.now ≡ room.connectors }
    requires inputs { room.inputs ≤ room.connectors }
    requires cells { HasCells room.inputs (map held own.now.all.now) }
    requires log { length log.old.0 + most_kept ops.now ≤ log.old.1 }
    ensures many { length registers.new ≡ length registers.old }
    ensures given { take room.given registers.new ≡ take room.given registers.old }
    ensures slots { log.new.1 ≡ log.old.1 }
    ensures kept { length log.new.0 ≤ length log.old.0 + most_kept ops.now }
    ensures done { state_only (after_all (map held own.now.all.now) 0 ops.now (record { registers = registers.old; effects = log.old.0 })) ≡ answered result (record { registers = registers.new; effects = log.new.0 }) }
{
    run_ops(ops, own, registers, log)
}
