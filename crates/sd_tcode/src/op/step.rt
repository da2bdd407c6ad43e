ghost use Rattle.std.specs.Prelude.{◌≡◌, ◌^◌, ℕ, ◌+◌, ◌≤◌, ◌<◌, length, take, pos, slice_set, slice_range, slice_index_or, Ok, OnErr, IfOk, if◌then◌else◌};
ghost use Rattle.sd_graph.specs.TaskletMeaning as meaning;
ghost use Rattle.sd_tasklet.specs.tasklet.Kept as kept;
ghost use Rattle.sd_tcode.specs.op.Machine.{State, after_one, passed, answered, extents_at, cell_of};
ghost use Rattle.sd_tcode.specs.op.Within.{Room, IsWithin, kept_by};

use crate::op::log::Log;
use crate::op::op::Op;
use crate::op::source::Source;
use sd_graph::{FaultKind, OneSign, TwoSign};
use sd_tasklet::{Effect, filled, holds, one_value, two_values};

/// A sign before a register.
#[inline]
fn change(sign: OneSign, registers: &mut [i64], to: u32, of: u32)
    requires to { to < length registers.old }
    requires of { of < length registers.old }
    ensures { registers.new ≡ slice_set registers.old to (meaning.one_value sign (slice_index_or registers.old of (pos 0))) }
{
    registers[to as usize] = one_value(sign, registers[of as usize]);
}

/// A sign between two registers.
#[inline]
fn combine(
    sign: TwoSign,
    registers: &mut [i64],
    to: u32,
    left: u32,
    right: u32,
) -> Result<(), FaultKind>
    requires to { to < length registers.old }
    requires left { left < length registers.old }
    requires right { right < length registers.old }
    ensures err { OnErr result (registers.new ≡ registers.old) }
    ensures value { meaning.and_then (meaning.two_values sign (slice_index_or registers.old left (pos 0)) (slice_index_or registers.old right (pos 0))) (λ value. Ok (slice_set registers.old to value)) ≡ answered result registers.new }
{
    registers[to as usize] = two_values(sign, registers[left as usize], registers[right as usize])?;
    Ok(())
}

/// The registers that hold an index.
#[inline(always)]
fn index_of(registers: &[i64], first: u32, dims: u8) -> &[i64]
    requires { first + dims ≤ length registers.now }
    ensures { result.now ≡ slice_range registers.now first (first + dims) }
{
    let first = first as usize;
    &registers[first..first + dims as usize]
}

/// The index of an effect, from the registers that hold it. A scalar has none, and most others one number.
#[inline(always)]
fn kept_index(registers: &[i64], first: u32, dims: u8) -> [u64; 4]
    requires there { first + dims ≤ length registers.now }
    requires few { dims ≤ 4 }
    ensures { result ≡ kept.filled (slice_range registers.now first (first + dims)) }
{
    match dims {
        0 => [0; 4],
        1 => [registers[first as usize].unsigned_abs(), 0, 0, 0],
        _ => filled(index_of(registers, first, dims)),
    }
}

/// How many instructions a jump passes that is taken unless a comparison holds.
#[inline(always)]
fn unless(compares: bool, count: u32) -> usize
    ensures { result ≡ (if compares then 0 else count) }
{
    if compares { 0 } else { count as usize }
}

/// One instruction. Gives how many instructions are passed after it.
#[inline(always)]
pub(crate) fn step<S: Source>(
    op: Op,
    source: &S,
    registers: &mut [i64],
    log: &mut Log,
) -> Result<usize, FaultKind>
    ghost room: { Room }
    requires within { IsWithin room op }
    requires registers { length registers.old ≡ room.registers }
    requires connectors { length (S.connectors source.now) ≡ room.connectors }
    requires inputs { room.inputs ≤ room.connectors }
    requires held { (connector : ℕ) → connector < room.inputs → S.is_held source.now connector }
    requires log { length log.old.0 + kept_by op ≤ log.old.1 }
    ensures many { length registers.new ≡ length registers.old }
    ensures given { take room.given registers.new ≡ take room.given registers.old }
    ensures slots { log.new.1 ≡ log.old.1 }
    ensures kept { length log.new.0 ≤ length log.old.0 + kept_by op }
    ensures done { after_one (S.connectors source.now) op (record { registers = registers.old; effects = log.old.0 }) ≡ answered result (record { registers = registers.new; effects = log.new.0 }) }
    ensures few { IfOk result (λ count. count < 2 ^ 32) }
    ensures passed { IfOk result (λ count. count ≡ passed op (record { registers = registers.old; effects = log.old.0 })) }
{
    match op {
        Op::Number { to, value } => registers[to as usize] = value,
        Op::Copy { to, from } => registers[to as usize] = registers[from as usize],
        Op::Not { to, of } => change(OneSign::Not, registers, to, of),
        Op::Neg { to, of } => change(OneSign::Neg, registers, to, of),
        Op::Inv { to, of } => change(OneSign::Inv, registers, to, of),
        Op::Or { to, left, right } => combine(TwoSign::Or, registers, to, left, right)?,
        Op::And { to, left, right } => combine(TwoSign::And, registers, to, left, right)?,
        Op::Less { to, left, right } => combine(TwoSign::Less, registers, to, left, right)?,
        Op::LessEqual { to, left, right } => combine(
            TwoSign::LessEqual,
            registers,
            to,
            left,
            right,
        )?,
        Op::Greater { to, left, right } => combine(TwoSign::Greater, registers, to, left, right)?,
        Op::GreaterEqual { to, left, right } => combine(
            TwoSign::GreaterEqual,
            registers,
            to,
            left,
            right,
        )?,
        Op::Equal { to, left, right } => combine(TwoSign::Equal, registers, to, left, right)?,
        Op::Differ { to, left, right } => combine(TwoSign::Differ, registers, to, left, right)?,
        Op::BitOr { to, left, right } => combine(TwoSign::BitOr, registers, to, left, right)?,
        Op::BitXor { to, left, right } => combine(TwoSign::BitXor, registers, to, left, right)?,
        Op::BitAnd { to, left, right } => combine(TwoSign::BitAnd, registers, to, left, right)?,
        Op::Add { to, left, right } => combine(TwoSign::Add, registers, to, left, right)?,
        Op::Sub { to, left, right } => combine(TwoSign::Sub, registers, to, left, right)?,
        Op::Mul { to, left, right } => combine(TwoSign::Mul, registers, to, left, right)?,
        Op::FloorDiv { to, left, right } => combine(TwoSign::FloorDiv, registers, to, left, right)?,
        Op::Mod { to, left, right } => combine(TwoSign::Mod, registers, to, left, right)?,
        Op::Min { to, left, right } => combine(TwoSign::Min, registers, to, left, right)?,
        Op::Max { to, left, right } => combine(TwoSign::Max, registers, to, left, right)?,
        Op::Element {
            dims,
            to,
            connector,
            first,
        } => {
            let value = source.element(connector, index_of(registers, first, dims))?;
            registers[to as usize] = value;
        }
        Op::Inside {
            dims,
            connector,
            first,
        } => {
            source.is_at(connector, index_of(registers, first, dims))?;
        }
        Op::Keep {
            dims,
            connector,
            first,
            value,
        } => log.keep(Effect {
            connector,
            at: kept_index(registers, first, dims),
            value: registers[value as usize],
        }),
        Op::Skip { count } => return Ok(count as usize),
        Op::SkipIfZero { value, count } if !holds(registers[value as usize]) => {
            return Ok(count as usize);
        }
        Op::SkipUnlessZero { value, count } if holds(registers[value as usize]) => {
            return Ok(count as usize);
        }
        Op::SkipIfZero { .. } | Op::SkipUnlessZero { .. } => {}
        Op::SkipUnlessLess { left, right, count } => {
            return Ok(unless(registers[left as usize] < registers[right as usize], count));
        }
        Op::SkipUnlessLessEqual { left, right, count } => {
            return Ok(unless(registers[left as usize] <= registers[right as usize], count));
        }
        Op::SkipUnlessEqual { left, right, count } => {
            return Ok(unless(registers[left as usize] == registers[right as usize], count));
        }
        Op::SkipUnlessDiffer { left, right, count } => {
            return Ok(unless(registers[left as usize] != registers[right as usize], count));
        }
    }
    Ok(0)
}
