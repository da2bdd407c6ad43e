ghost use Rattle.std.specs.Prelude.{◌≡◌, ◌+◌, ◌-◌, ◌<◌, ◌∷◌, [], ◌++◌, length, slice_set, IfOk, OnOk};
ghost use Rattle.sd_graph.specs.TreeFold.{value_tree, value_trees};
ghost use Rattle.sd_tcode.specs.tcode.Named.{count_of};
ghost use Rattle.sd_tcode.specs.tcode.Emitted as emitted;
ghost use Rattle.sd_tcode.specs.tcode.Emitted.{IsReadyAt};
ghost use Rattle.sd_compile.specs.Jumps as jumps;

use sd_graph::{OneSign, TwoSign, Value};
use sd_list::NoMemory;
use sd_tcode::{Layout, Op};

/// The number of a register behind another one. There is no room for 2^32 registers.
pub(crate) fn behind(register: u32, count: u32) -> Result<u32, NoMemory>
    ensures { IfOk result (λ sum. sum ≡ register + count) }
{
    register.checked_add(count).ok_or(NoMemory)
}

/// One more instruction.
pub(crate) fn put(ops: &mut Vec<Op>, op: Op) -> Result<(), NoMemory>
    ensures { OnOk result (ops.new.items ≡ ops.old.items ++ op ∷ []) }
{
    ops.push(op)?;
    Ok(())
}

/// A sign before a register.
fn one_op(sign: OneSign, to: u32, of: u32) -> Op
    ensures { result ≡ emitted.one_op sign to of }
{
    match sign {
        OneSign::Not => Op::Not { to, of },
        OneSign::Neg => Op::Neg { to, of },
        OneSign::Inv => Op::Inv { to, of },
    }
}

/// A sign between two registers.
fn two_op(sign: TwoSign, to: u32, left: u32, right: u32) -> Op
    ensures { result ≡ emitted.two_op sign to left right }
{
    match sign {
        TwoSign::Or => Op::Or { to, left, right },
        TwoSign::And => Op::And { to, left, right },
        TwoSign::Less => Op::Less { to, left, right },
        TwoSign::LessEqual => Op::LessEqual { to, left, right },
        TwoSign::Greater => Op::Greater { to, left, right },
        TwoSign::GreaterEqual => Op::GreaterEqual { to, left, right },
        TwoSign::Equal => Op::Equal { to, left, right },
        TwoSign::Differ => Op::Differ { to, left, right },
        TwoSign::BitOr => Op::BitOr { to, left, right },
        TwoSign::BitXor => Op::BitXor { to, left, right },
        TwoSign::BitAnd => Op::BitAnd { to, left, right },
        TwoSign::Add => Op::Add { to, left, right },
        TwoSign::Sub => Op::Sub { to, left, right },
        TwoSign::Mul => Op::Mul { to, left, right },
        TwoSign::FloorDiv => Op::FloorDiv { to, left, right },
        TwoSign::Mod => Op::Mod { to, left, right },
        TwoSign::Min => Op::Min { to, left, right },
        TwoSign::Max => Op::Max { to, left, right },
    }
}

/// The first value may decide alone.
fn is_lazy(sign: TwoSign) -> bool
    ensures { result ≡ emitted.is_lazy sign }
{
    matches!(sign, TwoSign::Or | TwoSign::And)
}

/// The test of a lazy sign jumps where the first value holds, or where it does not.
fn jumps_where(sign: TwoSign) -> bool
    ensures { result ≡ emitted.jumps_where sign }
{
    matches!(sign, TwoSign::Or)
}

/// A jump by a register, which is not told yet how many instructions it passes.
fn test_op(skips: bool, value: u32) -> Op
    ensures { result ≡ emitted.test_op skips value 0 }
{
    let count = 0;
    if skips {
        Op::SkipUnlessZero { value, count }
    } else {
        Op::SkipIfZero { value, count }
    }
}

/// The sign compares two values.
fn is_comparison(sign: TwoSign) -> bool
    ensures { result ≡ emitted.is_comparison sign }
{
    matches!(
        sign,
        TwoSign::Less
            | TwoSign::LessEqual
            | TwoSign::Greater
            | TwoSign::GreaterEqual
            | TwoSign::Equal
            | TwoSign::Differ
    )
}

/// The jump unless a sign between two registers holds, of which another register has the value where it
/// is no comparison.
fn unless_op(sign: TwoSign, left: u32, right: u32, value: u32) -> Op
    ensures { result ≡ emitted.unless_op sign left right value 0 }
{
    let count = 0;
    match sign {
        TwoSign::Less => Op::SkipUnlessLess { left, right, count },
        TwoSign::LessEqual => Op::SkipUnlessLessEqual { left, right, count },
        TwoSign::Greater => Op::SkipUnlessLess {
            left: right,
            right: left,
            count,
        },
        TwoSign::GreaterEqual => Op::SkipUnlessLessEqual {
            left: right,
            right: left,
            count,
        },
        TwoSign::Equal => Op::SkipUnlessEqual { left, right, count },
        TwoSign::Differ => Op::SkipUnlessDiffer { left, right, count },
        _ => Op::SkipIfZero { value, count },
    }
}

/// A jump that passes so many instructions.
fn with_count(op: Op, count: u32) -> Op
    ensures { result ≡ jumps.with_count op count }
{
    match op {
        Op::Skip { .. } => Op::Skip { count },
        Op::SkipIfZero { value, .. } => Op::SkipIfZero { value, count },
        Op::SkipUnlessZero { value, .. } => Op::SkipUnlessZero { value, count },
        Op::SkipUnlessLess { left, right, .. } => Op::SkipUnlessLess { left, right, count },
        Op::SkipUnlessLessEqual { left, right, .. } => Op::SkipUnlessLessEqual {
            left,
            right,
            count,
        },
        Op::SkipUnlessEqual { left, right, .. } => Op::SkipUnlessEqual { left, right, count },
        Op::SkipUnlessDiffer { left, right, .. } => Op::SkipUnlessDiffer { left, right, count },
        _ => op,
    }
}

/// How many instructions a jump passes. There is no room for 2^32 of them.
fn count_op(count: usize) -> Result<u32, NoMemory>
    ensures { IfOk result (λ number. number ≡ count) }
{
    u32::try_from(count).map_err(|_| NoMemory)
}

/// Writes a jump past the first instructions, which begin behind `test`, and the one past the second,
/// which begin behind `middle`.
pub(crate) fn join(ops: &mut Vec<Op>, jump: Op, test: usize, middle: usize) -> Result<(), NoMemory>
    requires test { test < middle }
    requires middle { middle < length ops.old.items }
    ensures { OnOk result (ops.new.items ≡ slice_set (slice_set ops.old.items test (jumps.with_count jump (middle - test))) middle (Op.Skip (length ops.old.items - middle - 1))) }
{
    let end = ops.len();
    ops[test] = with_count(jump, count_op(middle - test)?);
    ops[middle] = Op::Skip {
        count: count_op(end - middle - 1)?,
    };
    Ok(())
}

/// An index without numbers is that of a scalar.
pub(crate) fn is_scalar(at: &[Value]) -> bool
    ensures { result ≡ emitted.is_scalar (value_trees at.now) }
{
    at.len() == 0
}

/// A value stands in a register of its own already.
fn is_ready(value: &Value) -> bool
    ensures { result ≡ emitted.is_ready (value_tree value.now) }
{
    match value {
        Value::Variable(_) | Value::Local(_) => true,
        Value::Input { at, .. } => is_scalar(at),
        Value::Number(_) | Value::One { .. } | Value::Two { .. } | Value::Choice { .. } => false,
    }
}

/// The register in which a value stands already.
fn ready(layout: Layout, value: &Value) -> Result<Option<u32>, NoMemory>
    ensures { IfOk result (λ found. IsReadyAt layout (value_tree value.now) found) }
{
    match value {
        Value::Variable(place) => Ok(Some(behind(layout.inputs, *place)?)),
        Value::Local(number) => Ok(Some(behind(
            behind(layout.variables, layout.connectors)?,
            *number,
        )?)),
        Value::Input { connector, at } if is_scalar(at) => Ok(Some(*connector)),
        Value::Input { .. }
        | Value::Number(_)
        | Value::One { .. }
        | Value::Two { .. }
        | Value::Choice { .. } => Ok(None),
    }
}

/// A value that a later instruction reads. Gives its register, which is its own one or the free one.
#[cycle(values)]
pub(crate) fn emit_operand(
    ops: &mut Vec<Op>,
    layout: Layout,
    value: &Value,
    free: u32,
) -> Result<u32, NoMemory>
    ensures code { OnOk result (ops.new.items ≡ ops.old.items ++ emitted.unless_ready (value_tree value.now) (emitted.value_code layout free (free + 1) (value_tree value.now))) }
    ensures register { IfOk result (λ register. register ≡ emitted.operand_register layout free (value_tree value.now)) }
{
    match ready(layout, value)? {
        Some(register) => Ok(register),
        None => {
            emit_value(ops, layout, value, free, behind(free, 1)?)?;
            Ok(free)
        }
    }
}

/// A value in a register. Those from `free` on may be used on the way.
#[cycle(values)]
pub(crate) fn emit_value(
    ops: &mut Vec<Op>,
    layout: Layout,
    value: &Value,
    to: u32,
    free: u32,
) -> Result<(), NoMemory>
    ensures { OnOk result (ops.new.items ≡ ops.old.items ++ emitted.value_code layout to free (value_tree value.now)) }
{
    match value {
        Value::Number(value) => put(ops, Op::Number { to, value: *value }),
        Value::Variable(place) => {
            let from = behind(layout.inputs, *place)?;
            put(ops, Op::Copy { to, from })
        }
        Value::Local(number) => {
            let from = behind(behind(layout.variables, layout.connectors)?, *number)?;
            put(ops, Op::Copy { to, from })
        }
        Value::Input { connector, at } => emit_input(ops, layout, *connector, at, to, free),
        Value::One { sign, of } => {
            let of = emit_operand(ops, layout, of, free)?;
            put(ops, one_op(*sign, to, of))
        }
        Value::Two { sign, left, right } => {
            let left = emit_operand(ops, layout, left, free)?;
            emit_second(ops, layout, *sign, left, right, to, behind(free, 1)?)
        }
        Value::Choice { value, when, other } => {
            let jump = emit_condition(ops, layout, when, free)?;
            let test = ops.len();
            put(ops, jump)?;
            emit_value(ops, layout, value, to, free)?;
            let middle = ops.len();
            put(ops, Op::Skip { count: 0 })?;
            emit_value(ops, layout, other, to, free)?;
            join(ops, jump, test, middle)
        }
    }
}

/// What is computed before the jump of a condition: both sides of a comparison, or else its value.
/// Gives the jump, which is not told yet how many instructions it passes.
#[cycle(values)]
pub(crate) fn emit_condition(
    ops: &mut Vec<Op>,
    layout: Layout,
    when: &Value,
    free: u32,
) -> Result<Op, NoMemory>
    ensures code { OnOk result (ops.new.items ≡ ops.old.items ++ emitted.condition_code layout free (value_tree when.now) (emitted.value_code layout free (free + 1) (value_tree when.now))) }
    ensures jump { IfOk result (λ jump. jump ≡ emitted.condition_op layout free (value_tree when.now) 0) }
{
    match when {
        Value::Two { sign, left, right } if is_comparison(*sign) => {
            let left = emit_operand(ops, layout, left, free)?;
            let right = emit_operand(ops, layout, right, behind(free, 1)?)?;
            Ok(unless_op(*sign, left, right, free))
        }
        _ => {
            let value = emit_operand(ops, layout, when, free)?;
            Ok(Op::SkipIfZero { value, count: 0 })
        }
    }
}

/// The element of an input connector.
#[cycle(values)]
fn emit_input(
    ops: &mut Vec<Op>,
    layout: Layout,
    connector: u32,
    at: &[Value],
    to: u32,
    free: u32,
) -> Result<(), NoMemory>
    ensures { OnOk result (ops.new.items ≡ ops.old.items ++ emitted.input_code to connector free (value_trees at.now) (emitted.values_code layout free (value_trees at.now))) }
{
    if is_scalar(at) {
        return put(
            ops,
            Op::Copy {
                to,
                from: connector,
            },
        );
    }
    emit_values(ops, layout, at, free)?;
    put(
        ops,
        Op::Element {
            dims: dims_of(at)?,
            to,
            connector,
            first: free,
        },
    )
}

/// A sign between a register and a second value.
#[cycle(values)]
fn emit_second(
    ops: &mut Vec<Op>,
    layout: Layout,
    sign: TwoSign,
    left: u32,
    right: &Value,
    to: u32,
    free: u32,
) -> Result<(), NoMemory>
    ensures { OnOk result (ops.new.items ≡ ops.old.items ++ emitted.second_code sign left to (emitted.operand_register layout free (value_tree right.now)) (value_tree right.now) (emitted.value_code layout to free (value_tree right.now)) (emitted.value_code layout free (free + 1) (value_tree right.now))) }
{
    if is_lazy(sign) && !is_ready(right) {
        let jump = test_op(jumps_where(sign), left);
        let test = ops.len();
        put(ops, jump)?;
        emit_value(ops, layout, right, to, free)?;
        let middle = ops.len();
        put(ops, Op::Skip { count: 0 })?;
        put(ops, Op::Copy { to, from: left })?;
        return join(ops, jump, test, middle);
    }
    let right = emit_operand(ops, layout, right, free)?;
    put(ops, two_op(sign, to, left, right))
}

/// Values in the free registers, one after another.
#[cycle(values)]
pub(crate) fn emit_values(
    ops: &mut Vec<Op>,
    layout: Layout,
    values: &[Value],
    free: u32,
) -> Result<(), NoMemory>
    ensures { OnOk result (ops.new.items ≡ ops.old.items ++ emitted.values_code layout free (value_trees values.now)) }
{
    let mut to = free;
    for value in values {
        let next = behind(to, 1)?;
        emit_value(ops, layout, value, to, next)?;
        to = next;
    }
    Ok(())
}

/// How many numbers an index has. A connector has at most four dimensions.
#[tactic(auto, using(crate::proofs::Values::count_by_length))]
pub(crate) fn dims_of(at: &[Value]) -> Result<u8, NoMemory>
    ensures { IfOk result (λ dims. dims ≡ count_of (value_trees at.now)) }
{
    dims_op(at.len())
}

/// A number of dimensions as an instruction has it.
fn dims_op(count: usize) -> Result<u8, NoMemory>
    ensures { IfOk result (λ number. number ≡ count) }
{
    u8::try_from(count).map_err(|_| NoMemory)
}
