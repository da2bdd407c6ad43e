ghost use Rattle.std.specs.Prelude.{◌≡◌, ◌≤◌, ◌+◌, length};
ghost use Rattle.sd_tcode.specs.op.Within as within;
ghost use Rattle.sd_compile.specs.Reach as needed;

use sd_tcode::Op;

/// How many registers there have to be for one of this number.
fn past(register: u32) -> usize
    ensures { result ≡ register + 1 }
{
    register as usize + 1
}

/// How many registers there have to be for an index.
fn past_index(first: u32, dims: u8) -> usize
    ensures { result ≡ first + dims }
{
    first as usize + dims as usize
}

/// How many registers there have to be for those that an instruction names.
fn reach(op: Op) -> usize
    ensures { result ≡ needed.reach op }
{
    match op {
        Op::Number { to, .. } => past(to),
        Op::Copy { to, from: of } | Op::Not { to, of } | Op::Neg { to, of } | Op::Inv { to, of } =>
            { past(to).max(past(of)) }
        Op::Or { to, left, right }
        | Op::And { to, left, right }
        | Op::Less { to, left, right }
        | Op::LessEqual { to, left, right }
        | Op::Greater { to, left, right }
        | Op::GreaterEqual { to, left, right }
        | Op::Equal { to, left, right }
        | Op::Differ { to, left, right }
        | Op::BitOr { to, left, right }
        | Op::BitXor { to, left, right }
        | Op::BitAnd { to, left, right }
        | Op::Add { to, left, right }
        | Op::Sub { to, left, right }
        | Op::Mul { to, left, right }
        | Op::FloorDiv { to, left, right }
        | Op::Mod { to, left, right }
        | Op::Min { to, left, right }
        | Op::Max { to, left, right } => past(to).max(past(left).max(past(right))),
        Op::Element {
            dims,
            to,
            first,
            ..
        } => past(to).max(past_index(first, dims)),
        Op::Inside { dims, first, .. } => past_index(first, dims),
        Op::Keep {
            dims,
            first,
            value,
            ..
        } => past_index(first, dims).max(past(value)),
        Op::Skip { .. } => 0,
        Op::SkipIfZero { value, .. } | Op::SkipUnlessZero { value, .. } => past(value),
        Op::SkipUnlessLess { left, right, .. }
        | Op::SkipUnlessLessEqual { left, right, .. }
        | Op::SkipUnlessEqual { left, right, .. }
        | Op::SkipUnlessDiffer { left, right, .. } => past(left).max(past(right)),
    }
}

/// The same for all of them.
pub(crate) fn reach_all(ops: &[Op]) -> usize
    ensures { result ≡ needed.reach_all ops.now }
{
    let mut most = 0;
    for op in ops {
        most = reach(*op).max(most);
    }
    most
}

/// How many effects instructions keep at most.
pub(crate) fn most_kept(ops: &[Op]) -> usize
    ensures kept { result ≡ within.most_kept ops.now }
    ensures few { result ≤ length ops.now }
{
    let mut count = 0;
    for op in ops {
        if let Op::Keep { .. } = op {
            count += 1;
        }
    }
    count
}
