ghost use Rattle.std.specs.Prelude.{◌≡◌, ◌↔◌, IsTrue};
ghost use Rattle.sd_graph.specs.TaskletMeaning as meaning;

use sd_graph::{FaultKind, OneSign, TwoSign};
use sd_num::{add, floor_div, floor_mod, mul, sub};

/// 1 or 0.
#[inline(always)]
fn number_of(holds: bool) -> i64
    ensures { result ≡ meaning.truth holds }
{
    if holds { 1 } else { 0 }
}

/// A value counts as true unless it is 0.
#[inline(always)]
pub fn holds(value: i64) -> bool
    ensures { result ≡ meaning.holds value }
{
    value != 0
}

/// What a sign makes of a value.
#[inline(always)]
pub fn one_value(sign: OneSign, value: i64) -> i64
    ensures { result ≡ meaning.one_value sign value }
{
    match sign {
        OneSign::Not => number_of(!holds(value)),
        OneSign::Neg => sub(0, value),
        OneSign::Inv => !value,
    }
}

/// What a sign makes of two values that are both there. Only `//` and `%` by 0 fault.
#[inline(always)]
pub fn two_values(sign: TwoSign, left: i64, right: i64) -> Result<i64, FaultKind>
    ensures { result ≡ meaning.two_values sign left right }
{
    match sign {
        TwoSign::Or => Ok(if holds(left) { left } else { right }),
        TwoSign::And => Ok(if holds(left) { right } else { left }),
        TwoSign::Less => Ok(number_of(left < right)),
        TwoSign::LessEqual => Ok(number_of(left <= right)),
        TwoSign::Greater => Ok(number_of(left > right)),
        TwoSign::GreaterEqual => Ok(number_of(left >= right)),
        TwoSign::Equal => Ok(number_of(left == right)),
        TwoSign::Differ => Ok(number_of(left != right)),
        TwoSign::BitOr => Ok(left | right),
        TwoSign::BitXor => Ok(left ^ right),
        TwoSign::BitAnd => Ok(left & right),
        TwoSign::Add => Ok(add(left, right)),
        TwoSign::Sub => Ok(sub(left, right)),
        TwoSign::Mul => Ok(mul(left, right)),
        TwoSign::FloorDiv => floor_div(left, right).ok_or(FaultKind::Division),
        TwoSign::Mod => floor_mod(left, right).ok_or(FaultKind::Division),
        TwoSign::Min => Ok(left.min(right)),
        TwoSign::Max => Ok(left.max(right)),
    }
}

/// The first value decides alone.
#[inline(always)]
pub fn decides(sign: TwoSign, left: i64) -> bool
    ensures { result ≡ meaning.decides sign left }
{
    match sign {
        TwoSign::Or => holds(left),
        TwoSign::And => !holds(left),
        _ => false,
    }
}
