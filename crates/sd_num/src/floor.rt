ghost use Rattle.std.specs.Prelude.{◌≡◌, ◌↔◌, ℤ, pos, None, IfSome};
ghost use Rattle.sd_num.specs.Wrapped.{wrapped};
ghost use Rattle.sd_num.specs.Floor.{IsFloorDivision, floor_quotient, floor_remainder};

use crate::{add, sub};

/// The quotient, rounded towards minus infinity, and the remainder.
fn divided(a: i64, b: i64) -> Option<(i64, i64)>
    ensures none { result ≡ None ↔ b ≡ pos 0 }
    ensures some { IfSome result (λ pair. (quotient : ℤ) × IsFloorDivision a b quotient pair.1 × (pair.0 ≡ wrapped quotient)) }
{
    if b == 0 {
        return None;
    }
    let quotient = a.wrapping_div(b);
    let remainder = a.wrapping_rem(b);
    if remainder != 0 && (remainder < 0) != (b < 0) {
        return Some((sub(quotient, 1), add(remainder, b)));
    }
    Some((quotient, remainder))
}

/// The quotient, rounded towards minus infinity; it wraps for -2^63 by -1. `None` where the
/// divisor is 0.
pub fn floor_div(a: i64, b: i64) -> Option<i64>
    ensures none { result ≡ None ↔ b ≡ pos 0 }
    ensures some { IfSome result (λ quotient. quotient ≡ wrapped (floor_quotient a b)) }
{
    let (quotient, _) = divided(a, b)?;
    Some(quotient)
}

/// The remainder, which is 0 or has the divisor's sign. `None` where the divisor is 0.
pub fn floor_mod(a: i64, b: i64) -> Option<i64>
    ensures none { result ≡ None ↔ b ≡ pos 0 }
    ensures some { IfSome result (λ remainder. remainder ≡ floor_remainder a b) }
{
    let (_, remainder) = divided(a, b)?;
    Some(remainder)
}
