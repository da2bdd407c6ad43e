//! How large expressions and ranges are.
ghost use Rattle.std.specs.Prelude.{◌≡◌, ◌-◌, ◌^◌, min, unsigned_abs};
ghost use Rattle.sd_range.specs.Weight.{weight_of};
ghost use Rattle.sd_validity.specs.rules.WithinLimits as limits;

use sd_range::{Affine, Range};

/// An expression's constant is below this, 2^41.
const CONSTANT_BELOW: u128 = 1 << 41;

/// The most that the sizes of an expression's coefficients are together, 2^10.
const MOST_COEFFICIENTS: u128 = 1 << 10;

/// A step is below this, 2^40.
const STEP_BELOW: i128 = 1 << 40;

/// An expression's constant without its sign.
pub(crate) fn constant_size(a: &Affine) -> u128
    ensures { result ≡ unsigned_abs a.now.constant }
{
    a.constant.unsigned_abs()
}

/// A term's coefficient without its sign.
fn coefficient_size(term: &(u32, i128)) -> u128
    ensures { result ≡ unsigned_abs term.now.1 }
{
    term.1.unsigned_abs()
}

/// The sum of the coefficients' sizes; from 2^128 on it counts as one less.
fn weight(terms: &[(u32, i128)]) -> u128
    ensures { result ≡ min (weight_of terms.now) (2 ^ 128 - 1) }
{
    let mut weight = 0_u128;
    for term in terms {
        weight = weight.saturating_add(coefficient_size(term));
    }
    weight
}

/// Whether an expression's constant and its coefficients are within the limits.
#[tactic(auto, using(crate::proofs::limits_lemmas::Levels::held_within))]
pub(crate) fn is_small(a: &Affine) -> bool
    ensures { result ≡ limits.is_small a.now }
{
    constant_size(a) < CONSTANT_BELOW && weight(a.terms.as_slice()) <= MOST_COEFFICIENTS
}

/// Whether a range has so many ends, and such a step.
pub(crate) fn is_range_small(range: &Range) -> bool
    ensures { result ≡ limits.is_range_small range.now }
{
    let ends = range.ends.len();
    1 <= ends && ends <= 4 && 1 <= range.step && range.step < STEP_BELOW
}
