//! Arithmetic that refuses where its numbers may not fit 128 bits: as want of memory.
ghost use Rattle.std.specs.Prelude.{◌≡◌, ◌<◌, ◌+◌, ◌*◌, ◌^◌, pos, ◌-ℤ◌, ◌*ℤ◌, unsigned_abs, IfOk, IfSome, IsTrue};
ghost use Rattle.sd_range.specs.Arithmetic.{affine_difference, substituted};
ghost use Rattle.sd_range.specs.Weight as weights;

use sd_list::NoMemory;
use sd_range::Affine;
use std::alloc::Global;

/// The sum of the sizes of coefficients.
fn weight_of(terms: &[(u32, i128)]) -> Option<u128>
    ensures { IfSome result (λ weight. weight ≡ weights.weight_of terms.now) }
{
    let mut sum = 0_u128;
    for (_, coefficient) in terms {
        sum = sum.checked_add(coefficient.unsigned_abs())?;
    }
    Some(sum)
}

/// Whether a number and another so many times are small together.
fn are_small(own: u128, factor: u128, other: u128) -> bool
    ensures { IsTrue result → own + factor * other < 2 ^ 127 }
{
    let Some(product) = factor.checked_mul(other) else {
        return false;
    };
    match own.checked_add(product) {
        Some(sum) => sum < 1 << 127,
        None => false,
    }
}

/// Whether the terms of two expressions, the other so many times, are small together.
fn have_small_terms(a: &Affine, factor: i128, b: &Affine) -> bool
    ensures { IsTrue result → weights.weight_of a.now.terms + unsigned_abs factor * weights.weight_of b.now.terms < 2 ^ 127 }
{
    let Some(own) = weight_of(a.terms.as_slice()) else {
        return false;
    };
    let Some(other) = weight_of(b.terms.as_slice()) else {
        return false;
    };
    are_small(own, factor.unsigned_abs(), other)
}

/// Whether the constants of two expressions, the other so many times, are small together.
fn have_small_constants(a: &Affine, factor: i128, b: &Affine) -> bool
    ensures { IsTrue result → unsigned_abs a.now.constant + unsigned_abs factor * unsigned_abs b.now.constant < 2 ^ 127 }
{
    are_small(
        a.constant.unsigned_abs(),
        factor.unsigned_abs(),
        b.constant.unsigned_abs(),
    )
}

/// Whether an expression and another so many times are small together.
fn are_small_together(a: &Affine, factor: i128, b: &Affine) -> bool
    ensures constants { IsTrue result → unsigned_abs a.now.constant + unsigned_abs factor * unsigned_abs b.now.constant < 2 ^ 127 }
    ensures terms { IsTrue result → weights.weight_of a.now.terms + unsigned_abs factor * weights.weight_of b.now.terms < 2 ^ 127 }
{
    if !have_small_constants(a, factor, b) {
        return false;
    }
    have_small_terms(a, factor, b)
}

/// An expression less another.
pub(crate) fn difference_of(alloc: Global, a: &Affine, b: &Affine) -> Result<Affine, NoMemory>
    ensures { IfOk result (λ difference. difference ≡ affine_difference a.now b.now) }
{
    if !are_small_together(a, -1, b) {
        return Err(NoMemory);
    }
    a.minus(alloc, b)
}

/// An expression with another in the place of a variable.
pub(crate) fn with_in_place(
    alloc: Global,
    variable: u32,
    by: &Affine,
    a: &Affine,
) -> Result<Affine, NoMemory>
    ensures { IfOk result (λ all. all ≡ substituted variable by.now a.now) }
{
    if !are_small_together(a, a.terms.coefficient(variable), by) {
        return Err(NoMemory);
    }
    a.substituted(alloc, variable, by)
}
