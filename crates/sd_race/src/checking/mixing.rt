//! Numbers that are the same where two things are, and mostly others where they are not. Nothing rests on them but time.

use sd_prop::{Access, Over, Scope};
use sd_range::{Affine, Range};
use sd_subset::Bounds;
use sd_wire::UseMode;

/// What a number is multiplied by before another is added: a prime above most of what is mixed.
const FACTOR: i128 = 1_000_000_007;

/// A number with one more mixed into it.
pub(crate) fn mixed(mix: i128, number: i128) -> i128 {
    mix.wrapping_mul(FACTOR).wrapping_add(number)
}

/// A number for each kind of mode.
pub(crate) fn mode_number(mode: UseMode) -> u32 {
    match mode {
        UseMode::Read => 0,
        UseMode::Write => 1,
        UseMode::Resolve(_) => 2,
        UseMode::Push => 3,
        UseMode::Take => 4,
    }
}

/// With the terms of an expression.
pub(crate) fn with_terms(mix: i128, a: &Affine) -> i128 {
    let mut mix = mixed(mix, 1);
    for (variable, coefficient) in a.terms.as_slice() {
        mix = mixed(mixed(mix, i128::from(*variable)), *coefficient);
    }
    mix
}

/// With an expression.
fn with_affine(mix: i128, a: &Affine) -> i128 {
    mixed(with_terms(mix, a), a.constant)
}

/// With bounds.
fn with_bounds(mix: i128, bounds: &[Bounds]) -> i128 {
    let mut mix = mixed(mix, 2);
    for one in bounds {
        mix = with_affine(with_affine(mix, &one.low), &one.high);
    }
    mix
}

/// With an access.
fn with_access(mix: i128, access: &Access) -> i128 {
    let mix = mixed(mix, i128::from(access.container()));
    let mix = mixed(mix, i128::from(mode_number(access.mode())));
    with_bounds(mix, access.bounds())
}

/// With parameters.
fn with_params(mix: i128, params: &[(u32, Range)]) -> i128 {
    let mut mix = mixed(mix, 3);
    for (variable, range) in params {
        mix = mixed(mix, i128::from(*variable));
        mix = with_affine(mixed(mix, range.step), &range.begin);
    }
    mix
}

/// A number for a scope, wherever it stands.
pub(crate) fn digest_of(scope: &Scope<'_>) -> i128 {
    let mut mix = with_params(0, scope.around());
    if let Over::Points { params, sequential } = scope.over() {
        mix = with_params(mixed(mix, i128::from(*sequential)), params.as_slice());
    }
    for access in scope.accesses() {
        mix = with_access(mix, access);
    }
    mix
}
