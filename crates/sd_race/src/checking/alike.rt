//! Whether two scopes are alike: they differ in their paths and containers alone, as those of two calls of a program may.
ghost use Rattle.std.specs.Prelude.{◌≡◌, IsTrue};
ghost use Rattle.std.specs.List.{Contains};
ghost use Rattle.sd_prop.specs.collecting.Plain.{over_of};
ghost use Rattle.sd_prop.specs.propagation.Scopes as plain;
ghost use Rattle.sd_race.specs.checking.Clear.{AreAlike};

use sd_prop::{Access, Over, Scope};
use sd_range::Range;
use sd_subset::Bounds;

/// Whether parameters are the same.
fn have_same_ranges(params: &[(u32, Range)], others: &[(u32, Range)]) -> bool
    ensures { IsTrue result → params.now ≡ others.now }
{
    let mut left = params;
    let mut right = others;
    while let Some((first, firsts)) = left.split_first() {
        let Some((second, seconds)) = right.split_first() else {
            return false;
        };
        if first.0 != second.0 || !first.1.same(&second.1) {
            return false;
        }
        left = firsts;
        right = seconds;
    }
    right.is_empty()
}

/// Whether what is done for is the same.
fn is_same_over(over: &Over, other: &Over) -> bool
    ensures { IsTrue result → over_of over.now ≡ over_of other.now }
{
    match (over, other) {
        (
            Over::Points { params, sequential },
            Over::Points {
                params: others,
                sequential: marked,
            },
        ) => sequential == marked && have_same_ranges(params.as_slice(), others.as_slice()),
        (Over::Elements, Over::Elements) => true,
        _ => false,
    }
}

/// Whether boxes are the same.
fn is_same_box(bounds: &[Bounds], others: &[Bounds]) -> bool
    ensures { IsTrue result → bounds.now ≡ others.now }
{
    let mut left = bounds;
    let mut right = others;
    while let Some((first, firsts)) = left.split_first() {
        let Some((second, seconds)) = right.split_first() else {
            return false;
        };
        if !first.low.same(&second.low) || !first.high.same(&second.high) {
            return false;
        }
        left = firsts;
        right = seconds;
    }
    right.is_empty()
}

/// Whether two accesses are the same.
fn is_same_access(access: &Access, other: &Access) -> bool
    ensures { IsTrue result → access.now ≡ other.now }
{
    access.node() == other.node()
        && access.container() == other.container()
        && access.mode() == other.mode()
        && is_same_box(access.bounds(), other.bounds())
}

/// Whether accesses are the same.
fn have_same_accesses(accesses: &[Access], others: &[Access]) -> bool
    ensures { IsTrue result → accesses.now ≡ others.now }
{
    let mut left = accesses;
    let mut right = others;
    while let Some((first, firsts)) = left.split_first() {
        let Some((second, seconds)) = right.split_first() else {
            return false;
        };
        if !is_same_access(first, second) {
            return false;
        }
        left = firsts;
        right = seconds;
    }
    right.is_empty()
}

/// Whether two scopes are alike.
fn are_alike(scope: &Scope<'_>, other: &Scope<'_>) -> bool
    ensures { IsTrue result → AreAlike scope.now other.now }
{
    have_same_ranges(scope.around(), other.around())
        && is_same_over(scope.over(), other.over())
        && have_same_accesses(scope.accesses(), other.accesses())
}

/// Whether a scope is like the one with this number.
pub(crate) fn is_like_earlier(
    scope: &Scope<'_>,
    earlier: &[Scope<'_>],
    number: Option<usize>,
) -> bool
    ensures { IsTrue result → (other : plain.Scope) × Contains earlier.now other × AreAlike scope.now other }
{
    let Some(number) = number else {
        return false;
    };
    match earlier.get(number) {
        Some(other) => are_alike(scope, other),
        None => false,
    }
}
