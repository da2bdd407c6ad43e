//! Boxes that share no element.
ghost use Rattle.std.specs.Prelude.{◌≡◌, ◌↔◌, pos, ◌-ℤ◌, ◌*ℤ◌, ◌<ℤ◌, unsigned_abs, IfOk, IfSome, IsTrue};
ghost use Rattle.sd_range.specs.Terms.{coefficient_of};
ghost use Rattle.sd_subset.specs.boxes.Apart as definition;

use crate::boxes::bounds::{Bounds, have_same_terms};
use crate::boxes::fitting::difference_of;
use crate::boxes::replacing::least;
use sd_list::NoMemory;
use sd_range::{Affine, Range};
use std::alloc::Global;

/// Whether the one begins above the other's end.
fn begins_above(
    alloc: Global,
    around: &[(u32, Range)],
    one: &Bounds,
    other: &Bounds,
) -> Result<bool, NoMemory>
    ensures { IfOk result (λ does. (IsTrue does) ↔ (definition.BeginsAbove around.now one.now other.now)) }
{
    let gap = difference_of(alloc, &one.low, &other.high)?;
    let gap = least(alloc, around, &gap)?;
    Ok(gap.terms.as_slice().is_empty() && 0 < gap.constant)
}

/// Whether in some dimension one of the two boxes begins above the other's end, whatever values
/// the parameters around have.
pub fn are_disjoint(
    alloc: Global,
    around: &[(u32, Range)],
    one: &[Bounds],
    other: &[Bounds],
) -> Result<bool, NoMemory>
    ensures { IfOk result (λ are. (IsTrue are) ↔ (definition.AreDisjoint around.now one.now other.now)) }
{
    let mut left = one;
    let mut right = other;
    while let Some((first, firsts)) = left.split_first() {
        let Some((second, seconds)) = right.split_first() else {
            return Ok(false);
        };
        if begins_above(alloc, around, first, second)?
            || begins_above(alloc, around, second, first)?
        {
            return Ok(true);
        }
        left = firsts;
        right = seconds;
    }
    Ok(false)
}

/// Whether none of a map's parameters but this one is in the terms.
fn is_alone(own: &[(u32, Range)], by: u32, a: &Affine) -> bool
    ensures { (IsTrue result) ↔ (definition.IsAlone own.now by a.now) }
{
    for (variable, _) in own {
        if *variable != by && a.terms.coefficient(*variable) != 0 {
            return false;
        }
    }
    true
}

/// Whether all four bounds have the same terms.
fn are_parallel(one: &Bounds, other: &Bounds) -> bool
    ensures { (IsTrue result) ↔ (definition.AreParallel one.now other.now) }
{
    if !have_same_terms(&one.high, &one.low) || !have_same_terms(&other.low, &one.low) {
        return false;
    }
    have_same_terms(&other.high, &one.low)
}

/// How far a step of a parameter moves an expression, up or down.
fn distance_moved(by: &(u32, Range), a: &Affine) -> Option<i128>
    ensures { IfSome result (λ distance. distance ≡ pos (unsigned_abs (coefficient_of a.now.terms by.now.0)) *ℤ by.now.1.step) }
{
    let size = a.terms.coefficient(by.0).checked_abs()?;
    size.checked_mul(by.1.step)
}

/// Whether it is less than a distance from a low bound to a high one.
fn is_within(low: i128, high: i128, distance: i128) -> Option<bool>
    ensures { IfSome result (λ is. (IsTrue is) ↔ ((high -ℤ low) <ℤ distance)) }
{
    let width = high.checked_sub(low)?;
    Some(width < distance)
}

/// Whether a step of a parameter moves the bounds by more than they are wide.
fn is_wide(by: &(u32, Range), one: &Bounds, other: &Bounds) -> Option<bool>
    ensures { IfSome result (λ is. (IsTrue is) ↔ (definition.IsWide by.now one.now other.now)) }
{
    let distance = distance_moved(by, &one.low)?;
    let is_first_within = is_within(other.low.constant, one.high.constant, distance)?;
    let is_other_within = is_within(one.low.constant, other.high.constant, distance)?;
    Some(is_first_within && is_other_within)
}

/// Whether a parameter separates two boxes in one dimension.
fn separates_in(
    own: &[(u32, Range)],
    by: &(u32, Range),
    one: &Bounds,
    other: &Bounds,
) -> Option<bool>
    ensures { IfSome result (λ does. (IsTrue does) ↔ (definition.SeparatesIn own.now by.now one.now other.now)) }
{
    if one.low.terms.coefficient(by.0) == 0 || !is_alone(own, by.0, &one.low) {
        return Some(false);
    }
    if !are_parallel(one, other) {
        return Some(false);
    }
    is_wide(by, one, other)
}

/// Whether two boxes are separated on a parameter of a map that has these. Takes no memory; where
/// a number does not fit 128 bits it answers that there is none.
pub fn are_separated(
    own: &[(u32, Range)],
    by: &(u32, Range),
    one: &[Bounds],
    other: &[Bounds],
) -> Result<bool, NoMemory>
    ensures { IfOk result (λ are. (IsTrue are) ↔ (definition.AreSeparated own.now by.now one.now other.now)) }
{
    let mut left = one;
    let mut right = other;
    while let Some((first, firsts)) = left.split_first() {
        let Some((second, seconds)) = right.split_first() else {
            return Ok(false);
        };
        if separates_in(own, by, first, second).ok_or(NoMemory)? {
            return Ok(true);
        }
        left = firsts;
        right = seconds;
    }
    Ok(false)
}
