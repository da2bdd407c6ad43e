//! Boxes that share no element at two points of a map.
ghost use Rattle.std.specs.Prelude.{◌≡◌, ◌↔◌, ◌⊎◌, IfOk, IsTrue};
ghost use Rattle.sd_range.specs.Arithmetic.{affine_difference};
ghost use Rattle.sd_subset.specs.boxes.Apart as definition;
ghost use Rattle.sd_subset.specs.boxes.Box as boxes;

use crate::boxes::apart::{are_disjoint, are_separated};
use crate::boxes::bounds::Bounds;
use crate::boxes::fitting::difference_of;
use crate::boxes::replacing::{greatest, replaced};
use sd_list::NoMemory;
use sd_range::{Affine, Range};
use std::alloc::Global;

/// Whether less than a step of a parameter fits between its begin and this end.
fn is_near(
    alloc: Global,
    around: &[(u32, Range)],
    parameter: &(u32, Range),
    end: &Affine,
) -> Result<bool, NoMemory>
    ensures { IfOk result (λ is. (IsTrue is) ↔ (definition.IsBelow (boxes.greatest around.now (affine_difference end.now parameter.now.1.begin)) parameter.now.1.step)) }
{
    let length = difference_of(alloc, end, &parameter.1.begin)?;
    let length = greatest(alloc, around, &length)?;
    Ok(length.terms.as_slice().is_empty() && length.constant < parameter.1.step)
}

/// Whether a parameter has one value, seen from the greatest distance of an end to its begin.
pub fn is_single(
    alloc: Global,
    around: &[(u32, Range)],
    parameter: &(u32, Range),
) -> Result<bool, NoMemory>
    ensures { IfOk result (λ is. (IsTrue is) ↔ (definition.IsSingle around.now parameter.now)) }
{
    for end in parameter.1.ends.as_slice() {
        if is_near(alloc, around, parameter, end)? {
            return Ok(true);
        }
    }
    Ok(false)
}

/// Whether two boxes are apart, with a map's parameters replaced in both.
pub fn are_apart(
    alloc: Global,
    around: &[(u32, Range)],
    own: &[(u32, Range)],
    one: &[Bounds],
    other: &[Bounds],
) -> Result<bool, NoMemory>
    ensures { IfOk result (λ are. (IsTrue are) ↔ (definition.AreApart around.now own.now one.now other.now)) }
{
    let one = replaced(alloc, own, one)?;
    let other = replaced(alloc, own, other)?;
    are_disjoint(alloc, around, one.as_slice(), other.as_slice())
}

/// Whether a parameter separates two boxes, or is single.
fn is_settled(
    alloc: Global,
    around: &[(u32, Range)],
    own: &[(u32, Range)],
    by: &(u32, Range),
    one: &[Bounds],
    other: &[Bounds],
) -> Result<bool, NoMemory>
    ensures { IfOk result (λ is. (IsTrue is) ↔ (definition.IsSingle around.now by.now ⊎ definition.AreSeparated own.now by.now one.now other.now)) }
{
    if are_separated(own, by, one, other)? {
        return Ok(true);
    }
    is_single(alloc, around, by)
}

/// Whether two boxes are separated on each parameter of a map that is not single.
fn are_all_separated(
    alloc: Global,
    around: &[(u32, Range)],
    own: &[(u32, Range)],
    one: &[Bounds],
    other: &[Bounds],
) -> Result<bool, NoMemory>
    ensures { IfOk result (λ are. (IsTrue are) ↔ (definition.AreAllSeparated around.now own.now one.now other.now)) }
{
    for by in own {
        if !is_settled(alloc, around, own, by, one, other)? {
            return Ok(false);
        }
    }
    Ok(true)
}

/// Whether two boxes share no element at two points of a map, as far as their bounds show.
pub fn are_harmless(
    alloc: Global,
    around: &[(u32, Range)],
    own: &[(u32, Range)],
    one: &[Bounds],
    other: &[Bounds],
) -> Result<bool, NoMemory>
    ensures { IfOk result (λ are. (IsTrue are) ↔ (definition.AreHarmless around.now own.now one.now other.now)) }
{
    if are_all_separated(alloc, around, own, one, other)? {
        return Ok(true);
    }
    are_apart(alloc, around, own, one, other)
}
