//! How many values ranges have, as affine expressions.
ghost use Rattle.std.specs.Prelude.{◌≡◌, ◌-ℤ◌, ◌++◌, pos, [], map, IfOk};
ghost use Rattle.std.specs.List.{list_all};
ghost use Rattle.std.specs.Ordering.{int_eq};
ghost use Rattle.sd_range.specs.Arithmetic.{affine_zero};
ghost use Rattle.sd_validity.specs.rules.Shapes as shapes;
ghost use Rattle.sd_links.specs.ExtentOf.{extent_of};

use sd_list::NoMemory;
use sd_range::{Affine, Range};
use std::alloc::Global;

/// A last number and a first one: as many as there are from the first to the last.
#[derive(Clone, Copy)]
pub(crate) struct Extent<'a> {
    last: &'a Affine,
    begin: &'a Affine,
}

/// Whether two numbers are as far apart as two others, in the same order.
#[tactic(auto, using(crate::proofs::Differences::below_alike, crate::proofs::Differences::above_alike, crate::proofs::Differences::below_above, crate::proofs::Differences::above_below))]
fn is_difference_same(a: i128, b: i128, other: i128, less: i128) -> bool
    ensures { result ≡ int_eq (a -ℤ b) (other -ℤ less) }
{
    if a < b {
        other < less && a.abs_diff(b) == other.abs_diff(less)
    } else {
        less <= other && a.abs_diff(b) == other.abs_diff(less)
    }
}

/// Whether the coefficients of a variable differ alike.
fn is_coefficient_same(extent: Extent<'_>, other: Extent<'_>, variable: u32) -> bool
    ensures { result ≡ shapes.is_coefficient_same (extent_of extent.entry) (extent_of other.entry) variable }
{
    is_difference_same(
        extent.last.terms.coefficient(variable),
        extent.begin.terms.coefficient(variable),
        other.last.terms.coefficient(variable),
        other.begin.terms.coefficient(variable),
    )
}

/// Whether those of the variables of an expression do.
fn are_coefficients_same(extent: Extent<'_>, other: Extent<'_>, a: &Affine) -> bool
    ensures { result ≡ list_all (shapes.is_coefficient_same (extent_of extent.entry) (extent_of other.entry)) (shapes.variables_in a.now) }
{
    for (variable, _) in a.terms.as_slice() {
        if !is_coefficient_same(extent, other, *variable) {
            return false;
        }
    }
    true
}

/// Whether the coefficients of each variable of both extents differ alike.
#[tactic(auto, using(crate::proofs::FourLists::first_fails, crate::proofs::FourLists::second_fails, crate::proofs::FourLists::third_fails, crate::proofs::FourLists::fourth_decides))]
fn are_variables_same(extent: Extent<'_>, other: Extent<'_>) -> bool
    ensures { result ≡ list_all (shapes.is_coefficient_same (extent_of extent.entry) (extent_of other.entry))
        ((shapes.variables_in (extent_of extent.entry).last ++ shapes.variables_in (extent_of extent.entry).begin) ++ (shapes.variables_in (extent_of other.entry).last ++ shapes.variables_in (extent_of other.entry).begin)) }
{
    if !are_coefficients_same(extent, other, extent.last) {
        return false;
    }
    if !are_coefficients_same(extent, other, extent.begin) {
        return false;
    }
    if !are_coefficients_same(extent, other, other.last) {
        return false;
    }
    are_coefficients_same(extent, other, other.begin)
}

/// Whether both are as many, whatever the variables are.
fn is_extent_same(extent: Extent<'_>, other: Extent<'_>) -> bool
    ensures { result ≡ shapes.is_extent_same (extent_of extent.entry) (extent_of other.entry) }
{
    is_difference_same(
        extent.last.constant,
        extent.begin.constant,
        other.last.constant,
        other.begin.constant,
    ) && are_variables_same(extent, other)
}

/// Whether the extents of two lists are, one after another.
#[tactic(auto, using(crate::proofs::Pairs::extents_apart, crate::proofs::Pairs::extents_next))]
pub(crate) fn are_extents_same(extents: &[Extent<'_>], others: &[Extent<'_>]) -> bool
    ensures { result ≡ shapes.are_extents_same (map extent_of extents.now) (map extent_of others.now) }
{
    if extents.len() != others.len() {
        return false;
    }
    for (number, extent) in extents.iter().enumerate() {
        if !is_extent_same(*extent, others[number]) {
            return false;
        }
    }
    true
}

/// Whether each range has the step 1.
pub(crate) fn are_steps_one(ranges: &[&Range]) -> bool
    ensures { result ≡ shapes.are_steps_one (map (λ range. range.now) ranges.now) }
{
    for range in ranges {
        if range.step != 1 {
            return false;
        }
    }
    true
}

/// The numbers 0 and 1, for extents that begin or end at them.
#[derive(Drop)]
pub(crate) struct Numbers {
    zero: Affine,
    one: Affine,
}

impl Numbers {
    pub(crate) fn new(alloc: Global) -> Numbers
        ensures zero { result.zero ≡ affine_zero }
        ensures one { result.one ≡ record { constant = pos 1; terms = [] } }
    {
        Numbers {
            zero: Affine::constant(alloc, 0),
            one: Affine::constant(alloc, 1),
        }
    }
}

/// The extent of a range, by its first end.
fn range_extent<'a>(numbers: &'a Numbers, range: &'a Range) -> Extent<'a>
    requires { numbers.now.zero ≡ affine_zero }
    ensures { extent_of result ≡ shapes.range_extent range.now }
{
    let last = match range.ends.as_slice().first() {
        Some(end) => end,
        None => &numbers.zero,
    };
    Extent {
        last,
        begin: &range.begin,
    }
}

/// Those of ranges.
pub(crate) fn range_extents<'a>(
    alloc: Global,
    numbers: &'a Numbers,
    ranges: &[&'a Range],
) -> Result<Vec<Extent<'a>>, NoMemory>
    requires { numbers.now.zero ≡ affine_zero }
    ensures { IfOk result (λ extents. map extent_of extents.items ≡ map shapes.range_extent (map (λ range. range.now) ranges.now)) }
{
    let mut extents = Vec::with_capacity(alloc, ranges.len())?;
    for range in ranges {
        extents.push(range_extent(numbers, *range))?;
    }
    Ok(extents)
}

/// Those of ranges; without a range it is one value in one dimension.
pub(crate) fn shape_of<'a>(
    alloc: Global,
    numbers: &'a Numbers,
    ranges: &[&'a Range],
) -> Result<Vec<Extent<'a>>, NoMemory>
    requires { numbers.now.zero ≡ affine_zero }
    ensures { IfOk result (λ extents. map extent_of extents.items ≡ shapes.shape_of (map (λ range. range.now) ranges.now)) }
{
    let mut extents = range_extents(alloc, numbers, ranges)?;
    if extents.is_empty() {
        extents.push(Extent {
            last: &numbers.zero,
            begin: &numbers.zero,
        })?;
    }
    Ok(extents)
}

/// Those of the dimensions of a container, each from 1 to its extent.
pub(crate) fn dim_extents<'a>(
    alloc: Global,
    numbers: &'a Numbers,
    dims: &'a [Affine],
) -> Result<Vec<Extent<'a>>, NoMemory>
    requires { numbers.now.one ≡ record { constant = pos 1; terms = [] } }
    ensures { IfOk result (λ extents. map extent_of extents.items ≡ map shapes.dim_extent dims.now) }
{
    let mut extents = Vec::with_capacity(alloc, dims.len())?;
    for last in dims {
        extents.push(Extent {
            last,
            begin: &numbers.one,
        })?;
    }
    Ok(extents)
}
