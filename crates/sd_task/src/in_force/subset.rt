ghost use Rattle.std.specs.Prelude.{◌≡◌, ◌∷◌, [], IfOk};
ghost use Rattle.std.specs.List.{AllByRecursion};
ghost use Rattle.sd_lex.specs.TreeFold.{dimension_of, dimensions_of};
ghost use Rattle.sd_program.specs.Bounds.{EachEnd, EachDimension};
ghost use Rattle.sd_program.specs.Small.{IsSmall, IsWithinLimits};
ghost use Rattle.sd_task.specs.in_force.Subsets as definition;

use crate::in_force::expression::{affine, number};
use crate::in_force::range::{affine_or, range_between};
use crate::in_force::scope::Scope;
use sd_lex::Slot;
use sd_list::NoMemory;
use sd_range::{Affine, Dim};
use std::alloc::Global;

/// The whole of a container.
fn whole(alloc: Global, extents: &[Affine]) -> Result<Vec<Dim>, NoMemory>
    requires { AllByRecursion IsWithinLimits extents.now }
    ensures { IfOk result (λ dims. dims.items ≡ definition.whole extents.now) }
{
    let mut dims = Vec::with_capacity(alloc, extents.len())?;
    for extent in extents {
        dims.push(Dim::Span(range_between(alloc, number(alloc, 0), extent, None)?))?;
    }
    Ok(dims)
}

/// The first element of a container.
fn first_element(alloc: Global, extents: &[Affine]) -> Result<Vec<Dim>, NoMemory>
    ensures { IfOk result (λ dims. dims.items ≡ definition.first_element extents.now) }
{
    let mut dims = Vec::with_capacity(alloc, extents.len())?;
    for _extent in extents {
        dims.push(Dim::Index(number(alloc, 0)))?;
    }
    Ok(dims)
}

/// One dimension: an end that is left out is the extent.
#[tactic(auto, using(crate::proofs::in_force_lemmas::SmallLemmas::zero_within))]
fn dim(alloc: Global, variables: &Scope, slot: &Slot, extent: &Affine) -> Result<Dim, NoMemory>
    requires small { EachEnd IsSmall (dimension_of slot.now) }
    requires within { IsWithinLimits extent.now }
    ensures { IfOk result (λ dim. dim ≡ definition.dim_of variables.now (dimension_of slot.now) extent.now) }
{
    match slot {
        Slot::Index(at) => Ok(Dim::Index(affine(alloc, variables, at)?)),
        Slot::Span { begin, end, step } => {
            let zero = number(alloc, 0);
            let begin = affine_or(alloc, &zero, variables, begin)?;
            let end = affine_or(alloc, extent, variables, end)?;
            Ok(Dim::Span(range_between(alloc, begin, &end, *step)?))
        }
    }
}

/// Dimensions as they are written, each with its extent.
fn dims(
    alloc: Global,
    variables: &Scope,
    slots: &[Slot],
    extents: &[Affine],
) -> Result<Vec<Dim>, NoMemory>
    requires small { EachDimension IsSmall (dimensions_of slots.now) }
    requires within { AllByRecursion IsWithinLimits extents.now }
    ensures { IfOk result (λ dims. dims.items ≡ definition.dims_of variables.now (dimensions_of slots.now) extents.now) }
{
    let mut dims = Vec::with_capacity(alloc, slots.len())?;
    for (slot, extent) in slots.iter().zip(extents) {
        dims.push(dim(alloc, variables, slot, extent)?)?;
    }
    Ok(dims)
}

/// A subset: without a dimension it is the whole container.
pub fn subset_of(
    alloc: Global,
    variables: &Scope,
    slots: &[Slot],
    extents: &[Affine],
) -> Result<Vec<Dim>, NoMemory>
    requires small { EachDimension IsSmall (dimensions_of slots.now) }
    requires within { AllByRecursion IsWithinLimits extents.now }
    ensures { IfOk result (λ dims. dims.items ≡ definition.subset_of variables.now (dimensions_of slots.now) extents.now) }
{
    if slots.is_empty() {
        whole(alloc, extents)
    } else {
        dims(alloc, variables, slots, extents)
    }
}

/// Whether each extent is the constant 1.
fn are_units(extents: &[Affine]) -> bool
    ensures { result ≡ definition.are_units extents.now }
{
    for extent in extents {
        if extent.constant != 1 || !extent.terms.as_slice().is_empty() {
            return false;
        }
    }
    true
}

/// The subset of a tasklet's connector: without a dimension it is the element of a container that
/// has one alone.
pub fn connector_subset(
    alloc: Global,
    variables: &Scope,
    slots: &[Slot],
    extents: &[Affine],
) -> Result<Vec<Dim>, NoMemory>
    requires small { EachDimension IsSmall (dimensions_of slots.now) }
    requires within { AllByRecursion IsWithinLimits extents.now }
    ensures { IfOk result (λ dims. dims.items ≡ definition.connector_subset variables.now (dimensions_of slots.now) extents.now) }
{
    if slots.is_empty() && are_units(extents) {
        first_element(alloc, extents)
    } else {
        subset_of(alloc, variables, slots, extents)
    }
}
