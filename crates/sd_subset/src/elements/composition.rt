ghost use Rattle.std.specs.Prelude.{◌≡◌, map, IfOk, IsTrue};
ghost use Rattle.std.specs.List.{All, AllZip};
ghost use Rattle.sd_range.specs.Arithmetic.{affine_sum, IsRepresentable};
ghost use Rattle.sd_subset.specs.elements.Composition.{begins, composed, composition, has_span, last_as_span, moved, outer_dims, FitsMoved, HasUnitStep};

use crate::elements::elements::range_of_dim;
use sd_list::{NoMemory, Sequence};
use sd_range::{Affine, Dim, Range, Subset};
use std::alloc::Global;

/// The outer subset of an inner one, which counts from where the outer ranges begin: each outer
/// range takes the next inner dimension, and there are as many of these. An outer subset without
/// a range counts as one whose last index is the range from it to itself.
pub fn compose(alloc: Global, outer: &Subset, inner: &Subset) -> Result<Subset, NoMemory>
    requires unit_steps { All HasUnitStep outer.now.dims }
    requires fits { AllZip FitsMoved (begins (outer_dims outer.now.dims)) inner.now.dims }
    ensures { IfOk result (λ copy. copy ≡ composition outer.now inner.now) }
{
    let outer = with_span(alloc, outer.dims.as_slice())?;
    let dims = composed_dims(alloc, outer.as_slice(), inner.dims.as_slice())?;
    Ok(Subset {
        dims: Sequence::from(dims),
    })
}

/// Whether one of the dimensions is a range.
fn has_range(dims: &[Dim]) -> bool
    ensures { result ≡ has_span dims.now }
{
    for dim in dims {
        if matches!(dim, Dim::Span(_)) {
            return true;
        }
    }
    false
}

/// The dimensions; where none is a range, the last index is one.
fn with_span(alloc: Global, dims: &[Dim]) -> Result<Vec<Dim>, NoMemory>
    ensures { IfOk result (λ copy. copy.items ≡ outer_dims dims.now) }
{
    let has_range = has_range(dims);
    let mut copy = Vec::with_capacity(alloc, dims.len())?;
    for (i, dim) in dims.iter().enumerate() {
        if has_range || i + 1 < dims.len() {
            copy.push(dim.copy_of(alloc)?)?;
        } else {
            copy.push(Dim::Span(range_of_dim(alloc, dim)?))?;
        }
    }
    Ok(copy)
}

/// The inner dimensions in the places of the outer ranges.
fn composed_dims(alloc: Global, outer: &[Dim], inner: &[Dim]) -> Result<Vec<Dim>, NoMemory>
    requires { AllZip FitsMoved (begins outer.now) inner.now }
    ensures { IfOk result (λ copy. copy.items ≡ composed outer.now inner.now) }
{
    let mut dims = Vec::with_capacity(alloc, outer.len())?;
    let mut left = inner;
    for dim in outer {
        match dim {
            Dim::Index(at) => dims.push(Dim::Index(at.copy_of(alloc)?))?,
            Dim::Span(range) => {
                let Some((first, rest)) = left.split_first() else {
                    unreachable!()
                };
                dims.push(moved_dim(alloc, &range.begin, first)?)?;
                left = rest;
            }
        }
    }
    Ok(dims)
}

/// A dimension counted from `begin`.
fn moved_dim(alloc: Global, begin: &Affine, dim: &Dim) -> Result<Dim, NoMemory>
    requires { FitsMoved begin.now dim.now }
    ensures { IfOk result (λ copy. copy ≡ moved begin.now dim.now) }
{
    match dim {
        Dim::Index(at) => Ok(Dim::Index(begin.plus(alloc, at)?)),
        Dim::Span(range) => Ok(Dim::Span(Range {
            begin: begin.plus(alloc, &range.begin)?,
            ends: Sequence::from(sums(alloc, begin, range.ends.as_slice())?),
            step: range.step,
        })),
    }
}

/// The sum of an expression and each of others.
fn sums(alloc: Global, begin: &Affine, others: &[Affine]) -> Result<Vec<Affine>, NoMemory>
    requires { All (λ other. IsRepresentable (affine_sum begin.now other)) others.now }
    ensures { IfOk result (λ all. all.items ≡ map (affine_sum begin.now) others.now) }
{
    let mut sums = Vec::with_capacity(alloc, others.len())?;
    for other in others {
        sums.push(begin.plus(alloc, other)?)?;
    }
    Ok(sums)
}
