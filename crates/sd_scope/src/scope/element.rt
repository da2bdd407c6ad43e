//! The numbers of elements in row order.
ghost use Rattle.std.specs.Prelude.{◌≡◌, ◌+◌, ◌*◌, pos, ◌+ℤ◌, ◌*ℤ◌, unsigned_abs, ◌&&◌, int_le, int_lt, Some, None, ℤ, List, [], ◌∷◌, if◌then◌else◌, IfOk};
ghost use Rattle.sd_range.specs.Affine.{affine_value};
ghost use Rattle.sd_range.specs.declared.subset.Dim.{Dim as DimNow};
ghost use Rattle.sd_graph.specs.Context.{found, index_at};
ghost use Rattle.sd_scope.specs.scope.Standing.{constants_of, found_through};

use crate::scope::base::View;
use crate::scope::evaluation::{plus_product, value_of};
use sd_graph::Container;
use sd_list::NoMemory;
use sd_range::{Affine, Dim, Range};
use sd_subset::contains;
use std::alloc::Global;

/// One number more of an index: the place among so many elements of the extent, where the number is inside.
fn further(place: u64, extent: u128, number: &i128) -> Result<Option<u64>, NoMemory>
    ensures { IfOk result (λ next. next ≡ (if (int_le (pos 0) number.now && int_lt number.now (pos extent)) then Some (place * extent + unsigned_abs number.now) else None)) }
{
    if *number < 0 || number.unsigned_abs() >= extent {
        return Ok(None);
    }
    let extent = u64::try_from(extent).map_err(|_| NoMemory)?;
    let number = u64::try_from(*number).map_err(|_| NoMemory)?;
    let rows = place.checked_mul(extent).ok_or(NoMemory)?;
    let next = rows.checked_add(number).ok_or(NoMemory)?;
    Ok(Some(next))
}

/// The element of a container at an index, where that is inside. Takes no memory.
pub(crate) fn element_of(container: &Container, index: &[i128]) -> Result<Option<u64>, NoMemory>
    ensures { IfOk result (λ element. element ≡ found container.now index.now) }
{
    element_among(container.extents.as_slice(), index)
}

/// The element of an array without extents.
pub(crate) fn none_of(index: &[i128]) -> Option<u64>
    ensures { result ≡ found_through [] [] index.now }
{
    if index.is_empty() { Some(0) } else { None }
}

/// The element of an array whose extents are these constants.
fn element_among(extents: &[Affine], index: &[i128]) -> Result<Option<u64>, NoMemory>
    ensures { IfOk result (λ element. element ≡ found_through [] (constants_of extents.now) index.now) }
{
    if extents.len() != index.len() {
        return Ok(None);
    }
    let mut place = 0;
    for i in 0..extents.len() {
        let Some(next) = further(place, size_of(&extents[i]), &index[i])? else {
            return Ok(None);
        };
        place = next;
    }
    Ok(Some(place))
}

/// Where a dimension begins: at its index, or at the begin of its range.
fn begin_of(dim: &Dim) -> &Affine
    ensures { (dims : List DimNow) (values : List ℤ) → index_at (dim.now ∷ dims) values [] ≡ affine_value values result.now ∷ index_at dims values [] }
{
    match dim {
        Dim::Index(number) => number,
        Dim::Span(range) => &range.begin,
    }
}

/// The element of an array, whose extents are these constants, where each dimension begins.
pub(crate) fn element_at_begin(
    extents: &[Affine],
    dims: &[Dim],
    values: &[i128],
) -> Result<Option<u64>, NoMemory>
    ensures { IfOk result (λ element. element ≡ found_through [] (constants_of extents.now) (index_at dims.now values.now [])) }
{
    if extents.len() != dims.len() {
        return Ok(None);
    }
    let mut place = 0;
    for i in 0..extents.len() {
        let number = value_of(begin_of(&dims[i]), values)?;
        let Some(next) = further(place, size_of(&extents[i]), &number)? else {
            return Ok(None);
        };
        place = next;
    }
    Ok(Some(place))
}

/// The extent that a constant stands for.
pub(crate) fn size_of(extent: &Affine) -> u128
    ensures { result ≡ unsigned_abs extent.now.constant }
{
    extent.constant.unsigned_abs()
}

/// The element of an array of these extents at an index, where that is inside. Takes no memory.
fn element_in(extents: &[u64], index: &[i128]) -> Result<Option<u64>, NoMemory>
    ensures { IfOk result (λ element. element ≡ found_through [] extents.now index.now) }
{
    if extents.len() != index.len() {
        return Ok(None);
    }
    let mut place = 0;
    for i in 0..extents.len() {
        let Some(next) = further(place, u128::from(extents[i]), &index[i])? else {
            return Ok(None);
        };
        place = next;
    }
    Ok(Some(place))
}

/// The element at the end of a way, where the index is inside each view on it.
pub(crate) fn element_through(
    alloc: Global,
    views: &[View],
    extents: &[u64],
    index: &[i128],
) -> Result<Option<u64>, NoMemory>
    ensures { IfOk result (λ element. element ≡ found_through views.now extents.now index.now) }
{
    let Some((view, others)) = views.split_first() else {
        return element_in(extents, index);
    };
    if !contains(view.extents.as_slice(), index) {
        return Ok(None);
    }
    let at = index_at(
        alloc,
        view.subset.dims.as_slice(),
        view.values.as_slice(),
        index,
    )?;
    element_through(alloc, others, extents, at.as_slice())
}

/// The index at a place in a subset; without a number for a range it is the range's begin.
pub(crate) fn index_at(
    alloc: Global,
    dims: &[Dim],
    values: &[i128],
    at: &[i128],
) -> Result<Vec<i128>, NoMemory>
    ensures { IfOk result (λ index. index.items ≡ index_at dims.now values.now at.now) }
{
    let mut index = Vec::with_capacity(alloc, dims.len())?;
    let mut left = at;
    for dim in dims {
        match dim {
            Dim::Index(number) => index.push(value_of(number, values)?)?,
            Dim::Span(range) => match left.split_first() {
                None => index.push(value_of(&range.begin, values)?)?,
                Some((number, rest)) => {
                    index.push(number_of(range, values, *number)?)?;
                    left = rest;
                }
            },
        }
    }
    Ok(index)
}

/// The value of a range that has this number.
fn number_of(range: &Range, values: &[i128], number: i128) -> Result<i128, NoMemory>
    ensures { IfOk result (λ value. value ≡ affine_value values.now range.now.begin +ℤ (range.now.step *ℤ number)) }
{
    plus_product(value_of(&range.begin, values)?, range.step, number)
}
