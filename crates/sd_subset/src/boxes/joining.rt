//! The hull of boxes.
ghost use Rattle.std.specs.Prelude.{◌≡◌, ◌↔◌, IfOk, IsTrue, option_map, drop, map};
ghost use Rattle.std.specs.List.{flat_map};
ghost use Rattle.sd_subset.specs.boxes.Hull as definition;
ghost use Rattle.sd_subset.specs.boxes.Columns.{column, widest_of, bounds_in};

use crate::boxes::bounds::{Bounds, have_same_terms};
use sd_list::{NoMemory, Sequence};
use sd_range::Affine;
use std::alloc::Global;

/// The bounds of one dimension that are the widest so far.
#[derive(Clone, Copy)]
struct Widest<'a> {
    low: &'a Affine,
    high: &'a Affine,
}

/// Bounds with none beside them.
fn alone(bounds: &Bounds) -> Widest<'_>
    ensures { bounds_in result ≡ bounds.now }
{
    Widest {
        low: &bounds.low,
        high: &bounds.high,
    }
}

/// Whether both bounds differ from the first ones by constants.
fn is_level(first: Widest<'_>, other: &Bounds) -> bool
    ensures level { result ≡ definition.is_level (bounds_in first.entry) other.now }
    ensures low { IsTrue result → first.entry.low.now.terms ≡ other.now.low.terms }
    ensures high { IsTrue result → first.entry.high.now.terms ≡ other.now.high.terms }
{
    if !have_same_terms(first.low, &other.low) {
        return false;
    }
    have_same_terms(first.high, &other.high)
}

/// The lesser of two lower bounds, and the greater of two upper ones.
fn wider<'a>(widest: Widest<'a>, other: &'a Bounds) -> Widest<'a>
    ensures { bounds_in result ≡ definition.wider (bounds_in widest.entry) other.now }
{
    let low = if other.low.constant < widest.low.constant {
        &other.low
    } else {
        widest.low
    };
    let high = if widest.high.constant < other.high.constant {
        &other.high
    } else {
        widest.high
    };
    Widest { low, high }
}

/// The widest bounds of one dimension; `None` where there is no box, or they cannot be compared.
fn widest_in(boxes: &[Sequence<Bounds>], dimension: usize) -> Option<Widest<'_>>
    ensures { option_map bounds_in result ≡ widest_of (column dimension boxes.now) }
{
    let mut widest = None;
    for one in boxes {
        let Some(bounds) = one.as_slice().get(dimension) else {
            continue;
        };
        widest = match widest {
            None => Some(alone(bounds)),
            Some(known) if is_level(known, bounds) => Some(wider(known, bounds)),
            Some(_) => return None,
        };
    }
    widest
}

/// The hull of the bounds of one dimension.
fn hull_bounds(
    alloc: Global,
    extent: u64,
    boxes: &[Sequence<Bounds>],
    dimension: usize,
) -> Result<Bounds, NoMemory>
    ensures { IfOk result (λ bounds. bounds ≡ definition.hull_bounds extent (column dimension boxes.now)) }
{
    match widest_in(boxes, dimension) {
        Some(widest) => Ok(Bounds {
            low: widest.low.copy_of(alloc)?,
            high: widest.high.copy_of(alloc)?,
        }),
        None => Ok(Bounds {
            low: Affine::constant(alloc, 0),
            high: Affine::constant(alloc, i128::from(extent) - 1),
        }),
    }
}

/// The hull of boxes of one container of these extents: in each dimension the lesser lower bound
/// and the greater upper bound where they differ by constants, else the whole dimension.
pub fn hull(
    alloc: Global,
    extents: &[u64],
    boxes: &[Sequence<Bounds>],
) -> Result<Sequence<Bounds>, NoMemory>
    ensures { IfOk result (λ all. all ≡ definition.hull extents.now boxes.now) }
{
    let mut all = Vec::with_capacity(alloc, extents.len())?;
    for (dimension, extent) in extents.iter().enumerate() {
        all.push(hull_bounds(alloc, *extent, boxes, dimension)?)?;
    }
    Ok(Sequence::from(all))
}
