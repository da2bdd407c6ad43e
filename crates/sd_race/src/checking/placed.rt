//! Accesses in an order that puts those that are like each other side by side.
ghost use Rattle.std.specs.Prelude.{map, IfOk};
ghost use Rattle.std.specs.List.Sorted.{IsPermutation};

use crate::checking::mixing::{mode_number, with_terms};
use sd_list::NoMemory;
use sd_prop::Access;
use sd_subset::Bounds;
use std::alloc::Global;

/// Where an access goes: by its container, its mode, the terms of its bounds and the constants of its lower ones.
#[derive(Clone, Copy, PartialEq, Eq, PartialOrd, Ord)]
struct Place {
    container: u32,
    mode: u32,
    terms: i128,
    lows: [i128; 4],
}

/// An access in its place.
#[derive(Clone, Copy)]
pub(crate) struct Placed<'a> {
    place: Place,
    pub(crate) access: &'a Access,
}

/// One number for the terms of all bounds.
fn mixed_terms(bounds: &[Bounds]) -> i128 {
    let mut mix = 0;
    for one in bounds {
        mix = with_terms(with_terms(mix, &one.low), &one.high);
    }
    mix
}

/// The constant of the lower bound of a dimension; 0 where there is none.
fn low_constant(bounds: &[Bounds], dimension: usize) -> i128 {
    match bounds.get(dimension) {
        Some(one) => one.low.constant,
        None => 0,
    }
}

/// Where an access goes.
fn place_of(access: &Access) -> Place {
    let bounds = access.bounds();
    Place {
        container: access.container(),
        mode: mode_number(access.mode()),
        terms: mixed_terms(bounds),
        lows: [
            low_constant(bounds, 0),
            low_constant(bounds, 1),
            low_constant(bounds, 2),
            low_constant(bounds, 3),
        ],
    }
}

/// These accesses, those of one container, mode and sum of terms side by side.
pub(crate) fn in_order<'a>(
    alloc: Global,
    accesses: &'a [Access],
) -> Result<Vec<Placed<'a>>, NoMemory>
    ensures { IfOk result (λ all. IsPermutation accesses.now (map (λ one. one.access.now) all.items)) }
{
    let mut all = Vec::with_capacity(alloc, accesses.len())?;
    for access in accesses {
        all.push(Placed {
            place: place_of(access),
            access,
        })?;
    }
    all.sort_by_key(|one| one.place)?;
    Ok(all)
}
