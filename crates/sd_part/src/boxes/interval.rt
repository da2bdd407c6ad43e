//! The indices of one dimension.
ghost use Rattle.std.specs.Prelude.{◌≡◌, ℕ, List, ◌∷◌, IfOk};
ghost use Rattle.sd_part.specs.Boxes as definition;

use sd_list::{NoMemory, Sequence};
use sd_scope::value_of;
use sd_subset::Bounds;
use std::alloc::Global;

/// So many indices of a dimension from a low one on.
#[derive(Clone, Copy)]
pub struct Interval {
    pub low: u64,
    pub count: u64,
}

/// The indices from one to another, both included. A number that does not fit 64 bits counts as want of memory.
fn indices_between(first: i128, last: i128) -> Result<Interval, NoMemory>
    ensures { IfOk result (λ interval. interval ≡ definition.indices_between first last) }
{
    if last < first {
        return Ok(Interval { low: 0, count: 0 });
    }
    let gap = last.checked_sub(first).ok_or(NoMemory)?;
    let gap = u64::try_from(gap.unsigned_abs()).map_err(|_| NoMemory)?;
    Ok(Interval {
        low: u64::try_from(first.unsigned_abs()).map_err(|_| NoMemory)?,
        count: gap.checked_add(1).ok_or(NoMemory)?,
    })
}

/// The indices of a dimension of this extent that are neither below a low number nor above a high one.
fn cut_between(extent: u64, low: i128, high: i128) -> Result<Interval, NoMemory>
    ensures { IfOk result (λ interval. interval ≡ definition.cut_between extent low high) }
{
    indices_between(low.max(0), high.min(i128::from(extent) - 1))
}

/// The indices of the first of these dimensions that are between its bounds, and the bounds of the others; without bounds there is no index.
fn first_interval<'b>(
    extent: u64,
    bounds: &'b [Bounds],
    values: &[i128],
) -> Result<(Interval, &'b [Bounds]), NoMemory>
    ensures { IfOk result (λ first. (extents : List ℕ) → first.0 ∷ definition.intervals_at values.now extents first.1.now ≡ definition.intervals_at values.now (extent ∷ extents) bounds.now) }
{
    match bounds.split_first() {
        None => Ok((Interval { low: 0, count: 0 }, bounds)),
        Some((first, others)) => {
            let low = value_of(&first.low, values)?;
            let high = value_of(&first.high, values)?;
            Ok((cut_between(extent, low, high)?, others))
        }
    }
}

/// The indices of each dimension of a container that are between the bounds of a box, where the variables have these values. A box that has
/// fewer dimensions has no index.
pub(crate) fn intervals_at(
    alloc: Global,
    extents: &[u64],
    bounds: &[Bounds],
    values: &[i128],
) -> Result<Sequence<Interval>, NoMemory>
    ensures { IfOk result (λ all. all ≡ definition.intervals_at values.now extents.now bounds.now) }
{
    let mut all = Vec::with_capacity(alloc, extents.len())?;
    let mut left = bounds;
    for extent in extents {
        let (interval, others) = first_interval(*extent, left, values)?;
        all.push(interval)?;
        left = others;
    }
    Ok(Sequence::from(all))
}
