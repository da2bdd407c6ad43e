//! How many elements containers have.
ghost use Rattle.std.specs.Prelude.{◌≡◌, ◌+◌, ◌-◌, ◌^◌, int_lt, min, pos, unsigned_abs, map, true, false, MatchOption};
ghost use Rattle.std.specs.List.{list_any};
ghost use Rattle.sd_range.specs.Points.{product};
ghost use Rattle.sd_graph.specs.TreeFold.{named_container};
ghost use Rattle.sd_valid.specs.Limits.{elements_in, is_over, tally};
ghost use Rattle.sd_validity.specs.rules.WithinLimits as limits;
ghost use Rattle.sd_validate.specs.limits.Totals.{IsSum};

use crate::limits::size::constant_size;
use indexmap::IndexMap;
use sd_graph::Container;
use sd_places::is_stream;
use sd_range::Affine;

/// The most elements of one container, 2^24.
const MOST: u128 = 1 << 24;

/// The most elements of all containers together, 2^26.
const MOST_TOGETHER: u128 = 1 << 26;

/// Whether an extent is negative.
fn is_negative(extents: &[Affine]) -> bool
    ensures { result ≡ list_any (λ extent. int_lt extent.constant (pos 0)) extents.now }
{
    for extent in extents {
        if extent.constant < 0 {
            return true;
        }
    }
    false
}

/// The product of extents; from 2^128 on it counts as one less.
fn product_of(extents: &[Affine]) -> u128
    ensures { result ≡ min (product (map (λ extent. unsigned_abs extent.constant) extents.now)) (2 ^ 128 - 1) }
{
    let mut product = 1_u128;
    for extent in extents {
        product = product.saturating_mul(constant_size(extent));
    }
    product
}

/// How many elements a container has; from 2^128 on it counts as one less.
fn element_count(container: &Container) -> u128
    ensures { result ≡ min (elements_in container.now) (2 ^ 128 - 1) }
{
    if is_stream(container.kind) {
        0
    } else {
        product_of(container.extents.as_slice())
    }
}

/// How many elements there are with those of a container; `None` where it is over a limit.
fn with_elements(before: u128, container: &Container) -> Option<u128>
    ensures { MatchOption result (is_over before container.now ≡ true) (λ total. (is_over before container.now ≡ false) × (total ≡ before + elements_in container.now)) }
{
    let elements = element_count(container);
    if is_negative(container.extents.as_slice()) || MOST < elements {
        return None;
    }
    let total = before.checked_add(elements)?;
    if MOST_TOGETHER < total {
        return None;
    }
    Some(total)
}

/// How many elements there are with those of these containers, behind others of so many; `None`
/// where they are over a limit.
#[tactic(auto, using(crate::proofs::limits_lemmas::Among::elements_first))]
pub(crate) fn elements_behind(
    containers: &IndexMap<String, Container>,
    before: u128,
) -> Option<u128>
    ensures { IsSum (limits.is_counted (tally before (map named_container containers.now.entries))) (before + limits.elements_of (map named_container containers.now.entries)) result }
{
    let mut total = before;
    for (_, container) in containers.iter() {
        total = with_elements(total, container)?;
    }
    Some(total)
}
