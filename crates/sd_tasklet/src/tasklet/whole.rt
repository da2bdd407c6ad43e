ghost use Rattle.std.specs.Prelude.{◌≡◌, ◌≤◌, ◌<◌, ◌-◌, ◌^◌, ℕ, min, nat_le, [], length, slice_index_or, IsTrue};
ghost use Rattle.std.specs.List.{AllByRecursion};
ghost use Rattle.sd_range.specs.Points.{product};

use sd_list::Sequence;

/// How many elements an array of these extents has; from 2^64 on as many as one less.
fn element_count(extents: &[u64]) -> u64
    ensures { result ≡ min (product extents.now) (2 ^ 64 - 1) }
{
    let mut count = 1_u64;
    for extent in extents {
        count = count.saturating_mul(*extent);
    }
    count
}

/// Whether so many elements are enough for these extents: as many as these multiply to.
pub fn has_room(extents: &[u64], elements: usize) -> bool
    requires { elements < 2 ^ 64 - 1 }
    ensures { result ≡ nat_le (product extents.now) elements }
{
    element_count(extents) <= elements as u64
}

/// None of these connectors has more than four dimensions.
pub(crate) fn have_few_dimensions(all: &[Sequence<u64>]) -> bool
    ensures yes { IsTrue result → AllByRecursion (λ extents. length extents ≤ 4) all.now }
    ensures no { AllByRecursion (λ extents. length extents ≤ 4) all.now → IsTrue result }
{
    for extents in all {
        if extents.as_slice().len() > 4 {
            return false;
        }
    }
    true
}

/// The extents of a connector.
pub(crate) fn extents_at(all: &[Sequence<u64>], connector: usize) -> &[u64]
    ensures { result.now ≡ slice_index_or all.now connector [] }
{
    match all.get(connector) {
        Some(extents) => extents.as_slice(),
        None => &[],
    }
}

/// The elements of a connector.
fn elements_at(values: &[Sequence<i64>], connector: usize) -> &[i64]
    ensures { result.now ≡ slice_index_or values.now connector [] }
{
    match values.get(connector) {
        Some(elements) => elements.as_slice(),
        None => &[],
    }
}

/// Each of these inputs has enough elements for its extents.
pub(crate) fn have_room(all: &[Sequence<u64>], values: &[Sequence<i64>]) -> bool
    ensures yes { IsTrue result → (k : ℕ) → k < length values.now → product (slice_index_or all.now k []) ≤ length (slice_index_or values.now k []) }
    ensures no { ((k : ℕ) → k < length values.now → product (slice_index_or all.now k []) ≤ length (slice_index_or values.now k [])) → IsTrue result }
{
    for k in 0..values.len() {
        if !has_room(extents_at(all, k), elements_at(values, k).len()) {
            return false;
        }
    }
    true
}
