ghost use Rattle.std.specs.Prelude.{◌≡◌, ◌<◌, ◌+◌, ◌-◌, ◌*◌, ◌^◌, min, unsigned_abs};
ghost use Rattle.sd_range.specs.Points.{product};
ghost use Rattle.sd_mem.specs.mem.Shaped.{place_in};

use sd_subset::contains;

/// The number of an element in row order, where the index is inside. Takes no memory.
pub(crate) fn place_of(shape: &[u64], index: &[i128]) -> Option<u64>
    requires { product shape.now < 2 ^ 64 }
    ensures { result ≡ place_in shape.now index.now }
{
    if !contains(shape, index) {
        return None;
    }
    let mut place = 0_u64;
    for (i, extent) in shape.iter().enumerate() {
        place = further(place, extent, &index[i]);
    }
    Some(place)
}

/// The place that has one number more: so many elements of the extent, and the number.
fn further(place: u64, extent: &u64, number: &i128) -> u64
    requires { place * extent.now + unsigned_abs number.now < 2 ^ 64 }
    ensures { result ≡ place * extent.now + unsigned_abs number.now }
{
    place * *extent + number.unsigned_abs() as u64
}

/// How many elements an array of this shape has; from 2^64 on as many as one less.
pub(crate) fn element_count(shape: &[u64]) -> u64
    ensures { result ≡ min (product shape.now) (2 ^ 64 - 1) }
{
    let mut count = 1_u64;
    for extent in shape {
        count = count.saturating_mul(*extent);
    }
    count
}
