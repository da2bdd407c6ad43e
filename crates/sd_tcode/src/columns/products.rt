//! Products of elements, added up.
ghost use Rattle.std.specs.Prelude.{◌≡◌, ℕ, ◌+◌, ◌*◌, ◌<◌, ◌^◌, pos, ◌*ℤ◌, map, length, slice_index_or};
ghost use Rattle.std.specs.Option.{MatchOption};
ghost use Rattle.std.specs.Bool.{⊤};
ghost use Rattle.sd_num.specs.Wrapped.{wrapped};
ghost use Rattle.sd_tcode.specs.columns.Products.{added, product_on};

use crate::columns::filling::{Places, element_at, places_of};
use crate::columns::spacing::Spaced;
use sd_num::{Cell, add, mul};

/// A number, and the products of elements at places that are all there added to it.
fn add_at<L: Cell, R: Cell>(
    number: i64,
    left: &[L],
    lefts: Places,
    right: &[R],
    rights: Places,
    count: usize,
) -> i64
    requires left { (i : ℕ) → i < count → lefts.first + lefts.distance * i < length left.now }
    requires left_end { lefts.first + lefts.distance * count < 2 ^ 63 }
    requires right { (i : ℕ) → i < count → rights.first + rights.distance * i < length right.now }
    requires right_end { rights.first + rights.distance * count < 2 ^ 63 }
    ensures { result ≡ added (λ i. wrapped (slice_index_or (map L.element left.now) (lefts.first + lefts.distance * i) (pos 0) *ℤ slice_index_or (map R.element right.now) (rights.first + rights.distance * i) (pos 0))) number count }
{
    let mut sum = number;
    let mut left_place = lefts.first;
    let mut right_place = rights.first;
    for _ in 0..count {
        let product = mul(element_at(left, left_place), element_at(right, right_place));
        sum = add(sum, product);
        left_place += lefts.distance;
        right_place += rights.distance;
    }
    sum
}

/// A number, and the products of elements of two arrays at equal distances added to it one after another, from one on; `None` where
/// one of the elements is not there, or where they go backwards.
pub fn add_products<L: Cell, R: Cell>(
    number: i64,
    left: &[L],
    lefts: &Spaced,
    right: &[R],
    rights: &Spaced,
    from: u32,
    count: u32,
) -> Option<i64>
    requires few { from + count < 2 ^ 32 }
    ensures { MatchOption result ⊤ (λ sum. sum ≡ added (λ run. product_on (map L.element left.now) lefts.now (map R.element right.now) rights.now (from + run)) number count) }
{
    let left_places = places_of(left, lefts, from, count)?;
    let right_places = places_of(right, rights, from, count)?;
    Some(add_at(
        number,
        left,
        left_places,
        right,
        right_places,
        count as usize,
    ))
}
