//! The numbers of elements in windows.
ghost use Rattle.std.specs.Prelude.{◌≡◌, ◌<◌, ◌+◌, ◌*◌, ◌^◌, Some, length, true};
ghost use Rattle.sd_range.specs.Points.{product};
ghost use Rattle.sd_range.specs.Subset.{inside};
ghost use Rattle.sd_graph.specs.RowOrder.{row_number};
ghost use Rattle.sd_windows.specs.Windows.{moved};
ghost use Rattle.sd_cut.specs.Placing.{number_below, number_in, number_or_zero};
ghost use Rattle.sd_cut.specs.Windowed.{window_of};

use crate::window::Window;

/// A number of an index, as it is in a window; `None` exactly where it is not below the extent.
fn moved_number(shift: i128, number: i128, extent: u64) -> Option<u64>
    ensures { result ≡ number_below shift number extent }
{
    let moved = u64::try_from(number.checked_add(shift)?).ok()?;
    if moved < extent { Some(moved) } else { None }
}

/// The same; 0 where there is none.
fn number_or(shift: i128, number: i128, extent: u64) -> u64
    ensures { result ≡ number_or_zero (number_below shift number extent) }
{
    match moved_number(shift, number, extent) {
        Some(number) => number,
        None => 0,
    }
}

/// Whether an index lies in a window.
fn is_inside(shift: &[i128], extents: &[u64], index: &[i128]) -> bool
    requires same { length index.now ≡ length shift.now }
    requires all { length extents.now ≡ length shift.now }
    ensures { result ≡ inside extents.now (moved shift.now index.now) }
{
    for (i, extent) in extents.iter().enumerate() {
        match moved_number(shift[i], index[i], *extent) {
            Some(_) => {}
            None => return false,
        }
    }
    true
}

/// The number that has one number of an index more: so many elements of the extent, and the number.
fn further(place: u64, extent: u64, number: u64) -> u64
    requires { place * extent + number < 2 ^ 64 }
    ensures { result ≡ place * extent + number }
{
    place * extent + number
}

/// The number of the element at an index that lies in a window.
fn number_at(shift: &[i128], extents: &[u64], index: &[i128]) -> u64
    requires same { length index.now ≡ length shift.now }
    requires all { length extents.now ≡ length shift.now }
    requires small { product extents.now < 2 ^ 64 }
    requires inside { inside extents.now (moved shift.now index.now) ≡ true }
    ensures { result ≡ row_number extents.now (moved shift.now index.now) }
{
    let mut place = 0_u64;
    for (i, extent) in extents.iter().enumerate() {
        place = further(place, *extent, number_or(shift[i], index[i], *extent));
    }
    place
}

/// The number of the element at an index in a window.
pub(crate) fn number_of(window: &Window, index: &[i128]) -> Option<u64>
    requires { product window.now.extents < 2 ^ 64 }
    ensures { result ≡ number_in (Some (window_of window.now)) index.now }
{
    let shift = window.shift.as_slice();
    let extents = window.extents.as_slice();
    if index.len() != shift.len() {
        return None;
    }
    if extents.len() != shift.len() {
        return None;
    }
    if !is_inside(shift, extents, index) {
        return None;
    }
    Some(number_at(shift, extents, index))
}
