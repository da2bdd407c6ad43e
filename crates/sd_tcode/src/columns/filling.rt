//! One column from others.
ghost use Rattle.std.specs.Prelude.{◌≡◌, ℕ, ◌+◌, ◌*◌, ◌<◌, ◌≤◌, ◌^◌, ℤ, pos, unsigned_abs, map, length, slice_index_or, Ok, IsTrue};
ghost use Rattle.std.specs.Option.{MatchOption};
ghost use Rattle.std.specs.Bool.{⊤};
ghost use Rattle.sd_graph.specs.TaskletMeaning as meaning;
ghost use Rattle.sd_tcode.specs.columns.Columns.{value_on};

use crate::columns::spacing::Spaced;
use sd_graph::{OneSign, TwoSign};
use sd_num::Cell;
use sd_tasklet::{one_value, two_values};

/// One number for each run.
#[inline(always)]
pub(crate) fn repeat(column: &mut [i64], value: i64, count: usize)
    requires { count ≤ length column.old }
    ensures many { length column.new ≡ length column.old }
    ensures values { (i : ℕ) → i < count → slice_index_or column.new i (pos 0) ≡ value }
{
    for i in 0..count {
        column[i] = value;
    }
}

/// The elements of cells, as those of another column.
#[inline(always)]
pub(crate) fn copy<T: Cell>(column: &mut [i64], of: &[T], count: usize)
    requires to { count ≤ length column.old }
    requires of { count ≤ length of.now }
    ensures many { length column.new ≡ length column.old }
    ensures values { (i : ℕ) → i < count → slice_index_or column.new i (pos 0) ≡ slice_index_or (map T.element of.now) i (pos 0) }
{
    for i in 0..count {
        column[i] = element_at(of, i);
    }
}

/// A sign before another column.
#[inline(always)]
pub(crate) fn change(sign: OneSign, column: &mut [i64], of: &[i64], count: usize)
    requires to { count ≤ length column.old }
    requires of { count ≤ length of.now }
    ensures many { length column.new ≡ length column.old }
    ensures values { (i : ℕ) → i < count → slice_index_or column.new i (pos 0) ≡ meaning.one_value sign (slice_index_or of.now i (pos 0)) }
{
    for i in 0..count {
        column[i] = one_value(sign, of[i]);
    }
}

/// A sign between two other columns; `false` where one of the runs faults.
#[inline(always)]
pub(crate) fn combine(
    sign: TwoSign,
    column: &mut [i64],
    left: &[i64],
    right: &[i64],
    count: usize,
) -> bool
    requires to { count ≤ length column.old }
    requires left { count ≤ length left.now }
    requires right { count ≤ length right.now }
    ensures many { length column.new ≡ length column.old }
    ensures values { IsTrue result → (i : ℕ) → i < count → meaning.two_values sign (slice_index_or left.now i (pos 0)) (slice_index_or right.now i (pos 0)) ≡ Ok (slice_index_or column.new i (pos 0)) }
{
    for i in 0..count {
        match two_values(sign, left[i], right[i]) {
            Ok(value) => column[i] = value,
            Err(_) => return false,
        }
    }
    true
}

/// Numbers at equal distances, from one on.
#[inline(always)]
pub(crate) fn spread(column: &mut [i64], numbers: &Spaced, from: u32, count: u32)
    requires to { count ≤ length column.old }
    requires few { from + count < 2 ^ 32 }
    ensures many { length column.new ≡ length column.old }
    ensures values { (i : ℕ) → i < count → slice_index_or column.new i (pos 0) ≡ value_on numbers.now (from + i) }
{
    for i in 0..count {
        column[i as usize] = numbers.at(from + i);
    }
}

/// Elements of an array at equal distances, from one on; 0 for one that is not there.
#[inline(always)]
pub(crate) fn gather<T: Cell>(
    column: &mut [i64],
    cells: &[T],
    elements: &Spaced,
    from: u32,
    count: u32,
)
    requires to { count ≤ length column.old }
    requires few { from + count < 2 ^ 32 }
    ensures many { length column.new ≡ length column.old }
    ensures values { (i : ℕ) → i < count → slice_index_or column.new i (pos 0) ≡ slice_index_or (map T.element cells.now) (unsigned_abs (value_on elements.now (from + i))) (pos 0) }
{
    match neighbours(cells, elements, from, count) {
        Some(part) => copy(column, part, count as usize),
        None => gather_apart(column, cells, elements, from, count),
    }
}

/// The elements, where they stand side by side.
fn neighbours<'a, T: Cell>(
    cells: &'a [T],
    elements: &Spaced,
    from: u32,
    count: u32,
) -> Option<&'a [T]>
    requires few { from + count < 2 ^ 32 }
    ensures many { MatchOption result ⊤ (λ part. count ≤ length part.now) }
    ensures values { MatchOption result ⊤ (λ part. (i : ℕ) → i < count → slice_index_or (map T.element part.now) i (pos 0) ≡ slice_index_or (map T.element cells.now) (unsigned_abs (value_on elements.now (from + i))) (pos 0)) }
{
    if elements.step != 1 {
        return None;
    }
    let first = place_of(elements.at(from))?;
    match cells.get(first..end_of(first, count)?) {
        Some(part) => Some(part),
        None => None,
    }
}

/// A number as a place, where it is none below 0.
fn place_of(number: i64) -> Option<usize>
    ensures { MatchOption result ⊤ (λ place. pos place ≡ number) }
{
    usize::try_from(number).ok()
}

/// The place behind so many from one on, where it is an element's number too.
fn end_of(first: usize, count: u32) -> Option<usize>
    ensures { MatchOption result ⊤ (λ end. (end ≡ first + count) × (end < 2 ^ 63)) }
{
    let end = first.checked_add(count as usize)?;
    if end > i64::MAX as usize {
        return None;
    }
    Some(end)
}

/// Places in an array, at equal distances.
#[derive(Clone, Copy)]
pub(crate) struct Places {
    pub first: usize,
    pub distance: usize,
}

/// The places of the elements, where each is there and none is before the first.
pub(crate) fn places_of<T>(cells: &[T], elements: &Spaced, from: u32, count: u32) -> Option<Places>
    requires few { from + count < 2 ^ 32 }
    ensures inside { MatchOption result ⊤ (λ places. (i : ℕ) → i < count → places.first + places.distance * i < length cells.now) }
    ensures end { MatchOption result ⊤ (λ places. places.first + places.distance * count < 2 ^ 63) }
    ensures places { MatchOption result ⊤ (λ places. (i : ℕ) → i < count → unsigned_abs (value_on elements.now (from + i)) ≡ places.first + places.distance * i) }
{
    let first = place_of(elements.at(from))?;
    let distance = place_of(elements.step)?;
    let end = first.checked_add(distance.checked_mul(count as usize)?)?;
    if end > i64::MAX as usize || end >= cells.len().checked_add(distance)? {
        return None;
    }
    Some(Places { first, distance })
}

/// An element of an array, which is there.
#[inline(always)]
pub(crate) fn element_at<T: Cell>(cells: &[T], place: usize) -> i64
    requires { place < length cells.now }
    ensures { result ≡ slice_index_or (map T.element cells.now) place (pos 0) }
{
    cells[place].value()
}

/// The elements at places that are all there.
fn gather_at<T: Cell>(column: &mut [i64], cells: &[T], places: Places, count: usize)
    requires to { count ≤ length column.old }
    requires inside { (i : ℕ) → i < count → places.first + places.distance * i < length cells.now }
    requires end { places.first + places.distance * count < 2 ^ 63 }
    ensures many { length column.new ≡ length column.old }
    ensures values { (i : ℕ) → i < count → slice_index_or column.new i (pos 0) ≡ slice_index_or (map T.element cells.now) (places.first + places.distance * i) (pos 0) }
{
    let mut place = places.first;
    for i in 0..count {
        column[i] = element_at(cells, place);
        place += places.distance;
    }
}

/// The elements, where they do not stand side by side.
fn gather_apart<T: Cell>(column: &mut [i64], cells: &[T], elements: &Spaced, from: u32, count: u32)
    requires to { count ≤ length column.old }
    requires few { from + count < 2 ^ 32 }
    ensures many { length column.new ≡ length column.old }
    ensures values { (i : ℕ) → i < count → slice_index_or column.new i (pos 0) ≡ slice_index_or (map T.element cells.now) (unsigned_abs (value_on elements.now (from + i))) (pos 0) }
{
    match places_of(cells, elements, from, count) {
        Some(places) => gather_at(column, cells, places, count as usize),
        None => gather_each(column, cells, elements, from, count),
    }
}

/// The elements one by one.
fn gather_each<T: Cell>(column: &mut [i64], cells: &[T], elements: &Spaced, from: u32, count: u32)
    requires to { count ≤ length column.old }
    requires few { from + count < 2 ^ 32 }
    ensures many { length column.new ≡ length column.old }
    ensures values { (i : ℕ) → i < count → slice_index_or column.new i (pos 0) ≡ slice_index_or (map T.element cells.now) (unsigned_abs (value_on elements.now (from + i))) (pos 0) }
{
    for i in 0..count {
        column[i as usize] = element(cells, elements.at(from + i).unsigned_abs());
    }
}

/// An element of an array; 0 where it is not there.
#[inline(always)]
fn element<T: Cell>(cells: &[T], number: u64) -> i64
    ensures { result ≡ slice_index_or (map T.element cells.now) number (pos 0) }
{
    match cells.get(number as usize) {
        Some(cell) => cell.value(),
        None => 0,
    }
}
