//! Elements and values of either width.
ghost use Rattle.std.specs.Prelude.{◌≡◌, ◌↔◌, [], pos, length, map, replicate, slice_get, IfOk, OnOk, OnErr, IsTrue};
ghost use Rattle.sd_num.specs.Width.{wrapped_to};
ghost use Rattle.sd_work.specs.Memory.{array, stream, width_of, elements_of, values_of};
ghost use Rattle.sd_work.specs.Change.{appended, changed_at, with_elements, with_values, without, written};
ghost use Rattle.sd_graph.specs.Unfold.{one_element};
ghost use Rattle.sd_mem.specs.mem.Cells.{array_of, stream_of, array_lent};

use sd_list::NoMemory;
use sd_num::{Cell, Resolution, Width, resolve};
use std::alloc::Global;
use std::collections::VecDeque;

/// The elements of an array in row order: four bytes each at 32 bits, eight at 64.
#[derive(Drop)]
pub enum Cells {
    W32(Vec<i32>),
    W64(Vec<i64>),
}

/// The elements of an array in row order, lent.
#[derive(Clone, Copy)]
pub enum Elements<'a> {
    W32(&'a [i32]),
    W64(&'a [i64]),
}

/// The values of a stream, the oldest first: four bytes each at 32 bits, eight at 64.
#[derive(Drop)]
pub(crate) enum Values {
    W32(VecDeque<i32>),
    W64(VecDeque<i64>),
}

/// Writes a value to an element.
#[inline(always)]
fn write_to<T: Cell>(cell: &mut T, by: Option<Resolution>, value: i64)
    ensures { T.element cell.new ≡ written T.WIDTH by value (T.element cell.old) }
{
    *cell = match by {
        None => T::of(value),
        Some(resolution) => T::of(resolve(resolution, cell.value(), T::of(value).value())),
    };
}

/// A value of 32 bits as one of 64.
#[inline(always)]
fn widened(value: Option<i32>) -> Option<i64>
    ensures { result ≡ value }
{
    match value {
        Some(value) => Some(value.value()),
        None => None,
    }
}

/// The value as it is: each number of 64 bits is an element of 64 bits.
#[inline(always)]
fn as_element(value: i64) -> i64
    ensures { result ≡ wrapped_to Width.W64 value }
{
    value
}

/// Wrapping to 64 bits leaves elements of 64 bits as they are. The loop is there for the proof: it changes nothing, and
/// `given` calls it once for each list that is moved in.
fn are_elements(values: &[i64])
    ensures { map (wrapped_to Width.W64) values.now ≡ values.now }
{
    for value in values {
        let _ = as_element(*value);
    }
}

/// The elements, each wrapped to 32 bits.
fn narrowed(alloc: Global, values: &[i64]) -> Result<Vec<i32>, NoMemory>
    ensures { IfOk result (λ cells. cells.items ≡ map (wrapped_to Width.W32) values.now) }
{
    let mut cells = Vec::with_capacity(alloc, values.len())?;
    for value in values {
        cells.push(i32::of(*value))?;
    }
    Ok(cells)
}

impl Cells {
    /// No elements. Takes no memory.
    pub(crate) fn none(alloc: Global, width: Width) -> Cells
        ensures { array_of result ≡ array width [] }
    {
        match width {
            Width::W32 => Cells::W32(Vec::new(alloc)),
            Width::W64 => Cells::W64(Vec::new(alloc)),
        }
    }

    /// So many zeros.
    pub(crate) fn zeros(alloc: Global, width: Width, count: usize) -> Result<Cells, NoMemory>
        ensures { IfOk result (λ cells. array_of cells ≡ array width (replicate count (pos 0))) }
    {
        match width {
            Width::W32 => Ok(Cells::W32(vec![in alloc; 0; count]?)),
            Width::W64 => Ok(Cells::W64(vec![in alloc; 0; count]?)),
        }
    }

    /// One element.
    pub(crate) fn one(alloc: Global, width: Width, value: i64) -> Result<Cells, NoMemory>
        ensures { IfOk result (λ cells. array_of cells ≡ one_element width value) }
    {
        match width {
            Width::W32 => Ok(Cells::W32(vec![in alloc; i32::of(value); 1]?)),
            Width::W64 => Ok(Cells::W64(vec![in alloc; value; 1]?)),
        }
    }

    /// These elements, each wrapped to the width; at 64 bits they are moved in.
    pub fn given(alloc: Global, width: Width, values: Vec<i64>) -> Result<Cells, NoMemory>
        ensures { IfOk result (λ cells. array_of cells ≡ array width (map (wrapped_to width) values.items)) }
    {
        match width {
            Width::W32 => Ok(Cells::W32(narrowed(alloc, values.as_slice())?)),
            Width::W64 => {
                are_elements(values.as_slice());
                Ok(Cells::W64(values))
            }
        }
    }

    /// The same once more.
    pub(crate) fn copy_of(&self, alloc: Global) -> Result<Cells, NoMemory>
        ensures { IfOk result (λ copy. array_of copy ≡ array_of self.now) }
    {
        match self {
            Cells::W32(cells) => Ok(Cells::W32(cells.as_slice().to_vec(alloc)?)),
            Cells::W64(cells) => Ok(Cells::W64(cells.as_slice().to_vec(alloc)?)),
        }
    }

    /// Whether both are the same elements of one width.
    pub(crate) fn same(&self, other: &Cells) -> bool
        ensures { IsTrue result ↔ (array_of self.now ≡ array_of other.now) }
    {
        match (self, other) {
            (Cells::W32(cells), Cells::W32(others)) => are_same_narrow(cells, others),
            (Cells::W64(cells), Cells::W64(others)) => are_same_wide(cells, others),
            _ => false,
        }
    }

    /// The width of the elements.
    pub fn width(&self) -> Width
        ensures { result ≡ width_of (array_of self.now) }
    {
        match self {
            Cells::W32(_) => Width::W32,
            Cells::W64(_) => Width::W64,
        }
    }

    /// The elements, lent.
    pub(crate) fn lent(&self) -> Elements
        ensures { array_lent result ≡ array_of self.now }
    {
        match self {
            Cells::W32(cells) => Elements::W32(cells.as_slice()),
            Cells::W64(cells) => Elements::W64(cells.as_slice()),
        }
    }

    /// Writes a value to an element; nothing changes where there is no such element.
    pub(crate) fn set(&mut self, place: u64, by: Option<Resolution>, value: i64)
        ensures { array_of self.new ≡ with_elements (λ width. changed_at place (written width by value)) (array_of self.old) }
    {
        match self {
            Cells::W32(cells) => {
                if (place as usize) < cells.len() {
                    write_to(&mut cells[place as usize], by, value);
                }
            }
            Cells::W64(cells) => {
                if (place as usize) < cells.len() {
                    write_to(&mut cells[place as usize], by, value);
                }
            }
        }
    }
}

/// Whether both are the same elements.
fn are_same_narrow(a: &[i32], b: &[i32]) -> bool
    ensures { IsTrue result ↔ (a.now ≡ b.now) }
{
    a == b
}

/// Whether both are the same elements.
fn are_same_wide(a: &[i64], b: &[i64]) -> bool
    ensures { IsTrue result ↔ (a.now ≡ b.now) }
{
    a == b
}

impl Elements<'_> {
    /// No elements.
    pub(crate) fn none(width: Width) -> Elements<'static>
        ensures { array_lent result ≡ array width [] }
    {
        match width {
            Width::W32 => Elements::W32(&[]),
            Width::W64 => Elements::W64(&[]),
        }
    }

    /// The element of a number; `None` exactly where there is none.
    #[inline(always)]
    pub fn get(&self, number: usize) -> Option<i64>
        ensures { result ≡ slice_get (elements_of (array_lent self.now)) number }
    {
        match self {
            Elements::W32(cells) => widened(cells.get(number).copied()),
            Elements::W64(cells) => cells.get(number).copied(),
        }
    }
}

impl Values {
    /// No values. Takes no memory.
    pub(crate) fn none(alloc: Global, width: Width) -> Values
        ensures { stream_of result ≡ stream width [] }
    {
        match width {
            Width::W32 => Values::W32(VecDeque::new(alloc)),
            Width::W64 => Values::W64(VecDeque::new(alloc)),
        }
    }

    /// These values, each wrapped to the width; at 64 bits they are moved in.
    pub(crate) fn given(alloc: Global, width: Width, values: Vec<i64>) -> Result<Values, NoMemory>
        ensures { IfOk result (λ given. stream_of given ≡ stream width (map (wrapped_to width) values.items)) }
    {
        match width {
            Width::W32 => Ok(Values::W32(VecDeque::from(narrowed(alloc, values.as_slice())?))),
            Width::W64 => {
                are_elements(values.as_slice());
                Ok(Values::W64(VecDeque::from(values)))
            }
        }
    }

    /// The same once more.
    pub(crate) fn copy_of(&self, alloc: Global) -> Result<Values, NoMemory>
        ensures { IfOk result (λ copy. stream_of copy ≡ stream_of self.now) }
    {
        match self {
            Values::W32(values) => {
                let (older, newer) = values.as_slices();
                let mut copy = older.to_vec(alloc)?;
                copy.extend_from_slice(newer)?;
                Ok(Values::W32(VecDeque::from(copy)))
            }
            Values::W64(values) => {
                let (older, newer) = values.as_slices();
                let mut copy = older.to_vec(alloc)?;
                copy.extend_from_slice(newer)?;
                Ok(Values::W64(VecDeque::from(copy)))
            }
        }
    }

    /// Whether both are the same values of one width in the same order.
    pub(crate) fn same(&self, other: &Values) -> bool
        ensures { IsTrue result ↔ (stream_of self.now ≡ stream_of other.now) }
    {
        match (self, other) {
            (Values::W32(values), Values::W32(others)) => are_same_narrow_values(values, others),
            (Values::W64(values), Values::W64(others)) => are_same_wide_values(values, others),
            _ => false,
        }
    }

    /// The width of the values.
    pub(crate) fn width(&self) -> Width
        ensures { result ≡ width_of (stream_of self.now) }
    {
        match self {
            Values::W32(_) => Width::W32,
            Values::W64(_) => Width::W64,
        }
    }

    /// Appends a value, wrapped to the width.
    pub(crate) fn push(&mut self, value: i64) -> Result<(), NoMemory>
        ensures ok { OnOk result (stream_of self.new ≡ with_values (appended value) (stream_of self.old)) }
        ensures err { OnErr result (stream_of self.new ≡ stream_of self.old) }
    {
        match self {
            Values::W32(values) => values.push_back(i32::of(value))?,
            Values::W64(values) => values.push_back(value)?,
        }
        Ok(())
    }

    /// Takes the oldest value out.
    pub(crate) fn take(&mut self) -> Option<i64>
        ensures oldest { result ≡ slice_get (values_of (stream_of self.old)) 0 }
        ensures values { stream_of self.new ≡ with_values (λ width. without 0) (stream_of self.old) }
    {
        match self {
            Values::W32(values) => widened(values.pop_front()),
            Values::W64(values) => values.pop_front(),
        }
    }

    /// Takes the value at a position out.
    pub(crate) fn take_at(&mut self, position: usize) -> Option<i64>
        ensures value { result ≡ slice_get (values_of (stream_of self.old)) position }
        ensures values { stream_of self.new ≡ with_values (λ width. without position) (stream_of self.old) }
    {
        match self {
            Values::W32(values) => widened(values.remove(position)),
            Values::W64(values) => values.remove(position),
        }
    }

    /// The value at a position; `None` exactly where there is none.
    pub(crate) fn get(&self, position: usize) -> Option<i64>
        ensures { result ≡ slice_get (values_of (stream_of self.now)) position }
    {
        match self {
            Values::W32(values) => widened(values.get(position).copied()),
            Values::W64(values) => values.get(position).copied(),
        }
    }

    /// How many values wait.
    pub(crate) fn count(&self) -> usize
        ensures { result ≡ length (values_of (stream_of self.now)) }
    {
        match self {
            Values::W32(values) => values.len(),
            Values::W64(values) => values.len(),
        }
    }
}

/// Whether both are the same values in the same order.
fn are_same_narrow_values(a: &VecDeque<i32>, b: &VecDeque<i32>) -> bool
    ensures { IsTrue result ↔ (a.now.items ≡ b.now.items) }
{
    a == b
}

/// Whether both are the same values in the same order.
fn are_same_wide_values(a: &VecDeque<i64>, b: &VecDeque<i64>) -> bool
    ensures { IsTrue result ↔ (a.now.items ≡ b.now.items) }
{
    a == b
}
