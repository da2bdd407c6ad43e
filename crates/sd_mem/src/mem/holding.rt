//! What one container holds.
ghost use Rattle.std.specs.Prelude.{◌≡◌, ◌↔◌, length, map, slice_get, IfOk, OnOk, OnErr, IsTrue};
ghost use Rattle.sd_num.specs.Width.{wrapped_to};
ghost use Rattle.sd_work.specs.Memory.{elements_of, values_of, width_of};
ghost use Rattle.sd_work.specs.Change.{appended, changed_at, with_elements, with_values, without, written};
ghost use Rattle.sd_mem.specs.mem.Cells.{array_of, array_lent};
ghost use Rattle.sd_mem.specs.mem.Shaped.{place_in, IsArray, IsStream, MayHave};
ghost use Rattle.sd_mem.specs.mem.Holding.{shape_held, contents_held, IsSized};

use crate::mem::cells::{Cells, Elements, Values};
use crate::mem::place::place_of;
use sd_list::NoMemory;
use sd_num::{Resolution, Width};
use std::alloc::Global;

/// An array with its elements in row order, none while they are away, or a stream with its values,
/// the oldest first.
#[derive(Drop)]
pub(crate) enum Holding {
    Array { shape: Vec<u64>, cells: Cells },
    Stream { values: Values },
}

/// Whether both are the same extents.
fn are_same_extents(a: &[u64], b: &[u64]) -> bool
    ensures { IsTrue result ↔ (a.now ≡ b.now) }
{
    a == b
}

impl Holding {
    /// The same once more.
    pub(crate) fn copy_of(&self, alloc: Global) -> Result<Holding, NoMemory>
        ensures shape { IfOk result (λ copy. shape_held copy ≡ shape_held self.now) }
        ensures contents { IfOk result (λ copy. contents_held copy ≡ contents_held self.now) }
    {
        match self {
            Holding::Array { shape, cells } => Ok(Holding::Array {
                shape: shape.as_slice().to_vec(alloc)?,
                cells: cells.copy_of(alloc)?,
            }),
            Holding::Stream { values } => Ok(Holding::Stream {
                values: values.copy_of(alloc)?,
            }),
        }
    }

    /// Whether both hold the same.
    pub(crate) fn same(&self, other: &Holding) -> bool
        ensures { IsTrue result ↔ ((shape_held self.now ≡ shape_held other.now) × (contents_held self.now ≡ contents_held other.now)) }
    {
        match (self, other) {
            (
                Holding::Array { shape, cells },
                Holding::Array {
                    shape: other_shape,
                    cells: other_cells,
                },
            ) => are_same_extents(shape, other_shape) && cells.same(other_cells),
            (
                Holding::Stream { values },
                Holding::Stream {
                    values: other_values,
                },
            ) => values.same(other_values),
            _ => false,
        }
    }

    /// The width of the elements or values.
    pub(crate) fn width(&self) -> Width
        ensures { result ≡ width_of (contents_held self.now) }
    {
        match self {
            Holding::Array { cells, .. } => cells.width(),
            Holding::Stream { values } => values.width(),
        }
    }

    /// The elements of an array; a stream has none.
    pub(crate) fn cells(&self) -> Elements
        ensures elements { elements_of (array_lent result) ≡ elements_of (contents_held self.now) }
        ensures width { width_of (array_lent result) ≡ width_of (contents_held self.now) }
    {
        match self {
            Holding::Array { cells, .. } => cells.lent(),
            Holding::Stream { values } => Elements::none(values.width()),
        }
    }

    /// The number of an element in row order, where the index is inside.
    pub(crate) fn place(&self, index: &[i128]) -> Option<u64>
        requires { IsSized self.now }
        ensures { result ≡ place_in (shape_held self.now) index.now }
    {
        match self {
            Holding::Array { shape, .. } => place_of(shape.as_slice(), index),
            Holding::Stream { .. } => place_of(&[], index),
        }
    }

    /// Writes a value to an element; nothing changes where there is no such element.
    pub(crate) fn set(&mut self, place: u64, by: Option<Resolution>, value: i64)
        ensures shape { shape_held self.new ≡ shape_held self.old }
        ensures contents { contents_held self.new ≡ with_elements (λ width. changed_at place (written width by value)) (contents_held self.old) }
    {
        match self {
            Holding::Array { cells, .. } => cells.set(place, by, value),
            Holding::Stream { .. } => {}
        }
    }

    /// Appends a value to a stream; an array stays as it is.
    pub(crate) fn push(&mut self, value: i64) -> Result<(), NoMemory>
        ensures shape { shape_held self.new ≡ shape_held self.old }
        ensures ok { OnOk result (contents_held self.new ≡ with_values (appended value) (contents_held self.old)) }
        ensures err { OnErr result (contents_held self.new ≡ contents_held self.old) }
    {
        match self {
            Holding::Array { .. } => Ok(()),
            Holding::Stream { values } => values.push(value),
        }
    }

    /// Takes the oldest value out of a stream; an array has none.
    pub(crate) fn take(&mut self) -> Option<i64>
        ensures oldest { result ≡ slice_get (values_of (contents_held self.old)) 0 }
        ensures shape { shape_held self.new ≡ shape_held self.old }
        ensures contents { contents_held self.new ≡ with_values (λ width. without 0) (contents_held self.old) }
    {
        match self {
            Holding::Array { .. } => None,
            Holding::Stream { values } => values.take(),
        }
    }

    /// Takes the value at a position of a stream out; an array has none.
    pub(crate) fn take_at(&mut self, position: usize) -> Option<i64>
        ensures value { result ≡ slice_get (values_of (contents_held self.old)) position }
        ensures shape { shape_held self.new ≡ shape_held self.old }
        ensures contents { contents_held self.new ≡ with_values (λ width. without position) (contents_held self.old) }
    {
        match self {
            Holding::Array { .. } => None,
            Holding::Stream { values } => values.take_at(position),
        }
    }

    /// Puts other values into a stream, each wrapped to its width; an array stays as it is.
    pub(crate) fn put_values(&mut self, alloc: Global, values: Vec<i64>) -> Result<(), NoMemory>
        ensures shape { shape_held self.new ≡ shape_held self.old }
        ensures ok { OnOk result (contents_held self.new ≡ with_values (λ width old. map (wrapped_to width) values.items) (contents_held self.old)) }
        ensures err { OnErr result (contents_held self.new ≡ contents_held self.old) }
    {
        match self {
            Holding::Array { .. } => {}
            Holding::Stream { values: held } => {
                let width = held.width();
                *held = Values::given(alloc, width, values)?;
            }
        }
        Ok(())
    }

    /// The value at a position of a stream; an array has none.
    pub(crate) fn value_at(&self, position: usize) -> Option<i64>
        ensures { result ≡ slice_get (values_of (contents_held self.now)) position }
    {
        match self {
            Holding::Array { .. } => None,
            Holding::Stream { values } => values.get(position),
        }
    }

    /// Whether it is a stream.
    pub(crate) fn is_stream(&self) -> bool
        ensures { IsTrue result ↔ IsStream (contents_held self.now) }
    {
        match self {
            Holding::Array { .. } => false,
            Holding::Stream { .. } => true,
        }
    }

    /// How many values a stream has; an array has none.
    pub(crate) fn waiting(&self) -> usize
        ensures { result ≡ length (values_of (contents_held self.now)) }
    {
        match self {
            Holding::Array { .. } => 0,
            Holding::Stream { values } => values.count(),
        }
    }

    /// Becomes an array of these elements, with the extents that it has.
    pub(crate) fn hold(&mut self, alloc: Global, cells: Cells)
        ensures shape { shape_held self.new ≡ shape_held self.old }
        ensures contents { contents_held self.new ≡ array_of cells }
    {
        match self {
            Holding::Array { cells: held, .. } => *held = cells,
            Holding::Stream { .. } => {
                *self = Holding::Array {
                    shape: Vec::new(alloc),
                    cells,
                }
            }
        }
    }

    /// One of the same extents that holds nothing.
    pub(crate) fn emptied(&self, alloc: Global) -> Result<Holding, NoMemory>
        ensures { IfOk result (λ emptied. shape_held emptied ≡ shape_held self.now) }
    {
        match self {
            Holding::Array { shape, cells } => Ok(Holding::Array {
                shape: shape.as_slice().to_vec(alloc)?,
                cells: Cells::none(alloc, cells.width()),
            }),
            Holding::Stream { values } => Ok(Holding::Stream {
                values: Values::none(alloc, values.width()),
            }),
        }
    }

    /// Holds what another one held, with the extents that it has, where it may have them.
    pub(crate) fn take_over(&mut self, alloc: Global, given: Holding)
        ensures shape { MayHave (shape_held self.old) (contents_held given) → shape_held self.new ≡ shape_held self.old }
        ensures contents { contents_held self.new ≡ contents_held given }
        ensures sized { IsSized self.old → IsSized self.new }
    {
        match given {
            Holding::Array { cells, .. } => self.hold(alloc, cells),
            Holding::Stream { values } => *self = Holding::Stream { values },
        }
    }

    /// Puts elements into an array and gives back those that it held.
    pub(crate) fn swap_cells(&mut self, cells: Cells) -> Cells
        requires { IsArray (contents_held self.old) }
        ensures taken { array_of result ≡ contents_held self.old }
        ensures shape { shape_held self.new ≡ shape_held self.old }
        ensures contents { contents_held self.new ≡ array_of cells }
    {
        match self {
            Holding::Array { cells: held, .. } => std::mem::replace(held, cells),
            Holding::Stream { .. } => unreachable!(),
        }
    }
}
