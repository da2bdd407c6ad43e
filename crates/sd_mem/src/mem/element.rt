//! Elements of arrays. No call here takes memory, and none asks anything: a container that is not
//! there has no elements, nor has a stream.
ghost use Rattle.std.specs.Prelude.{◌≡◌};
ghost use Rattle.sd_range.specs.Subset.{inside};
ghost use Rattle.sd_work.specs.Memory.{elements_of, look, seen, width_of};
ghost use Rattle.sd_work.specs.Change.{write};
ghost use Rattle.sd_mem.specs.mem.Cells.{array_lent};
ghost use Rattle.sd_mem.specs.mem.Shaped.{alone, changed, contents_at, element, element_at, place_in, shape_at, width_at, written_at};

use crate::mem::cells::Elements;
use crate::mem::memory::Memory;
use crate::mem::place::place_of;
use sd_num::{Resolution, Width};

impl Memory {
    /// The width of a container's elements or values; 64 bits where it is not there.
    pub fn width(&self, container: u32) -> Width
        ensures { result ≡ width_at self.now container }
    {
        match self.holdings.get(container as usize) {
            Some(holding) => holding.width(),
            None => Width::W64,
        }
    }

    /// The elements of an array in row order; none while it is away.
    pub fn cells(&self, container: u32) -> Elements
        ensures elements { elements_of (array_lent result) ≡ elements_of (contents_at self.now container) }
        ensures width { width_of (array_lent result) ≡ width_at self.now container }
    {
        match self.holdings.get(container as usize) {
            Some(holding) => holding.cells(),
            None => Elements::none(Width::W64),
        }
    }

    /// The place of an element in `cells`: its number in row order. `None` where the index is
    /// outside. The place stays the same for good, also while the array is away.
    pub fn place(&self, container: u32, index: &[i128]) -> Option<u64>
        ensures { result ≡ place_in (shape_at self.now container) index.now }
    {
        match self.holdings.get(container as usize) {
            Some(holding) => holding.place(index),
            None => place_of(&[], index),
        }
    }

    /// The element at a place; 0 where there is none.
    pub fn cell(&self, container: u32, place: u64) -> i64
        ensures { result ≡ look (element container place) (alone self.now) }
    {
        match self.cells(container).get(place as usize) {
            Some(element) => element,
            None => 0,
        }
    }

    /// Writes a value to the element at a place: it replaces the old element, or is resolved with
    /// it. Nothing changes where there is no such element.
    pub fn set(&mut self, container: u32, place: u64, by: Option<Resolution>, value: i64)
        ensures { self.new ≡ changed (write (element container place) by value) self.old }
    {
        if (container as usize) < self.holdings.len() {
            self.holdings[container as usize].set(place, by, value);
        }
    }

    /// The element at an index; `None` exactly where that is outside.
    pub fn read(&self, container: u32, index: &[i128]) -> Option<i64>
        ensures { result ≡ seen (element_at self.now container index.now) (alone self.now) }
    {
        let place = self.place(container, index)?;
        Some(self.cell(container, place))
    }

    /// Writes a value to the element at an index, as `set` does; `false` exactly where that is
    /// outside, and then nothing changes.
    pub fn write(
        &mut self,
        container: u32,
        index: &[i128],
        by: Option<Resolution>,
        value: i64,
    ) -> bool
        ensures inside { result ≡ inside (shape_at self.old container) index.now }
        ensures written { self.new ≡ written_at (element_at self.old container index.now) by value self.old }
    {
        match self.place(container, index) {
            Some(place) => {
                self.set(container, place, by, value);
                true
            }
            None => false,
        }
    }
}
