//! Whole arrays, whose elements are taken out and put back. Neither call takes memory.
ghost use Rattle.std.specs.Prelude.{◌≡◌, [], length};
ghost use Rattle.sd_range.specs.Points.{product};
ghost use Rattle.sd_work.specs.Memory.{array, elements_of, width_of};
ghost use Rattle.sd_mem.specs.mem.Cells.{array_of};
ghost use Rattle.sd_mem.specs.mem.Shaped.{contents_at, shape_at, width_at, with_contents_at, IsAway, IsHere};

use crate::mem::cells::Cells;
use crate::mem::memory::Memory;

impl Memory {
    /// Takes the elements of an array out, in row order; it is then away.
    pub fn take_cells(&mut self, container: u32) -> Cells
        requires { IsHere self.old container }
        ensures cells { array_of result ≡ contents_at self.old container }
        ensures away { self.new ≡ with_contents_at container (array (width_at self.old container) []) self.old }
    {
        let alloc = *self.holdings.allocator();
        let width = self.width(container);
        self.holdings[container as usize].swap_cells(Cells::none(alloc, width))
    }

    /// Puts elements into an array that is away, as many as it has and of its width.
    pub fn put_cells(&mut self, container: u32, cells: Cells)
        requires away { IsAway self.old container }
        requires all { length (elements_of (array_of cells)) ≡ product (shape_at self.old container) }
        requires width { width_of (array_of cells) ≡ width_at self.old container }
        ensures { self.new ≡ with_contents_at container (array_of cells) self.old }
    {
        self.holdings[container as usize].swap_cells(cells);
    }
}
