//! Memories that grow by one container at a time, each behind the others.
ghost use Rattle.std.specs.Prelude.{◌≡◌, [], length, OnOk, OnErr};
ghost use Rattle.sd_range.specs.Points.{product};
ghost use Rattle.sd_work.specs.Memory.{elements_of, stream};
ghost use Rattle.sd_mem.specs.mem.Cells.{array_of};
ghost use Rattle.sd_mem.specs.mem.Shaped.{with_one_more};

use crate::mem::cells::{Cells, Values};
use crate::mem::holding::Holding;
use crate::mem::memory::Memory;
use crate::mem::opening::array_holding;
use sd_list::NoMemory;
use sd_num::Width;

impl Memory {
    /// One container more: an array of this shape, with as many elements in row order.
    pub fn push_array(&mut self, shape: Vec<u64>, cells: Cells) -> Result<(), NoMemory>
        requires { length (elements_of (array_of cells)) ≡ product shape.items }
        ensures ok { OnOk result (self.new ≡ with_one_more shape.items (array_of cells) self.old) }
        ensures err { OnErr result (self.new ≡ self.old) }
    {
        self.holdings.push(array_holding(shape, cells)?)?;
        Ok(())
    }

    /// One container more: a stream of this width, which is empty.
    pub fn push_stream(&mut self, width: Width) -> Result<(), NoMemory>
        ensures ok { OnOk result (self.new ≡ with_one_more [] (stream width []) self.old) }
        ensures err { OnErr result (self.new ≡ self.old) }
    {
        let values = Values::none(*self.holdings.allocator(), width);
        self.holdings.push(Holding::Stream { values })?;
        Ok(())
    }
}
