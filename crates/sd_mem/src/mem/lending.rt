//! Memories that are lent: what the containers hold moves to another memory and back, and their extents stay.
ghost use Rattle.std.specs.Prelude.{◌≡◌, map, IfOk, OnErr};
ghost use Rattle.std.specs.List.{AllByRecursion};
ghost use Rattle.sd_mem.specs.mem.Shaped.{with_contents, MayHave, MayAllHave};
ghost use Rattle.sd_mem.specs.mem.Holding.{shape_held, IsSized};

use crate::mem::holding::Holding;
use crate::mem::memory::Memory;
use sd_list::NoMemory;
use std::alloc::Global;

impl Memory {
    /// Lends what the containers hold, as a memory of the same extents. Here no array has elements then, and no stream values. For want of
    /// memory all stays as it is.
    pub fn lend(&mut self) -> Result<Memory, NoMemory>
        ensures lent { IfOk result (λ lent. lent ≡ self.old) }
        ensures fit { MayAllHave self.old.shapes self.old.contents }
        ensures shapes { self.new.shapes ≡ self.old.shapes }
        ensures err { OnErr result (self.new ≡ self.old) }
    {
        let alloc = *self.holdings.allocator();
        let mut holdings = emptied(alloc, self.holdings.as_slice())?;
        std::mem::swap(&mut self.holdings, &mut holdings);
        Ok(Memory { holdings })
    }

    /// Takes back what a lent memory holds now, and keeps the extents, where its containers may have them. Takes no memory.
    pub fn take_back(&mut self, lent: Memory)
        ensures { MayAllHave self.old.shapes lent.contents → self.new ≡ with_contents lent.contents self.old }
    {
        let alloc = *self.holdings.allocator();
        let mut holdings = lent.holdings;
        holdings.truncate(self.holdings.len());
        while let Some(given) = holdings.pop() {
            self.holdings[holdings.len()].take_over(alloc, given);
        }
    }
}

/// Containers of the same extents that hold nothing.
fn emptied(alloc: Global, holdings: &[Holding]) -> Result<Vec<Holding>, NoMemory>
    requires { AllByRecursion IsSized holdings.now }
    ensures shapes { IfOk result (λ emptied. map shape_held emptied.items ≡ map shape_held holdings.now) }
    ensures sized { IfOk result (λ emptied. AllByRecursion IsSized emptied.items) }
{
    let mut emptied = Vec::with_capacity(alloc, holdings.len())?;
    for holding in holdings {
        emptied.push(holding.emptied(alloc)?)?;
    }
    Ok(emptied)
}
