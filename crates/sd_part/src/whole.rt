//! A memory as a store: a part that runs on it runs in it, and nothing of it is cut.
use crate::boxes::NumberBox;
use crate::store::Store;
use sd_cut::Window;
use sd_list::NoMemory;
use sd_mem::Memory;
use std::alloc::Global;

impl Store for Memory {
    ghost use Rattle.std.specs.Prelude.{◌≡◌, [], ⊤};
    ghost use Rattle.sd_mem.specs.mem.Shaped.{with_contents, MayAllHave};
    ghost use Rattle.sd_part.specs.Whole.{all_kept, IsOfWidths};

    ghost stands = { λ memory over now. now ≡ memory };

    ghost stands_with = { λ memory lent over now. now ≡ with_contents lent.contents memory };

    ghost fits = { λ memory containers over. ⊤ };

    ghost fits_with = { λ memory containers lent over. MayAllHave memory.shapes lent.contents };

    ghost windows = { λ memory. [] };

    ghost marking = { λ memory naming. all_kept };

    ghost holds = { λ memory boxes. IsOfWidths memory };

    ghost lends = { λ memory boxes lent then. (lent ≡ memory) × (then.shapes ≡ memory.shapes) };

    ghost takes = { λ memory left then. MayAllHave memory.shapes left.contents → then ≡ with_contents left.contents memory };

    fn windows(&self) -> &[Option<Window>] {
        &[]
    }

    fn lend(&mut self, _alloc: Global, _boxes: &[NumberBox]) -> Result<Memory, NoMemory> {
        Memory::lend(self)
    }

    fn take_back(&mut self, left: Memory) {
        Memory::take_back(self, left);
    }
}
