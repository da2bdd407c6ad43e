//! What was cut of a memory as a store: a part that runs on it runs on what is left of it, by the windows' numbers.
use crate::boxes::NumberBox;
use crate::marking::mark_boxes;
use crate::store::Store;
use sd_cut::{Overlay, Window};
use sd_list::NoMemory;
use sd_mem::Memory;
use std::alloc::Global;

impl Store for Overlay {
    ghost use Rattle.sd_cut.specs.Fits.{marking_in, with_left};
    ghost use Rattle.std.specs.Prelude.{◌≡◌};
    ghost use Rattle.sd_part.specs.Marking.{with_boxes};
    ghost use Rattle.sd_part.specs.Cut.{IsCutFor, IsMadeFor, MayBeLent, StandsFor};

    ghost stands = { λ cut over now. StandsFor cut over now };

    ghost stands_with = { λ cut lent over now. StandsFor (with_left lent cut) over now };

    ghost fits = { λ cut containers over. IsMadeFor cut containers over };

    ghost fits_with = { λ cut containers lent over. MayBeLent (with_left lent cut) containers over };

    ghost windows = { λ cut. cut.windows };

    ghost marking = { λ cut naming. marking_in naming cut };

    ghost holds = { λ cut boxes. IsCutFor boxes cut };

    ghost lends = { λ cut boxes lent then. with_left lent then ≡ with_boxes boxes cut };

    ghost takes = { λ cut left then. then ≡ with_left left cut };

    fn windows(&self) -> &[Option<Window>] {
        Overlay::windows(self)
    }

    fn lend(&mut self, alloc: Global, boxes: &[NumberBox]) -> Result<Memory, NoMemory> {
        mark_boxes(alloc, self, boxes)?;
        Ok(Overlay::lend(self))
    }

    fn take_back(&mut self, left: Memory) {
        self.give_back(left);
    }
}
