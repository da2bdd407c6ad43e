ghost use Rattle.std.specs.Prelude.{◌≡◌, ◌↔◌, IsTrue};
ghost use Rattle.sd_num.specs.declared.width.Width.TheVariants.{W64};
ghost use Rattle.sd_mem.specs.machine.Stack.{reference_of};
ghost use Rattle.sd_row.specs.row.Row.{reference_on};
ghost use Rattle.sd_row.specs.row.Point.{width_on};

use sd_mem::{Address, Machine, Station};
use sd_num::Width;
use sd_tcode::Spaced;

/// The elements to which an access leads at the points of a row.
#[derive(Clone, Copy)]
pub struct Track {
    pub station: Station,
    pub elements: Spaced,
}

impl Track {
    /// The element at a point.
    #[inline(always)]
    pub fn cell(&self, k: u32) -> Address
        ensures { reference_of result ≡ reference_on self.now k }
    {
        Address {
            station: self.station,
            element: self.elements.at(k).unsigned_abs(),
        }
    }

    /// Whether the elements have 64 bits.
    pub(crate) fn is_wide(&self, machine: &Machine) -> bool
        ensures { IsTrue result ↔ (width_on machine.now.memories self.now ≡ W64) }
    {
        match machine.width(self.station) {
            Width::W32 => false,
            Width::W64 => true,
        }
    }
}
