ghost use Rattle.std.specs.Prelude.{◌≡◌};
ghost use Rattle.sd_tcode.specs.columns.Columns.{value_on};

use sd_num::{add, mul};

/// Numbers at equal distances, one for each run, as elements.
#[derive(Clone, Copy)]
pub struct Spaced {
    pub first: i64,
    pub step: i64,
}

impl Spaced {
    /// The number of a run.
    #[inline(always)]
    pub fn at(&self, k: u32) -> i64
        ensures { result ≡ value_on self.now k }
    {
        add(self.first, mul(self.step, i64::from(k)))
    }
}
