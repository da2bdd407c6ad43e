//! What the check answers.
ghost use Rattle.std.specs.Prelude.{◌≡◌, IfOk};
ghost use Rattle.sd_race.specs.checking.Found.{race_of};

use sd_graph::Path;
use sd_list::{NoMemory, Sequence};
use sd_prop::Access;
use std::alloc::Global;

/// Two accesses of the scope with a path, of which some points or elements may touch the same.
#[derive(Drop)]
pub struct Race {
    pub at: Path,
    pub first: Access,
    pub second: Access,
}

/// Why a graph is not accepted.
#[derive(Drop)]
pub enum RaceError {
    /// Its first pair of accesses that is not accepted.
    At(Race),
    /// There is no memory for the check.
    Memory,
}

impl From<NoMemory> for RaceError {
    ghost use Rattle.std.specs.Prelude.{◌≡◌};
    ghost use Rattle.sd_race.specs.declared.checking.race.RaceError.TheVariants.{Memory};

    ghost from_gives = { λ _ error. error ≡ Memory };

    fn from(_error: NoMemory) -> Self {
        RaceError::Memory
    }
}

impl Race {
    /// The race that these accesses of the scope with this path are.
    pub(crate) fn of(
        alloc: Global,
        path: &[u32],
        first: &Access,
        second: &Access,
    ) -> Result<Race, NoMemory>
        ensures { IfOk result (λ race. race_of race ≡ record { at = path.now; first = first.now; second = second.now }) }
    {
        Ok(Race {
            at: Path {
                steps: Sequence::from(path.to_vec(alloc)?),
            },
            first: first.copy_of(alloc)?,
            second: second.copy_of(alloc)?,
        })
    }
}
