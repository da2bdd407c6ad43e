ghost use Rattle.std.specs.Prelude.{◌≡◌};
ghost use Rattle.sd_cut.specs.declared.refusal.CutError.TheVariants.{Memory};

use sd_list::NoMemory;
use std::alloc::{AllocError, AllocFailed};

/// Why nothing was cut.
#[derive(Clone, Copy, Debug, PartialEq, Eq)]
pub enum CutError {
    /// An element of this container's window is not there.
    Outside(u32),
    Memory,
}

impl From<NoMemory> for CutError {
    ghost from_gives = { λ _ error. error ≡ Memory };

    fn from(_error: NoMemory) -> CutError {
        CutError::Memory
    }
}

impl From<AllocError> for CutError {
    ghost from_gives = { λ _ error. error ≡ Memory };

    fn from(_error: AllocError) -> CutError {
        CutError::Memory
    }
}

impl<T: Drop> From<AllocFailed<T>> for CutError {
    ghost from_gives = { λ _ error. error ≡ Memory };

    fn from(_error: AllocFailed<T>) -> CutError {
        CutError::Memory
    }
}
