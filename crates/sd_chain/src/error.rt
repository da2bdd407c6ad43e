ghost use Rattle.std.specs.Prelude.{◌≡◌};
ghost use Rattle.sd_chain.specs.declared.error.ChainError.TheVariants as chain;
ghost use Rattle.sd_chain.specs.declared.error.PicksError.TheVariants.{Memory};

use sd_list::NoMemory;
use std::alloc::{AllocError, AllocFailed};
use thiserror::Error;

/// Why a picks file can't be read.
#[derive(Clone, Copy, Debug, PartialEq, Eq, Error)]
pub enum PicksError {
    /// The word of this number, counted from 1, is the first that is no pick.
    #[error("picks refused at word {0}")]
    NoForm(u64),
    /// There was too little memory; no clause says when.
    #[error("out of memory")]
    Memory,
}

impl From<AllocError> for PicksError {
    ghost from_gives = { λ _ error. error ≡ Memory };

    fn from(_error: AllocError) -> PicksError {
        PicksError::Memory
    }
}

impl<T: Drop> From<AllocFailed<T>> for PicksError {
    ghost from_gives = { λ _ error. error ≡ Memory };

    fn from(_error: AllocFailed<T>) -> PicksError {
        PicksError::Memory
    }
}

/// Why a chain can't be read or done.
#[derive(Clone, Copy, Debug, PartialEq, Eq, Error)]
pub enum ChainError {
    /// The line of this number, counted from 1, is the first that is no form, or a step too many.
    #[error("chain refused at line {0}")]
    NoForm(u32),
    /// The step of this line is the first of which a condition fails; this is the lowest one that does.
    #[error("chain refused at line {0} condition {1}")]
    Condition(u32, u8),
    /// There was too little memory; no clause says when.
    #[error("out of memory")]
    Memory,
}

impl From<NoMemory> for ChainError {
    ghost from_gives = { λ _ error. error ≡ chain.Memory };

    fn from(_error: NoMemory) -> ChainError {
        ChainError::Memory
    }
}
