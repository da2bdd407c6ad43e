ghost use Rattle.std.specs.Prelude.{◌≡◌};
ghost use Rattle.sd_lex.specs.ErrorNumber as errors;

use std::alloc::{AllocError, AllocFailed};
use thiserror::Error;

/// Why a text has no tokens: the first error in it, with its physical line, counted from 1.
#[derive(Clone, Copy, Debug, PartialEq, Eq, Error)]
pub enum LexError {
    /// No token begins at a byte, a string is not closed on its line, or a letter, a digit or
    /// `_` directly follows a number.
    #[error("source error 1 at line {0}")]
    BadByte(u32),
    /// A tab stands among the blanks before something else than a comment on a line that begins
    /// a logical line, or such a line closes to a width that no open block has.
    #[error("source error 2 at line {0}")]
    BadIndent(u32),
    /// A number is above 2^63 - 1.
    #[error("source error 3 at line {0}")]
    NumberTooWide(u32),
    /// There was too little memory; no clause says when.
    #[error("out of memory")]
    Memory,
}

impl LexError {
    /// The number of the error, 1 to 3, under which it is told; want of memory has none.
    pub fn number(&self) -> Option<u8>
        ensures { result ≡ errors.number_of self.now }
    {
        match self {
            LexError::BadByte(_) => Some(1),
            LexError::BadIndent(_) => Some(2),
            LexError::NumberTooWide(_) => Some(3),
            LexError::Memory => None,
        }
    }

    /// The physical line of the error, counted from 1; want of memory has none.
    pub fn line(&self) -> Option<u32>
        ensures { result ≡ errors.line_of self.now }
    {
        match self {
            LexError::BadByte(line) => Some(*line),
            LexError::BadIndent(line) => Some(*line),
            LexError::NumberTooWide(line) => Some(*line),
            LexError::Memory => None,
        }
    }
}

impl From<AllocError> for LexError {
    ghost use Rattle.std.specs.Prelude.{◌≡◌};
    ghost use Rattle.sd_lex.specs.declared.error.LexError.TheVariants.{Memory};

    ghost from_gives = { λ _ error. error ≡ Memory };

    fn from(_error: AllocError) -> LexError {
        LexError::Memory
    }
}

impl<T: Drop> From<AllocFailed<T>> for LexError {
    ghost use Rattle.std.specs.Prelude.{◌≡◌};
    ghost use Rattle.sd_lex.specs.declared.error.LexError.TheVariants.{Memory};

    ghost from_gives = { λ _ error. error ≡ Memory };

    fn from(_error: AllocFailed<T>) -> LexError {
        LexError::Memory
    }
}
