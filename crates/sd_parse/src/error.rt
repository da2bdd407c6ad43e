ghost use Rattle.std.specs.Prelude.{◌≡◌};
ghost use Rattle.sd_parse.specs.ErrorNumber as errors;

use sd_context::Refusal;
use sd_list::NoMemory;
use thiserror::Error;

/// Why a source has no program.
#[derive(Clone, Copy, Debug, PartialEq, Eq, Error)]
pub enum SourceError {
    /// The first error of the source. Errors 1 to 3 stand on a physical line; 4 to 10 on the first
    /// physical line of a logical line, or one line behind the last one where something is missing there.
    #[error("source error {number} at line {line}")]
    At { number: u8, line: u32 },
    /// There was too little memory; no clause says when.
    #[error("out of memory")]
    Memory,
}

impl SourceError {
    /// The number of the error; want of memory has none.
    pub fn number(&self) -> Option<u8>
        ensures { result ≡ errors.number_of self.now }
    {
        match self {
            SourceError::At { number, .. } => Some(*number),
            SourceError::Memory => None,
        }
    }

    /// The line of the error; want of memory has none.
    pub fn line(&self) -> Option<u32>
        ensures { result ≡ errors.line_of self.now }
    {
        match self {
            SourceError::At { line, .. } => Some(*line),
            SourceError::Memory => None,
        }
    }
}

impl From<Refusal> for SourceError {
    ghost use Rattle.std.specs.Prelude.{◌≡◌};
    ghost use Rattle.sd_parse.specs.declared.error.SourceError.TheVariants.{At};

    ghost from_gives = { λ refusal error. error ≡ At refusal.number refusal.line };

    fn from(refusal: Refusal) -> SourceError {
        let Refusal { number, line } = refusal;
        SourceError::At { number, line }
    }
}

impl From<NoMemory> for SourceError {
    ghost use Rattle.std.specs.Prelude.{◌≡◌};
    ghost use Rattle.sd_parse.specs.declared.error.SourceError.TheVariants.{Memory};

    ghost from_gives = { λ _ error. error ≡ Memory };

    fn from(_error: NoMemory) -> SourceError {
        SourceError::Memory
    }
}
