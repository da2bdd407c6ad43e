ghost use Rattle.std.specs.Prelude.{◌≡◌, IfOk};

use sd_list::{NoMemory, Text};
use std::alloc::Global;
use std::fmt;
use thiserror::Error;

/// Why a graph can't be bound: the first refusal, with the name that is told.
#[derive(Drop, Error)]
pub enum BindError {
    /// A size symbol has no value.
    #[error("arrays error 11 {}", .0.as_str())]
    MissingSize(Text),
    /// The value of a size symbol is not from 0 to 2^24.
    #[error("arrays error 12 {}", .0.as_str())]
    BadSize(Text),
    /// A container has a negative extent or more than 2^24 elements, or has more than 2^26
    /// together with those before it.
    #[error("arrays error 13 {}", .0.as_str())]
    OverLimit(Text),
    /// There was too little memory; no clause says when.
    #[error("out of memory")]
    Memory,
}

impl From<NoMemory> for BindError {
    ghost use Rattle.std.specs.Prelude.{◌≡◌};
    ghost use Rattle.sd_valid.specs.declared.error.BindError.TheVariants.{Memory};

    ghost from_gives = { λ _ error. error ≡ Memory };

    fn from(_error: NoMemory) -> BindError {
        BindError::Memory
    }
}

/// Shown as it is told.
impl fmt::Debug for BindError {
    fn fmt<W: fmt::Write>(&self, f: &mut fmt::Formatter<W>) -> fmt::Result {
        write!(f, "{self}")
    }
}

/// A name that a refusal tells.
pub(crate) fn text_of(alloc: Global, name: &str) -> Result<Text, NoMemory>
    ensures { IfOk result (λ copy. copy ≡ name.now) }
{
    Ok(Text::from(name.to_string(alloc)?))
}
