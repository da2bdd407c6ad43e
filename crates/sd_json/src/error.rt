use sd_list::{NoMemory, Text};
use std::fmt;
use thiserror::Error;

/// Why an arrays file is refused: the first case that does, with the name that is told.
#[derive(Drop, Error)]
pub enum InputError {
    /// The bytes are no JSON, or it is no object.
    #[error("arrays error 14")]
    NotJson,
    /// An argument has no entry.
    #[error("arrays error 17 {}", .0.as_str())]
    Missing(Text),
    /// An entry is neither a size symbol's nor an argument's.
    #[error("arrays error 18 {}", .0.as_str())]
    Extra(Text),
    /// A size, or a leaf of an argument, is no whole number from -2^63 to 2^63-1.
    #[error("arrays error 15 {}", .0.as_str())]
    NotANumber(Text),
    /// An argument's lists have no common shape.
    #[error("arrays error 16 {}", .0.as_str())]
    Ragged(Text),
    /// An argument's shape is not that of its container.
    #[error("arrays error 19 {}", .0.as_str())]
    WrongShape(Text),
    /// There was too little memory; no clause says when.
    #[error("out of memory")]
    Memory,
}

impl From<NoMemory> for InputError {
    ghost use Rattle.std.specs.Prelude.{◌≡◌};
    ghost use Rattle.sd_json.specs.declared.error.InputError.TheVariants.{Memory};

    ghost from_gives = { λ _ error. error ≡ Memory };

    fn from(_error: NoMemory) -> InputError {
        InputError::Memory
    }
}

/// Shown as it is told.
impl fmt::Debug for InputError {
    fn fmt<W: fmt::Write>(&self, f: &mut fmt::Formatter<W>) -> fmt::Result {
        write!(f, "{self}")
    }
}
