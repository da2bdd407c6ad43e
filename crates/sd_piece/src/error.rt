ghost use Rattle.std.specs.Prelude.{◌≡◌};
ghost use Rattle.sd_piece.specs.declared.error.PieceError.TheVariants.{Memory};

use sd_list::NoMemory;
use thiserror::Error;

/// Why no piece was cut.
#[derive(Clone, Copy, Debug, PartialEq, Eq, Error)]
pub enum PieceError {
    /// The graph has no such item, or the item no such piece.
    #[error("no such piece")]
    NoItem,
    /// The memory has not what the piece may touch, as the graph has it.
    #[error("the memory is not of the graph")]
    Foreign,
    /// There was too little memory, or a number on the way was too large for its type; no clause says when.
    #[error("out of memory")]
    Memory,
}

impl From<NoMemory> for PieceError {
    ghost from_gives = { λ _ error. error ≡ Memory };

    fn from(_error: NoMemory) -> PieceError {
        PieceError::Memory
    }
}
