ghost use Rattle.std.specs.Prelude.{◌≡◌};

use sd_mem::Memory;
use sd_part::Kept;
use thiserror::Error;

/// A piece that a worker took from a board. Only the board makes one, and it must be spent: it is finished or given back.
pub struct Job {
    pub(crate) number: usize,
}

/// What a worker is told that asks for work.
pub enum Step {
    /// It has this piece to do.
    Job(Job),
    /// No piece may begin yet.
    Wait,
    /// Nothing is left to begin or in work, or the board is stopped.
    Over,
}

/// Why a job is not finished.
#[derive(Clone, Copy, Debug, PartialEq, Eq, Error)]
pub enum FinishError {
    /// Its piece is not in work, or the memory has not any more what was there when it was cut.
    #[error("the piece is not in work, or the memory has changed")]
    NotInWork,
    /// There was too little memory for what a piece that is done leaves.
    #[error("out of memory")]
    Memory,
}

/// What was done on a board that was closed.
#[derive(Drop)]
pub struct Closed {
    /// The memory after the pieces of the history.
    pub memory: Memory,
    /// The numbers of the pieces that were done, in order.
    pub history: Vec<usize>,
    /// Whether these are all pieces.
    pub is_whole: bool,
    /// The turns of these pieces.
    pub turns: u64,
    /// What stopped the board, if it was stopped.
    pub stopped: Option<Kept>,
}

impl Job {
    /// The number of the piece.
    pub fn number(&self) -> usize
        ensures { result ≡ self.now.number }
    {
        self.number
    }
}
