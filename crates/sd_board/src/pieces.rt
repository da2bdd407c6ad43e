ghost use Rattle.std.specs.Prelude.{ℕ, ◌<◌, length, IfOk};
ghost use Rattle.sd_board.specs.Assignment.{IsEndOf, IsLikeOpening};

use crate::assigned::Assigned;
use sd_cut::Overlay;
use sd_list::NoMemory;
use sd_mem::Memory;
use sd_part::PartEnd;

/// The pieces of a board's work, as workers do them: a piece is cut out of the board's memory, and then done on what was cut.
pub trait Pieces<A: Assigned> {
    /// A piece, with what was cut for it.
    type Cut: Drop + Send;

    /// This was cut for the piece of a number, which may be done on it.
    ghost is_cut: { Self → (number : ℕ) → Self.Cut → Type 0 };

    /// Cuts what a piece may touch out of a memory, which stays.
    fn cut(&self, number: usize, memory: &Memory) -> Result<Self::Cut, NoMemory>
        requires there { number < length A.assignment.work.pieces }
        requires like { IsLikeOpening A.assignment memory.now }
        ensures { IfOk result (is_cut self.now number) };

    /// Does a piece on what was cut for it, with as many turns as the board's budget. What it comes to is left on the cut.
    fn run(&self, number: usize, cut: Self::Cut) -> Result<(Overlay, PartEnd), NoMemory>
        requires { is_cut self.now number cut }
        ensures { IfOk result (λ ran. IsEndOf A.assignment number ran.0 ran.1) };
}
