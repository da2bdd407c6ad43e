use std::marker::Brand;

/// What a board is for, as its contracts know it. A board, its jobs and its workers' passes have it as a type parameter, so that they agree on
/// the work, on the memory with which it opens, and on the budget of turns. A call that opens a board chooses it.
pub trait Assigned {
    ghost use Rattle.sd_board.specs.Assignment.{Assignment};

    ghost assignment: { Assignment };
}

impl Assigned for Brand {
    ghost use Rattle.sd_board.specs.Assignment.{nothing_to_do};

    ghost assignment = { nothing_to_do };
}
