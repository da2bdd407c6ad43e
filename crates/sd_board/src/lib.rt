//! The board of workers: pieces of a state's items that several workers take, do and finish.
//!
//! `assigned` names what a board is for; `mark` and `progress` have how far its pieces are, `job` what workers are given, and `state` what stands behind
//! the board's lock, with its steps: the history of what was done is part of it, by its type. `board` has the lock, and workers on threads,
//! who know of `pieces` how each is cut and done. By `laws` a board with all pieces ends as the sequential run, and one whose run is done is not
//! stopped.
#![tactic(auto)]

mod assigned;
mod board;
mod job;
mod laws;
mod left;
mod mark;
mod pieces;
mod progress;
mod state;

pub use assigned::Assigned;
pub use board::{Board, Opening, Taken, run_board};
pub use job::{Closed, FinishError, Job, Step};
pub use laws::{
    a_board_whose_run_is_done_is_not_stopped, a_whole_board_ends_as_the_sequential_run,
    pieces_of_a_state_have_ends,
};
pub use mark::Mark;
pub use pieces::Pieces;
pub use progress::Asked;
pub use state::BoardState;
