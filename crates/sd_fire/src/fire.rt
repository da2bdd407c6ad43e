//! The move at a path of what is left of a graph's run.
//!
//! `fire_run` goes down the path, one level of the tree after another, to the leaf, the take or the transition that moves there. It
//! lends the memory of each point, element and run on the way to the machine, and takes it back behind the move. What the move
//! comes to is what it comes to in the run's work, and the counts of the tree are right again (`specs/advance/Right.antt`).
//! Nothing is asked of paths; one that leads into nothing is no move.
mod fire;
pub(crate) mod instance;

pub use fire::{fire_left, fire_run};
