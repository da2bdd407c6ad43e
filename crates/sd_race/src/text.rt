//! The texts of the race check: what it tells of an accepted graph, and the race of one that is not.
//!
//! `check_text` has a line for each container and mode of each scope that stands in a list of the
//! graph's own states, and then that the graph is accepted (`specs/text/CheckText.antt`); `race_text` has
//! the scope and the two accesses of a race (`RaceText.antt`). Neither makes the check. Nothing is
//! asked of the graph or the race, and want of memory is the one refusal.
mod access;
mod race;
mod whole;

pub use race::race_text;
pub use whole::check_text;
