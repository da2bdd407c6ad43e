//! The two ways in which a run of a graph goes on other than by a leaf's move: takes and transitions.
//!
//! `take_element` takes a value out of the stream of a consume scope, and its element begins behind those in work. `go_on_run`
//! makes the transition of a run whose state is finished: the next state begins over the run's memory, or the run ends. Each comes
//! to what the work's move comes to, and the counts of the tree are right again (`specs/advance/Right.antt`).
mod going;
mod taking;

pub use going::go_on_run;
pub use taking::take_element;
