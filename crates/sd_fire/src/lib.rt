//! Moves in what is left of a graph's run.
//!
//! `fire` makes the move at a path, `advance` the takes and transitions among them, and `begin` what begins there.
//! `settle` closes the consume scopes that are finished for good. Each comes to what the work's move comes to, and
//! the counts of the tree are right again. Nothing is asked of paths or graphs.
#![tactic(auto)]

mod advance;
mod begin;
mod fire;
mod settle;
mod sparse;

pub use advance::{go_on_run, take_element};
pub use begin::{begin_body, begin_item, begin_run, begin_state};
pub use fire::{fire_left, fire_run};
pub use settle::settle_run;
