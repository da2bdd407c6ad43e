//! Settling of what is left of a graph's run: the consume scopes that are finished for good are closed.
//!
//! `settle_run` goes from left to right through the tree, only to where consume scopes are open: it sets the number of values that
//! wait in the stream of each anew, and closes those that may go on, have no element in work and no value that waits, where in each
//! map between the scope and its stream all earlier points are finished. What is left is then the run's work, settled
//! (`specs/Settle.antt` of `sd_work`).
mod behind;
mod settle;

pub use settle::settle_run;
