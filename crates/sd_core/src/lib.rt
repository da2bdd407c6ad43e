//! The machine of a graph's run, which makes one picked move after another.
//!
//! `Machine` keeps what is left of a run with the counts of its next moves, so that a step goes down one path of the tree and does
//! not list the moves. In contracts it is the machine of residual work (`sd_work`): `Machine::new` opens it, `step` makes the move
//! of a picked number, and `moves` is 0 exactly where nothing is left. Behind a step `release` lets go of what a finished point or
//! element holds, which no run looks at (`released`). `run_picked` is the run by a list of picks, and `run_traced` tells its
//! steps besides. Nothing is asked of graphs.
#![tactic(auto)]

mod machine;
mod release;
mod released;
mod run;
mod stepped;

pub use machine::Machine;
pub use released::what_was_let_go_is_not_missed;
pub use run::{Chosen, TracedRun, run_picked, run_traced};
pub use stepped::Stepped;
