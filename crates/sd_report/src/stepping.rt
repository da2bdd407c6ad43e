//! A run by picks, told as the sequential run.
//!
//! `step` runs a valid, accepted graph by picks (`sd_core`) and tells its end, and its steps where they are asked for
//! (`specs/stepping/Step.antt`). Where the run is done, its own end is told, which is that of the sequential run but for the order of
//! values in streams; and else that of the sequential run from the opening memory. So no fault of a picked run is told,
//! whatever the picks are.
//!
//! `run_rewritten`, `step_rewritten` and `run_by_workers` run a graph that was made of another one and, where it is done, leaves what that
//! leaves. What they tell is the end of the other one's sequential run: where the new graph's run is not done, the other one is run.
mod laws;
mod rewritten;
mod telling;
mod workers;

pub use laws::given_memories_are_of_their_widths;
pub use rewritten::{run_rewritten, step_rewritten};
pub use telling::step;
pub use workers::{Limits, run_by_workers};
