//! What the leaves of a graph do when it runs.
//!
//! `leaves` does an instance of a tasklet, a copy or a reduction as a whole; `moves` does the same one move
//! after another. `transition` tells where a run goes on whose state is finished. Each is what the work of the graph
//! comes to. Nothing is asked of graphs, scopes and memories.
#![tactic(auto)]

mod leaves;
mod moves;
mod transition;

pub use leaves::{
    Next, dimensions_of, end_of, evaluated, inputs_of, is_stream, next_exit, perform_effect,
    places_of, put_target_place, run_copy, run_reduction, run_task, widened,
};
pub use moves::{Doing, Instance, Reading, Todo};
pub use transition::{Entry, Onward, go_on};
