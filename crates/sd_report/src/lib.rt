//! How runs end, as it is told and written, and how graphs are written.
//!
//! `stepping` runs a graph by picks, or one that was made of another by one worker or several, and tells the end as that of the sequential run.
//! `same_end` has the law behind it: of a valid, accepted graph both ends have one text. `write` writes an end or a graph into a sink; where the sink fails or memory is
//! wanting, what it took is a prefix of the text.
#![tactic(auto)]

mod same_end;
mod stepping;
mod write;

pub use same_end::{
    a_run_by_picks_is_told_as_the_sequential_run, memories_that_are_alike_have_one_text,
};
pub use stepping::{
    Limits, given_memories_are_of_their_widths, run_by_workers, run_rewritten, step, step_rewritten,
};
pub use write::{write_graph, write_run, write_text};
