//! What is told of a run by picks is what is told of the sequential run.
//!
//! A run by picks that is done is told as it ends, and another one as the sequential run ends
//! (`specs/same_end/Told.antt`). By `laws`, of a valid, accepted graph both are the same end, but for the order
//! of values in streams, and have the same text. There is no code here.
mod laws;

pub use laws::{
    a_run_by_picks_is_told_as_the_sequential_run, memories_that_are_alike_have_one_text,
};
