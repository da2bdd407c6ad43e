//! Flat code: a tasklet's instructions and their run without memory.
//!
//! `op` has the instructions and what they do on registers, arrays and a list of effects. `tcode` has the code of a
//! tasklet, the frame that it is run on, and its run, whose effects or fault are the tasklet meaning's. `columns`
//! runs the code many times at once. `sd_compile` makes it.
#![tactic(auto)]

mod columns;
mod op;
mod tcode;

pub use columns::{Columns, Spaced, add_products};
pub use op::{Array, Log, Op, Source, run_ops};
pub use tcode::{
    Code, Frame, Layout, run, run_from, run_plain, what_a_frame_has, what_is_given_stays_whole,
};
