//! Whether a graph is valid.
//!
//! `validating` asks the eight rules of `sd_validity` one after another and tells the lowest one that fails, with
//! the first place at which it does. `limits` tells the first place that is not within the limits.
//! Nothing is asked of the graph; want of memory is the one other refusal.
#![tactic(auto)]

mod limits;
mod validating;

pub use limits::first_over_limits;
pub use validating::{Invalid, validate};
