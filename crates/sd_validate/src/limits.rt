//! The limits of valid graphs.
//!
//! `first_over_limits` goes over the places of a graph with the elements and nodes so far, and tells
//! the first one that is not within the limits, as `specs/rules/WithinLimits.antt` of `sd_validity` has them.
//! Each state is wired once, for its nodes. Nothing is asked of the graph; want of memory is the one
//! refusal.
mod affine;
mod code;
mod containers;
mod elements;
mod size;
mod totals;

pub use totals::first_over_limits;
