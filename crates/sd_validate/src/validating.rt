//! Whether a graph is valid.
//!
//! `validate` asks the eight rules of `sd_validity` one after another, each at all places of the
//! graph, and tells the lowest one that fails with the first place at which it does
//! (`specs/validating/Invalidity.antt`). Nothing is asked of the graph; want of memory is the one other refusal.
mod invalid;
mod rules;

pub use invalid::Invalid;
pub use rules::validate;
