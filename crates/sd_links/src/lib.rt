//! The rules of valid graphs on links: dimensions, nested graphs, and copies and reductions.
//!
//! Each rule is an `impl Rule` in a file of its own that answers exactly what its definition in
//! `sd_validity` says at a place. Nothing is asked of the graph; want of memory is the one refusal.
#![tactic(auto)]

mod code;
mod dimensions;
mod extents;
mod moved;
mod nesting;
mod spans;
mod written;

pub use dimensions::Dimensions;
pub use moved::MovedShapes;
pub use nesting::NestedLinks;
