//! How a line of a source uses the names in force.
//!
//! `has_unknown_name` tells whether it names what is not there, `declares_twice` and `declares_local` what it
//! declares, and `has_mismatch` whether the shapes of its two sides differ. Each has a definition of its own, and
//! each call gives exactly its value. Nothing is asked of the names or the line, and only memory can be wanting.
#![tactic(auto)]

mod shape_mismatch;
mod stretch;
mod twice;
mod unknown_name;

pub use shape_mismatch::has_mismatch;
pub use twice::{declares_local, declares_twice};
pub use unknown_name::has_unknown_name;
