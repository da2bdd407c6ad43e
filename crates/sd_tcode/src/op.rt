//! Flat instructions and what they do.
//!
//! An instruction reads and writes registers of 64 bits, looks at the extents and elements of
//! connectors, and keeps effects in a log (`specs/op/Machine.antt`). Where the elements stand is left to a
//! `Source`: arrays of code's own are one. `run_ops` does instructions one after another, jumps forward included. That each register and connector that they name is there
//! (`specs/op/Within.antt`) is asked of them, so that nothing is tested on the way; no memory is taken.
mod array;
mod log;
mod op;
mod running;
mod source;
mod step;

pub use array::{Array, Own};
pub use log::Log;
pub use op::Op;
pub use running::{run_ops, run_own_ops};
pub use source::Source;
