//! What the leaves of a graph do, one move after another: an instance of a tasklet reads an element, evaluates or performs an
//! effect; a copy or a reduction does one thing.
//!
//! A leaf that begins (`Instance::new`, `Doing::copy`, `Doing::reduction`) is that of the graph's work, and a move comes to exactly what
//! the work's next move does (`specs/moves/Moved.antt`), or for want of memory to nothing. Nothing is asked of graphs, scopes and memories.
//! An element is looked up once, when its leaf begins.
mod begin;
mod doing;
mod effects;
mod instance;
mod reduction;
mod todo;

pub use doing::Doing;
pub use instance::{Instance, Reading};
pub use todo::Todo;
