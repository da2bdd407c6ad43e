//! What a statement's item is made of.
//!
//! The names in force with the containers of a program, by them the links of connectors, and the items of
//! element statements and conditions: each call gives exactly what its definition in `specs/` says, for
//! expressions within the limits, or wants memory. A name not in force counts as 0.
mod element;
mod link;
mod names;
mod operator;
mod task;
mod used;

pub use link::{element_link, memlet_link, ports, resolution_of, subset_link};
pub use names::Names;
pub use operator::{one_sign, two_sign};
pub use task::{element_task, guard, guard_below};
pub use used::{push_variable, variable_value};
