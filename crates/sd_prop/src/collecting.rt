//! The accesses of a graph's scopes, made from the graph.
//!
//! `scopes` gives each scope with the accesses of its body, in the order of states and nodes;
//! `accesses` and `propagate` those of the scope at a path, and `annotate` those of each scope of the
//! graph's own states as a whole. Each equals its definition in `scopes`. Nothing is asked of the
//! graph; want of memory is the one refusal, and a number that has no room comes to it too.
mod access;
mod depth_first;
mod joining;
mod link;
mod node;
mod scope;
mod top;
mod walk;

pub use access::Access;
pub use depth_first::{accesses, scope_with, scopes};
pub use scope::{Over, Scope};
pub use top::{WholeScope, annotate, propagate};
