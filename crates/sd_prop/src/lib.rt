//! The accesses of a graph's scopes, and those of each scope as a whole.
//!
//! `propagation` has the definitions: the accesses of an item with the parameters of its scopes replaced, and one
//! access for each container and mode of a scope, its box the hull of all. `collecting` makes them from a graph, each
//! equal to its definition. Nothing is asked of the graph; want of memory is the one refusal.
#![tactic(auto)]

mod collecting;
mod propagation;

pub use collecting::{
    Access, Over, Scope, WholeScope, accesses, annotate, propagate, scope_with, scopes,
};
pub use propagation::the_scope_at_a_path_has_it;
