//! The accesses of a graph's scopes, and those of each scope as a whole.
//!
//! `specs/propagation/ItemNodes.antt` numbers a state's items by its nodes, `Accesses.antt` has the accesses of
//! an item with the parameters of its scopes replaced, `Scopes.antt` the scopes of a graph in the
//! order of their nodes, and `Joined.antt` one access for each container and mode of a scope, its
//! box the hull of all. By `laws` the scope at a path has this path.
mod laws;

pub use laws::the_scope_at_a_path_has_it;
