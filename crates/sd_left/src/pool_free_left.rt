//! What is left of a run without open consume scopes: no number of values that wait is kept in its tree, so that the tree tells its
//! next moves over any memories.
//! There is no code here.
mod laws;

pub use laws::a_tree_without_open_pools_waits_for_no_value;
