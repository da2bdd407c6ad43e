//! Graphs without consume scopes: whether a graph has one, and by `laws` that without one its work has no pools, whatever state
//! it comes to. Such work needs no settling.
mod consumes;
mod laws;

pub use consumes::graph_consumes;
pub use laws::a_graph_without_consume_scopes_has_no_pools;
