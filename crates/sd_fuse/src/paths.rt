//! Two maps made one at two paths, by the conditions and their numbers.
mod laws;

pub use laws::a_fused_graph_ends_alike;
