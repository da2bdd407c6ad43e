//! Valid graphs with two states fused are valid.
mod laws;

pub use laws::a_graph_with_states_fused_stays_valid;
