//! A graph with two of its states fused runs as the old one.
mod laws;

pub use laws::{a_graph_with_states_fused_runs_the_same, more_transitions_are_enough};
