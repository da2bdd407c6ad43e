//! Two states of a graph as one, over definitions alone: conditions, the new graph, and laws. There is no call yet.
//!
//! `states` has when two states may be fused, the graph with them fused, also where it is nested in another, and the law
//! that it runs as the old one. `kept` has the law that it stays valid. `laws` has both by paths, from the conditions by
//! their numbers (`specs/StateFusion.antt`), and that the new graph is in normal form where the old one is.
#![tactic(auto)]

mod kept;
mod laws;
mod states;

pub use kept::a_graph_with_states_fused_stays_valid;
pub use laws::{
    a_graph_with_two_states_as_one_is_normal, a_graph_with_two_states_as_one_is_valid,
    a_graph_with_two_states_as_one_runs_the_same,
};
pub use states::{a_graph_with_states_fused_runs_the_same, more_transitions_are_enough};
