//! The transitions of the graph of a program, bound to sizes, keep the rule of transitions.
//!
//! What is known of the loops of the graph (`elab`) is kept by binding, and is tested as the rule
//! asks. A variable has one begin in its graph; that other graphs about it or in it have another path is
//! of `sd_validity`.
mod laws;

pub use laws::the_bound_graph_of_a_program_has_right_transitions;
