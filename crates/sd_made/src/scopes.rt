//! The graph of a program, bound to sizes, keeps the rule of names.
//!
//! Each private container of it is made a scope's own, or is the element of a consume scope, once; no
//! variable is a parameter twice, or a parameter and set by a transition. How often a number is made a
//! scope's own or is given a value is counted along the statements (`proofs/scopes_lemmas/StatesCounted.antt`).
mod laws;

pub use laws::the_bound_graph_of_a_program_has_its_names;
