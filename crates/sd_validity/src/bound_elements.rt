//! The containers of a graph that was bound to sizes keep the limits on elements, at each place of the graph.
//!
//! Binding counts the elements of all containers, those of the graph first and then those of its nested
//! graphs. The places of the bound graph stand in the same order, so behind the places before one the
//! count has come as far as the containers of its graph (`proofs/bound_elements_lemmas/Elements`).
mod laws;

pub use laws::containers_of_a_bound_graph_have_few_elements;
