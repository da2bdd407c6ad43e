//! The graph of a program that was read, bound to sizes, has maps of 1 to 8 parameters.
//!
//! Each map of the graph is what a statement makes where it stands (`sd_made`), and has a
//! parameter for each range of the statement. A statement that was read has 1 to 8 of them
//! (`sd_read`), and binding leaves each where it is (`proofs/maps_lemmas/Parameters`).
mod laws;

pub use laws::maps_of_the_bound_graph_of_a_text_have_few_parameters;
