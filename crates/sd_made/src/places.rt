//! What stands at each place of the graph of a program, and rules of validity that it keeps.
//!
//! Each item and each transition of the graph is what a statement makes where it stands: there the names
//! of the source stand for containers and variables of the graph that are in force, and a container is
//! what its use asks for (`proofs/places_lemmas/Made.antt`). By `laws` the graph, bound to sizes, has its streams in
//! place, and names no size symbol.
mod laws;

pub use laws::{
    the_bound_graph_of_a_program_has_its_streams_in_place,
    the_bound_graph_of_a_program_names_no_size_symbol,
};
