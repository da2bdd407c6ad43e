//! The states of the graph of a program, bound to sizes, have few nodes: as many as its source is counted
//! to have.
//!
//! What an item reads and writes, by the containers' numbers, is what its statement does, by their names
//! (`proofs/nodes_lemmas/Uses`, `proofs/nodes_lemmas/Items`), so each list of items has as many nodes as are counted of it, and each
//! function does with its arguments what is said of it (`proofs/nodes_lemmas/States`, `proofs/nodes_lemmas/Functions`). The graphs of
//! calls are those of the functions above, and sizes change no node (`proofs/nodes_lemmas/Bound`).
mod laws;

pub use laws::{
    states_of_the_bound_graph_of_a_program_have_few_nodes,
    the_bound_graph_of_a_program_has_the_nodes_that_are_counted,
};
