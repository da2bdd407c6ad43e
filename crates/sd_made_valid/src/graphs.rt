//! The graph of a program that was read, bound to sizes, has states, and so does each graph nested in it.
//!
//! A graph nests those of the programs that it calls (`proofs/graphs_lemmas/Nested`), which are above it and have
//! states, and no more than eight calls stand in a chain (`proofs/graphs_lemmas/Shallow`). So at each place no more
//! than eight graphs are about the graph of the place (`proofs/graphs_lemmas/Places`).
mod laws;

pub use laws::graphs_of_the_bound_graph_of_a_text_are_nested_little;
