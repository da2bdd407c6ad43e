//! The graph of a program, bound to sizes, has a link for each argument of each graph nested in it.
//!
//! A call is of a program above, of which it has the arguments, and the graph of that program has them as
//! its first containers (`proofs/links_lemmas/FirstContainers.antt`). The law goes along the calls of each function
//! with the graphs of those above it (`proofs/links_lemmas/Linked.antt`).
mod laws;

pub use laws::the_bound_graph_of_a_program_links_its_arguments;
