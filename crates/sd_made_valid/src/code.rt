//! The code of the graph of a program that was read, bound to sizes, is small.
//!
//! A tasklet has a connector and a line for each of its lines in the source, an element statement and a
//! condition a connector for each element, and an expression no more levels than it has in the source
//! (`proofs/code_lemmas/Expressions`, `proofs/code_lemmas/Tasklets`). Reading limits them (`sd_read`), and sizes leave them
//! as they are (`proofs/code_lemmas/Bound`).
mod laws;

pub use laws::code_of_the_bound_graph_of_a_text_is_small;
