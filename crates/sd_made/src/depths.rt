//! In the graph of a program, bound to sizes, few scopes and loops are about an item.
//!
//! Each marked transition closes a loop of the program, so no more loops are about a state than are
//! about the statement that makes it (`proofs/depths_lemmas/Loops`, `proofs/depths_lemmas/Counted`). With the scopes about an item
//! they are no more than what is about its statement (`proofs/depths_lemmas/Items`, `proofs/depths_lemmas/States`).
mod laws;

pub use laws::items_of_the_bound_graph_of_a_program_have_few_about;
