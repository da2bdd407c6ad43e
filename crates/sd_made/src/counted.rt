//! How many nodes a list of items has, in a graph and by a source's statements, without the nodes.
//!
//! In both an item has an access node for each own container of its list that it reads and that has no
//! current one, its own nodes, and an access node for each that it writes (`specs/counted/Drawn.antt` and
//! `specs/counted/Counted.antt`). The laws tie these counts to the nodes that are drawn (`proofs/counted_lemmas/DrawnNodes`) and to
//! those that are made one after another (`proofs/counted_lemmas/CountedNodes`). Where names and numbers of containers
//! stand for each other, an item has as many access nodes by the ones as by the others (`proofs/counted_lemmas/Agreed`).
mod laws;

pub use laws::{items_are_drawn_with_so_many_nodes, items_of_a_source_have_so_many_nodes};
