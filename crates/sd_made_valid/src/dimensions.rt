//! The graph of a program, bound to sizes, keeps parts of the rule on dimensions.
//!
//! Each item and each condition of the graph is what a statement makes where it stands
//! (`sd_made`). So code has a link for each of its connectors, and a condition reads single
//! elements and is one assignment (`proofs/dimensions_lemmas/Linked`); and where each array that is declared has an extent,
//! as in each program that was read, a subset has a dimension for each of its container (`proofs/dimensions_lemmas/Subsets`).
mod laws;

pub use laws::{
    code_of_the_bound_graph_of_a_program_is_linked, subsets_of_the_bound_graph_of_a_text_fit,
};
