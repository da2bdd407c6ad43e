//! The graph of a program, bound to sizes, keeps the limits on expressions and containers.
//!
//! The limits that a program keeps without sizes (`sd_program`) and the sizes that are not refused are
//! those of its graph: its expressions are small (`proofs/limits_lemmas/Expressions`), and its containers are few and
//! have few dimensions (`proofs/limits_lemmas/Containers`).
mod laws;

pub use laws::{
    containers_of_the_bound_graph_of_a_program_are_few,
    expressions_of_the_bound_graph_of_a_program_are_small,
};
