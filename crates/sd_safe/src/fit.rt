//! A valid graph is fit: what the laws of boxes ask of a graph is given by its validity.
//!
//! By `laws`, a valid graph whose expressions are in normal form is fit. That they are in normal form
//! is so of each graph that a program holds, by the types of its parts (`normal`).
mod laws;

pub use laws::a_valid_graph_is_fit;
