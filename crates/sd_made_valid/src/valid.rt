//! The graph of a program that was read is valid.
//!
//! Each of the eight rules is proved of it in a module of its own; here they stand together
//! (`the_bound_graph_of_a_text_is_valid`). So `validate` tells no rule and no place of what `parse`,
//! `elaborate` and `bind` have made, and the graph is as the laws of graphs ask.
mod laws;

pub use laws::the_bound_graph_of_a_text_is_valid;
