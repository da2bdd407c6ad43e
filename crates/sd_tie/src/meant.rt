//! The graph means what the source says: the sequential run of the graph of a program, bound to sizes,
//! is what its source says, in both directions. The meaning of a source is that of `sd_says`, by its
//! statements alone; the graph is that of `sd_elab`, its sizes are bound by `sd_valid`, and its run is
//! that of `sd_work`.
mod laws;

pub use laws::{a_graph_does_what_its_source_says, a_graph_does_what_its_text_says};
