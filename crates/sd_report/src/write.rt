//! Writes graphs, and how runs have ended, into a sink.
//!
//! `write_run` writes the steps that are told of a run and then its arrays, its fault or that its turns are spent
//! (`specs/write/RunText.antt`). `write_graph` writes a graph with the graphs nested in it, and `write_text` writes a text. Each
//! line is a write of its own, and a line longer than 4,096 bytes goes in pieces of 4,096. Where the sink fails or memory is
//! wanting, what it took is a prefix of the text. Little of a text is kept at a time: of an array some elements, of a
//! graph one state.
mod arrays;
mod graph;
mod output;
mod runs;

pub use graph::write_graph;
pub use output::write_text;
pub use runs::write_run;
