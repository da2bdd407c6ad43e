//! The parts that the text of a graph is made of, byte for byte as `specs/graphs/GraphText.antt` has them.
//!
//! A graph is its containers and its states, each state its nodes and edges as `sd_wire` has them
//! and its transitions, and behind a state stand the graphs that its items hold, each with its path before it. Each part
//! is a text of its own, so that a writer keeps one of them at a time. Variables stand from the outermost
//! one. Nothing is asked of the graph, and want of memory is the one refusal.
mod affine;
mod container;
mod graph;
mod link;
mod node;
mod order;
mod path;
mod state;
mod subset;

pub use affine::{push_affine, push_end};
pub use container::{names_stream, push_container_name};
pub use graph::{StateText, head_text, node_at, spans_of, state_text};
pub use link::resolution_word;
pub use path::{path_line, push_path, with_step};
