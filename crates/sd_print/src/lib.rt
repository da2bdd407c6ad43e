//! The texts of graphs, of places and of faults, byte for byte as their definitions have them.
//!
//! `graphs` writes a graph with its containers, states, nodes, edges and transitions. `places` writes where a
//! fault came and what it is. Nothing is asked of what is written; want of memory is the one refusal.
#![tactic(auto)]

mod graphs;
mod places;

pub use graphs::{
    StateText, head_text, names_stream, node_at, path_line, push_affine, push_container_name,
    push_end, push_path, resolution_word, spans_of, state_text, with_step,
};
pub use places::{fault_text, place_text};
