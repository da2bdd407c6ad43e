//! Pieces of a graph's items, each cut of a memory and run on what was cut.
//!
//! `cut_piece` cuts what a piece of an item of a valid graph may touch out of a memory; `cut_outlined` does so by the outline of the item,
//! which `outline_at` makes once for all its pieces. `run_piece` runs the piece on what was cut, with so many turns.
//! What the piece left, when it is committed in a memory with which it agrees, is what the piece's own work from that memory
//! leaves, and so are its turns, its fault and its want of a turn. `held` asks whether a memory has what is to be cut,
//! `item` whether there is such a piece. By `laws` a memory of the graph has what is to be cut, and what is left agrees with it.
#![tactic(auto)]

mod array;
mod cut;
mod error;
mod held;
mod item;
mod laws;
mod piece;
mod run;

pub use cut::{cut_outlined, cut_piece, outline_at};
pub use error::PieceError;
pub use laws::{
    a_memory_of_a_graph_has_what_its_pieces_touch, what_a_piece_left_agrees_with_its_memory,
};
pub use piece::{Piece, PieceAt, PieceEnd};
pub use run::run_piece;
