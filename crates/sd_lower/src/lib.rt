//! The plan of a graph: what workers do of it side by side.
//!
//! `plan_of` makes a board of the items of each of the graph's own states, and tells of each container of a map that is
//! cut into pieces whether the pieces share it or each has a copy of it; `plan_text` writes this. `piece_count` and `values_of_piece` tell how
//! the values of a map's first parameter are shared out. Nothing is asked of the graph; want of memory is the one
//! refusal, and a number that has no room is one too.
#![tactic(auto)]

mod board;
mod hulls;
mod kinds;
mod laws;
mod pieces;
mod plan;
mod text;

pub use board::BoardWork;
pub use hulls::Hull;
pub use kinds::{Kind, MapContainer};
pub use laws::{hulls_have_what_accesses_touch, pieces_have_all_values};
pub use pieces::{PieceValues, piece_count, values_of_piece};
pub use plan::{Plan, plan_of};
pub use text::plan_text;
