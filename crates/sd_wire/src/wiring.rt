//! The nodes and edges of a graph's states, and what items do to which containers.
//!
//! Items are drawn one after another by the five rules of `specs/wiring/Drawing.antt`, and the edges are
//! listed by source and target (`specs/wiring/Listing.antt`). Nothing is asked of the graph: a container
//! that stands in no list round an item has no edge. Want of memory is the one refusal; a state with
//! more nodes than 32 bits can count comes to it too.
mod access;
mod drawing;
mod items;
mod listing;
mod mentioned;
mod mode;
mod passing;
mod uses;
mod wiring;

pub use mentioned::{has_number, joined_mode};
pub use mode::{Use, UseMode, do_conflict, reduction_mode};
pub use uses::{graph_uses, output_mode};
pub use wiring::{wire, wire_items};
