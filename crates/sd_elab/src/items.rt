//! The items of statements.
//!
//! `push_item` puts the item of a statement behind others, exactly as `items_with` (`Items.antt`) defines
//! it; those of a scope's block are made on the way. Calls are of graphs of earlier programs (`Graphs`).
mod call;
mod count;
mod declaration;
mod graphs;
mod item;
mod leaf;
mod simple;

pub use count::{count_containers, count_variables};
pub use graphs::{Graphs, empty_graph};
pub use item::{Numbers, push_item};
