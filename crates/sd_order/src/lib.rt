//! Which items of a list are before which, as a table.
//!
//! `items` makes the table of a list of a graph's items, which tells exactly what the meaning of the graph
//! does (`before` of `sd_graph`). `table` keeps it, one bit for each pair. Want of memory is the one refusal.
#![tactic(auto)]

mod items;
mod table;

pub use items::order_of;
pub use table::{Order, told_at};
