//! Which items of a list of a graph are before which.
//!
//! `order_of` makes the table that tells exactly what the graph's meaning does (`before` of `sd_graph`): whether a path of
//! conflicts leads from an item to a later one. What the items do that a path has reached is kept as one mode for each
//! container (`specs/items/Joined.antt`), so an item is asked once for each earlier one. Want of memory is the one refusal.
mod order;
mod reached;
mod use_;
mod uses;

pub use order::order_of;
