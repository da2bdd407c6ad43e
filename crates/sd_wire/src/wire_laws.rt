//! Laws about the nodes and edges of a state, over definitions alone.
mod laws;

pub use laws::order_edges_come_from_the_items_that_conflict;
