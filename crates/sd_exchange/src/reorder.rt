//! Work in another order: what is done from left to right ends alike where compatible parts are exchanged,
//! and from memories that differ in the order of streams alone. Of the race check only safe pools are asked.
mod laws;

pub use laws::{alike_memories_end_alike, parts_in_another_order_end_alike};
