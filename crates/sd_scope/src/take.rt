//! The take of a value that waits in the stream of a consume scope.
//!
//! `take_value` takes the value at a position out of the stream, and answers it with the memory of its element and the scope where
//! the element stands, exactly as they begin in the graph's work. What the element does begins there.
mod taken;

pub use taken::{Taken, take_value};
