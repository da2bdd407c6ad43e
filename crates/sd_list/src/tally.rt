//! Counts of many parts, with their sum.
//!
//! Contracts see a `Tally` as the plain list of its counts. It keeps a tree of sums over them, in which one count is changed, and the
//! part in which the unit of a number stands is found, along one path from the whole to a part. One more count is put behind the
//! others in the same way, or for twice as much room in the time of all. More than 64 bits can count are want of memory.
mod nodes;
mod tally;

pub use nodes::Found;
pub use tally::Tally;
