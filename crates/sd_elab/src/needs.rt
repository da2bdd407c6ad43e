//! The programs of a source that a block needs.
//!
//! `needed` finds, of the programs above a block, those that the block calls, and those that one of
//! these needs in turn, exactly as `Needed.antt` defines them. A call is of the latest program of its name.
mod above;
mod called;

pub use above::needed;
