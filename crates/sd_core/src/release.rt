//! What points and elements hold is let go when they are finished.
//!
//! `owner` lets go of the parts and the memory of one of them, `sparse` of those of a point of a map of tasklets, and `release` finds them
//! on the way to the place of a move.
mod owner;
mod release;
mod sparse;

pub(crate) use release::release_run;
