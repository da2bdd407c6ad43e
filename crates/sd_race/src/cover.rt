//! What an item touches lies in the boxes of its accesses.
//!
//! `specs/cover/Touched.antt` says which touches an access covers: those of its container, in its mode, at
//! the indices of its box. `Fit.antt` has what of a graph's validity this rests on, and `Inside.antt`
//! what joined accesses ask of the containers. By `laws` the accesses of an item cover all that it
//! touches, at the values then in force, and joined accesses cover what their accesses do.
mod laws;

pub use laws::{joined_accesses_cover_what_their_accesses_do, what_is_touched_lies_in_the_boxes};
