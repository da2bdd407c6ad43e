//! Uses of a cut one by one, as uses of the memory that it stands for, over definitions alone: there is no code here.
//!
//! Over a memory with which it agrees a cut stands for the one in which it is committed. By `laws`, what is read of an element on the cut is its
//! value there, and reading changes nothing there; and what is written on the cut is written there. So it is with
//! values that are pushed to a stream or taken from it; these uses keep what the laws ask of the stream.
#![tactic(auto)]

mod laws;

pub use laws::{
    elements_of_a_cut_are_those_of_its_memory, streams_of_a_cut_are_those_of_its_memory,
    uses_of_a_stream_keep_how_it_is_used,
};
