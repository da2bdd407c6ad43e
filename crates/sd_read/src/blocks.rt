//! No block of a program that was read is empty, and the end of a loop names other variables than the loop's.
//!
//! A line that opens a block awaits a line in it, and a block ends only where nothing is awaited
//! (`proofs/blocks_lemmas/Filled`, `proofs/blocks_lemmas/Lines`). The names of an end are in force before the loop, and the name of its
//! variable is not (`proofs/blocks_lemmas/Ends`).
mod laws;

pub use laws::{
    no_block_of_a_program_that_was_read_is_empty,
    the_end_of_a_loop_that_was_read_names_other_variables,
};
