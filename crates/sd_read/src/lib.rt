//! Laws about sources that are read, over definitions alone: there is no code here.
//!
//! `decided` has which error of a source is told, and `told` that it has one of ten numbers and a line of the
//! text. `readable` has that a program which was read is well formed, and `blocks` that none of its blocks is
//! empty and that the ends of its loops name other variables than the loops'.
#![tactic(auto)]

mod blocks;
mod decided;
mod readable;
mod told;

pub use blocks::{
    no_block_of_a_program_that_was_read_is_empty,
    the_end_of_a_loop_that_was_read_names_other_variables,
};
pub use decided::{
    errors_of_tokens_go_first, no_line_of_a_program_is_refused, the_first_refused_line_decides,
};
pub use readable::a_program_that_was_read_is_well_formed;
pub use told::an_error_has_a_number_and_a_line;
