//! The plain evaluation of a tasklet's code, which is what the code means.
//!
//! `tasklet` gives the effects of the code in their order, or its first fault, exactly as the meaning of
//! `sd_graph` has it. `literals` has code with its numbers in variables, which means what it meant. Nothing is
//! asked of the code; want of memory is the one refusal.
#![tactic(auto)]

mod literals;
mod tasklet;

pub use literals::{Lifted, code_with_its_numbers_in_variables_means_the_same};
pub use tasklet::{
    Effect, Effects, Inputs, TaskFault, decides, eval, filled, has_room, holds, is_inside,
    one_value, row_number, two_values,
};
