//! The states of a program's graph stand as the statements of its block make them, where the variables
//! of the loops around them show in them (`specs/loops_shown/Shown.antt` of `sd_made`): the premise of the law of `states`,
//! over the definition of the graph of a program.
mod laws;

pub use laws::the_states_of_a_block_stand_as_they_are_made;
