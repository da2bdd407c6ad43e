//! The statements of a program, loops and branches too, do in its graph what they say, where the
//! states that they make stand among the states of the graph (`specs/states/Made.antt`). `specs/states/Course.antt` has
//! what a run comes to from the end of a state on; by the law it goes on from the end of a block's first
//! state to that of its last one as the block says, or ends with the fault or the want of a turn that it
//! says.
mod laws;

pub use laws::a_block_of_a_program_does_what_it_says;
