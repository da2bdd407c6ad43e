//! The variables of loops show in the states that their blocks make, and in no others: the premise of
//! the law of `sd_tie`, over the definition of the graph of a program. A variable is in force in a
//! state of a graph by the paths of its transitions, in a program by the loops round a statement.
mod laws;

pub use laws::the_variables_of_loops_show_in_their_blocks;
