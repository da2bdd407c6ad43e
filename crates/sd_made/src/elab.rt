//! Laws about the graph of a program, over definitions alone.
//!
//! Each transition without a mark leads to a later state, so each run of the graph of a program ends,
//! and has one outcome; and a marked one closes a loop that is entered at its begin alone
//! (`specs/elab/EnteredLoops.antt`). Of a program that is well formed the graph names what is in force, and
//! its transitions set the variables of loops alone (`specs/elab/LoopShape.antt`).
mod entered;
mod in_force;
mod loops;
mod upwards;

pub use entered::the_graph_of_a_program_enters_loops_at_their_begins;
pub use in_force::the_graph_of_a_program_names_what_is_in_force;
pub use loops::the_graph_of_a_program_sets_loop_variables_only;
pub use upwards::{
    each_run_of_the_graph_of_a_program_has_one_outcome, the_graph_of_a_program_leads_upwards,
};
