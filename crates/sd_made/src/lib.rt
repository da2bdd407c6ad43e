//! Laws about the graph of a program, over definitions alone: there is no code here.
//!
//! `elab` and `loops_shown` tell of its transitions, containers and loops, and `places` what stands at each place.
//! Each other module has what the graph keeps of one rule of validity when it is bound to sizes, as `scopes`, `loops`,
//! `links` or `nodes`; `counted` has the counts of nodes that a graph and its source share.
#![tactic(auto)]

mod counted;
mod depths;
mod elab;
mod limits;
mod links;
mod loops;
mod loops_shown;
mod names;
mod nodes;
mod places;
mod scopes;
mod shapes;
mod writes;

pub use counted::{items_are_drawn_with_so_many_nodes, items_of_a_source_have_so_many_nodes};
pub use depths::items_of_the_bound_graph_of_a_program_have_few_about;
pub use elab::{
    each_run_of_the_graph_of_a_program_has_one_outcome,
    the_graph_of_a_program_enters_loops_at_their_begins, the_graph_of_a_program_leads_upwards,
    the_graph_of_a_program_names_what_is_in_force, the_graph_of_a_program_sets_loop_variables_only,
};
pub use limits::{
    containers_of_the_bound_graph_of_a_program_are_few,
    expressions_of_the_bound_graph_of_a_program_are_small,
};
pub use links::the_bound_graph_of_a_program_links_its_arguments;
pub use loops::the_bound_graph_of_a_program_has_right_transitions;
pub use loops_shown::the_variables_of_loops_show_in_their_blocks;
pub use names::the_bound_graph_of_a_program_names_what_is_in_force;
pub use nodes::{
    states_of_the_bound_graph_of_a_program_have_few_nodes,
    the_bound_graph_of_a_program_has_the_nodes_that_are_counted,
};
pub use places::{
    the_bound_graph_of_a_program_has_its_streams_in_place,
    the_bound_graph_of_a_program_names_no_size_symbol,
};
pub use scopes::the_bound_graph_of_a_program_has_its_names;
pub use shapes::the_bound_graph_of_a_program_keeps_the_shapes_of_the_graph;
pub use writes::the_bound_graph_of_a_program_writes_no_container_that_it_links_twice;
