//! The graph of a program that was read is valid, bound to any sizes that are not refused: laws over definitions alone.
//!
//! `valid` has the theorem, and `within` the whole rule on limits. `read_shapes`, `read_extents` and `read_dimensions`
//! tell what reading has refused. Each other module has one part of the rules: `fits`, `nesting` and `apart` of
//! calls and shapes, `dimensions`, `values`, `tasks` and `counted` of code, the others of limits. There is no code here.
#![tactic(auto)]

mod apart;
mod code;
mod counted;
mod dimensions;
mod ends;
mod fits;
mod graphs;
mod maps;
mod nesting;
mod ranks;
mod read_dimensions;
mod read_extents;
mod read_shapes;
mod tasks;
mod valid;
mod values;
mod within;

pub use apart::{
    calls_of_a_program_that_was_read_are_apart, the_bound_graph_of_a_text_has_right_links,
    the_bound_graph_of_a_text_writes_no_container_that_it_links_twice,
};
pub use code::code_of_the_bound_graph_of_a_text_is_small;
pub use counted::the_bound_graph_of_a_program_that_was_read_keeps_the_rule_on_dimensions;
pub use dimensions::{
    code_of_the_bound_graph_of_a_program_is_linked, subsets_of_the_bound_graph_of_a_text_fit,
};
pub use ends::ends_of_loops_of_the_bound_graph_of_a_program_are_small;
pub use fits::the_bound_graph_of_a_program_that_was_read_has_right_shapes;
pub use graphs::graphs_of_the_bound_graph_of_a_text_are_nested_little;
pub use maps::maps_of_the_bound_graph_of_a_text_have_few_parameters;
pub use nesting::the_bound_graph_of_a_program_has_right_links;
pub use ranks::variables_of_the_bound_graph_of_a_text_have_ranks;
pub use read_dimensions::tasklets_that_were_read_are_counted;
pub use read_extents::extents_that_were_read_name_size_symbols;
pub use read_shapes::shapes_of_a_program_that_was_read_fit;
pub use tasks::code_of_tasklets_names_what_is_there;
pub use valid::the_bound_graph_of_a_text_is_valid;
pub use values::code_of_element_statements_and_conditions_names_what_is_there;
pub use within::the_bound_graph_of_a_text_is_within_its_limits;
