//! Which graphs are valid, by eight rules: definitions and laws. There is no code here.
//!
//! `rules` has a file for each rule, and which rule fails first where. The laws of the other modules tell of the
//! places of a graph (`things`, `paths`), of ranks (`levels`), and what binding sizes leaves as it was: places
//! (`bound_places`), shapes (`bound_shapes`) and limits on elements (`bound_elements`).
#![tactic(auto)]

mod bound_elements;
mod bound_places;
mod bound_shapes;
mod levels;
mod paths;
mod rules;
mod things;

pub use bound_elements::containers_of_a_bound_graph_have_few_elements;
pub use bound_places::{
    a_bound_graph_names_no_size, the_places_of_a_bound_graph_are_those_of_the_graph,
};
pub use bound_shapes::shapes_that_fit_do_so_with_sizes;
pub use levels::variables_with_levels_have_ranks;
pub use paths::the_graph_of_a_place_is_found_at_its_path;
pub use rules::{
    a_graph_is_valid_where_no_rule_fails, a_graph_with_its_names_names_what_is_in_force,
    a_graph_with_its_streams_has_them_in_place, a_graph_with_right_links_is_linked,
    a_graph_with_right_transitions_leads_upwards, a_valid_graph_is_as_its_laws_ask,
    the_place_that_is_told_is_the_first_that_fails,
};
pub use things::what_stands_before_a_place_stands_in_its_graph;
