//! Which graphs are valid, by eight rules.
//!
//! A graph has places: itself, its states with the transitions out of them, and its items, and so on
//! in its scopes and nested graphs (`specs/rules/Places.antt`). A rule is asked at each place, and each has
//! a file of its own: names, dimensions, transitions, streams, nested graphs, copies and reductions,
//! limits, and sizes. `specs/rules/Valid.antt` says which graphs are valid, and which rule fails first where.
//! By `laws` a valid graph is as the laws of `sd_graph` ask.
mod laws;

pub use laws::{
    a_graph_is_valid_where_no_rule_fails, a_graph_with_its_names_names_what_is_in_force,
    a_graph_with_its_streams_has_them_in_place, a_graph_with_right_links_is_linked,
    a_graph_with_right_transitions_leads_upwards, a_valid_graph_is_as_its_laws_ask,
    the_place_that_is_told_is_the_first_that_fails,
};
