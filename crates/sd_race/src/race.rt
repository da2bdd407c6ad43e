//! The race check: which graphs are accepted, and the first pair of accesses that is not.
//!
//! `specs/race/Pairs.antt` has the pairs of accesses of a scope in their order, and when one is accepted:
//! it is of two containers, its modes do not conflict, or its boxes share no element at two points.
//! A scope is free of races where each of its pairs is accepted. A graph is accepted where each scope that
//! is no sequential map is so; `Race.antt` has the first pair that is not. By `laws` acceptance and a race
//! exclude each other.
mod laws;

pub use laws::{
    a_graph_has_one_race, a_test_tells_which_scopes_are_free_of_races,
    an_accepted_graph_has_no_race, each_two_accesses_of_a_scope_free_of_races_are_accepted,
    no_race_is_told_of_a_sequential_map, sequential_maps_are_passed_over,
};
