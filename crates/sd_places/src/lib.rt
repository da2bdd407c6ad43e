//! The places of a graph, and what rules of validity ask of them.
//!
//! `places` gives the places of a graph in their order, each with what is in force there, and the first of them
//! at which a rule fails. `ranks` tells which variables have a rank and what conditions compare. Each contract
//! cites the definition of `sd_validity`. Nothing is asked of the graph; want of memory is the one refusal.
#![tactic(auto)]

mod places;
mod ranks;

pub use places::{
    Place, Rule, Scopes, Test, Thing, all_places, container_at, first_failing, is_stream,
    is_stream_at, is_thing_passed,
};
pub use ranks::{
    Comparison, are_ranked, begun_at, compared, given, has_number, has_numbers_only,
    is_affine_value, is_ranked, push_assigned, ranks_of, variable_at,
};
