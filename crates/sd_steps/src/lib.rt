//! Chains of rewrites, done on graphs.
//!
//! `apply` does the steps of a chain one after another and gives the graph behind all of them, or the first step that is refused, with
//! its condition (`specs/Chained.antt`). `matches` gives each step that may be done on a graph (`specs/Matched.antt`). The
//! graph that was lent is unchanged. By the laws the graph behind a chain is valid and ends alike as the first one.
#![tactic(auto)]

mod applied;
mod laws;
mod matched;
mod text;

pub use applied::apply;
pub use laws::{
    a_chained_graph_in_the_same_order_runs_the_same, a_chained_graph_is_normal,
    a_chained_graph_is_valid, a_chained_graph_runs_alike,
    the_matches_are_the_steps_that_can_be_done,
};
pub use matched::matches;
pub use text::{matches_text, step_line};
