//! An item of a graph replaced by others, over definitions alone.
//!
//! `alike` has where a path leads in a graph and the graph with the item there replaced, maps collapsed, expanded and
//! cut into tiles, and the laws that the new graph runs as the old one. `kept` has the laws that rules of validity which
//! hold of the old graph hold of the new one. There is no code here.
#![tactic(auto)]

mod alike;
mod kept;

pub use alike::{
    a_graph_with_a_map_collapsed_runs_the_same, a_graph_with_a_map_expanded_runs_the_same,
    a_graph_with_a_map_tiled_runs_the_same, a_graph_with_an_item_replaced_runs_the_same,
    a_memory_that_nothing_reaches_is_not_seen, a_rewritten_graph_leads_upwards,
    a_rewritten_graph_names_its_variables, an_item_does_the_same_in_contexts_that_are_alike,
};
pub use kept::{
    a_graph_with_its_names_names_its_variables, a_map_collapsed_keeps_rules,
    a_map_expanded_keeps_rules,
};
