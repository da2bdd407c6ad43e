//! Work that is the same in contexts that are alike, and graphs with an item replaced.
mod laws;

pub use laws::{
    a_graph_with_a_map_collapsed_runs_the_same, a_graph_with_a_map_expanded_runs_the_same,
    a_graph_with_a_map_tiled_runs_the_same, a_graph_with_an_item_replaced_runs_the_same,
    a_memory_that_nothing_reaches_is_not_seen, a_rewritten_graph_leads_upwards,
    a_rewritten_graph_names_its_variables, an_item_does_the_same_in_contexts_that_are_alike,
};
