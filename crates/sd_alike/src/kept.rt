//! Rules of validity that a graph keeps when an item of it is replaced.
mod laws;

pub use laws::{
    a_graph_with_its_names_names_its_variables, a_map_collapsed_keeps_rules,
    a_map_expanded_keeps_rules,
};
