//! Maps interchanged and cut into tiles in a valid graph.
mod laws;

pub use laws::{
    a_valid_graph_with_a_map_tiled_ends_alike, a_valid_graph_with_maps_interchanged_ends_alike,
    graphs_that_end_alike_in_turn_end_alike,
};
