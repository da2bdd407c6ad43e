//! Valid graphs with maps interchanged or cut into tiles are valid.
mod laws;

pub use laws::{a_graph_with_a_map_tiled_stays_valid, a_graph_with_maps_interchanged_stays_valid};
