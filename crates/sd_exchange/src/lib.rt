//! Work in another order, over definitions alone.
//!
//! `reorder` has the laws on terms: parts that do not conflict may be exchanged. `tiles` has the points of a map tile
//! by tile. `ends` and `maps` have definitions and lemmas: maps interchanged and cut into tiles anywhere in a graph.
//! `valid` has the laws on valid graphs: both end alike, and of the race check only what they need is asked. `kept` has
//! the laws that both stay valid. There is no code here.
#![tactic(auto)]

mod kept;
mod reorder;
mod tiles;
mod valid;

pub use kept::{a_graph_with_a_map_tiled_stays_valid, a_graph_with_maps_interchanged_stays_valid};
pub use reorder::{alike_memories_end_alike, parts_in_another_order_end_alike};
pub use tiles::{
    a_map_over_tiles_does_the_same_as_the_points_of_its_tiles,
    the_points_of_all_tiles_are_all_points,
};
pub use valid::{
    a_valid_graph_with_a_map_tiled_ends_alike, a_valid_graph_with_maps_interchanged_ends_alike,
    graphs_that_end_alike_in_turn_end_alike,
};
