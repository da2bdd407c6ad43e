//! Maps cut into tiles: the points tile by tile.
mod laws;

pub use laws::{
    a_map_over_tiles_does_the_same_as_the_points_of_its_tiles,
    the_points_of_all_tiles_are_all_points,
};
