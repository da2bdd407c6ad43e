//! Where work stands in a graph that runs.
//!
//! `scope` has how containers are reached, the values of variables and the places of faults, exactly as the
//! meaning of the graph has them. `even` has laws of rows: points that differ in the last parameter, and elements
//! at equal distances. `take` takes a value out of the stream of a consume scope.
#![tactic(auto)]

mod even;
mod scope;
mod take;

pub use even::{
    a_scalar_subset_has_one_element, elements_of_a_row_are_at_equal_distances, has_one_element,
    numbers_of_a_range_are_at_equal_distances, points_come_in_rows,
};
pub use scope::{
    Base, Indices, Scope, Shown, ShownName, View, Way, cell_at, checked_points, connector_extents,
    link_cell, link_cells, place_of, station, value_of, values_behind,
};
pub use take::{Taken, take_value};
