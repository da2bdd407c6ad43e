//! Rows of a map: points that differ in the value of the last parameter alone, which takes numbers
//! at equal distances (`specs/even/Even.antt`).
//!
//! By `laws`, the points of a map come in rows, and in a row the variables but that one stay. Each
//! access is then to elements at equal distances, and where the first and the last point of a row
//! find theirs, all between them do. `has_one_element` tells the subsets of one element.
//! `proofs/` has the lemmas for crates that run rows.
mod laws;
mod one_element;

pub use laws::{
    a_scalar_subset_has_one_element, elements_of_a_row_are_at_equal_distances,
    numbers_of_a_range_are_at_equal_distances, points_come_in_rows,
};
pub use one_element::has_one_element;
