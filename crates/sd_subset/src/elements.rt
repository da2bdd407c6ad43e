//! The elements of a subset, the indices inside a container, and a subset of a subset.
//!
//! `Elements` goes through exactly the elements of its subset, in row order, and may begin again
//! with other values of the variables (`specs/elements/Way.antt`). `contains` is the test that an index is
//! inside. `compose` gives the outer subset of an inner one (`specs/elements/Composition.antt`), whose
//! elements are by `laws` the outer ones at the inner indices. Want of memory is the one refusal;
//! only `Elements::new` and `compose` take any.
mod composition;
mod elements;
mod inside;
mod laws;

pub use composition::compose;
pub use elements::Elements;
pub use inside::contains;
pub use laws::{
    a_subset_is_gone_through_by_its_ranges, an_index_of_a_subset_without_a_range_is_its_own,
    elements_of_a_composition_are_at_the_inner_indices,
};
