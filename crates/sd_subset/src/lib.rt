//! The elements that a subset touches: one by one, and as boxes.
//!
//! `elements` goes through exactly the elements of a subset, tests whether an index is inside, and composes
//! subsets. `boxes` has the bounds of what a memlet touches, hulls, and when two boxes share no element at
//! two points of a map. By the laws bounds hold at each point. Want of memory is the one refusal.
#![tactic(auto)]

mod boxes;
mod elements;

pub use boxes::{
    Bounds, a_hull_has_what_its_boxes_have_inside, an_outer_box_has_what_is_touched_at_a_point,
    are_apart, are_disjoint, are_harmless, are_separated, box_of, greatest,
    harmless_boxes_share_no_index, harmless_streams_allow_one_point, hull,
    independent_parameters_may_be_replaced_in_either_order, is_single, least,
    least_and_greatest_bound_at_each_point, orders_of_replacing_make_no_difference, replaced,
};
pub use elements::{
    Elements, a_subset_is_gone_through_by_its_ranges,
    an_index_of_a_subset_without_a_range_is_its_own, compose, contains,
    elements_of_a_composition_are_at_the_inner_indices,
};
