//! Two maps of a list made one, over definitions alone: there is no code here.
//!
//! `renamed` has items with variables renamed. `laws` has what comes to stand in the place of the two maps, and when: the
//! second map's parameters are renamed to those of the first, and the items between come to stand before or behind. `paths`
//! has the conditions by their numbers and paths. A valid graph with two maps fused ends alike where no condition fails.
#![tactic(auto)]

mod laws;
mod paths;
mod renamed;

pub use laws::{
    a_graph_with_maps_fused_stays_normal, a_valid_graph_with_maps_fused_ends_alike,
    maps_may_be_done_point_by_point,
};
pub use paths::a_fused_graph_ends_alike;
pub use renamed::{
    renamed_items_do_the_same_at_the_values_of_the_old_names, renamed_items_use_the_same,
};
