//! Boxes of accesses: the bounds of what a memlet touches in each dimension, and when two boxes of
//! a map's body share no element at two points of it.
//!
//! `specs/boxes/Box.antt` has the box of a subset and the replacing of map parameters in it, `Apart.antt`
//! when boxes are apart or separated, `Hull.antt` the hull of boxes, `InForce.antt` parameters with
//! values; by `laws` bounds hold at each point, harmless boxes share no index, and a hull has what
//! its boxes have. Nothing is asked of expressions; want of memory is the one refusal, and a number
//! that may not fit 128 bits comes to it too.
mod apart;
mod bounds;
mod fitting;
mod harmless;
mod joining;
mod laws;
mod replacing;

pub use apart::{are_disjoint, are_separated};
pub use bounds::{Bounds, box_of};
pub use harmless::{are_apart, are_harmless, is_single};
pub use joining::hull;
pub use laws::{
    a_hull_has_what_its_boxes_have_inside, an_outer_box_has_what_is_touched_at_a_point,
    harmless_boxes_share_no_index, harmless_streams_allow_one_point,
    independent_parameters_may_be_replaced_in_either_order, least_and_greatest_bound_at_each_point,
    orders_of_replacing_make_no_difference,
};
pub use replacing::{greatest, least, replaced};
