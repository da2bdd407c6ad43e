//! An accepted graph is safe: its work may be done in any order.
//!
//! The premise beside acceptance is `IsGraphFit`, what of a graph's validity its boxes rest on; a valid
//! graph has it (`fit`). By `laws`, items without a path between them, points of an accepted map that do
//! not come one after another, and elements of an accepted consume scope do not conflict; so the run of a
//! valid, accepted graph by any picks is done where its sequential run is. By `commuting`, steps in two
//! parts of one list or one consume scope commute at each choice of such a run, and so do two takes, up to the
//! order of elements in work. What a run leaves lies in the boxes of its accesses. `specs/safe/Reached.antt` has where work may stand so, `Standing.antt` where an item of a graph
//! stands.
mod commuting;
mod laws;

pub use commuting::{
    an_item_inside_maps_over_a_memory_of_its_graph_stands_alone,
    steps_in_two_parts_of_a_valid_accepted_graph_commute,
    two_takes_of_a_valid_accepted_graph_commute, what_is_left_of_a_valid_graph_lies_in_its_boxes,
};
pub use laws::{
    a_valid_accepted_graph_may_interleave, an_accepted_consume_scope_may_interleave,
    an_accepted_graph_ends_alike, an_accepted_graph_may_interleave,
    an_item_over_a_memory_of_its_graph_stands_alone,
    each_interleaving_of_a_valid_accepted_graph_ends_as_the_sequential_run,
    elements_of_an_accepted_consume_scope_do_not_conflict, items_without_a_path_do_not_conflict,
    points_of_an_accepted_map_do_not_conflict,
    the_order_of_taking_in_a_valid_accepted_graph_makes_no_difference,
    the_order_of_taking_of_an_accepted_scope_makes_no_difference,
};
