//! An accepted graph is safe: its work may be done in any order. Laws over definitions.
//!
//! `safe` has that a run of a valid, accepted graph by any picks is done where its sequential run is. `fit`
//! has that a valid graph is as these laws ask, and `normal` shows that the expressions of each graph that code
//! holds are in normal form, by the types of its parts. `pieces` has that pieces of a state's items leave each other
//! what they have to find as it was.
#![tactic(auto)]

mod fit;
mod normal;
mod pieces;
mod safe;

pub use fit::a_valid_graph_is_fit;
pub use normal::show_normal_forms;
pub use pieces::{
    items_of_a_state_may_interleave, pieces_are_parts_of_their_items,
    pieces_leave_alone_what_another_one_keeps, what_a_piece_keeps_stays_until_it_is_done,
};
pub use safe::{
    a_valid_accepted_graph_may_interleave, an_accepted_consume_scope_may_interleave,
    an_accepted_graph_ends_alike, an_accepted_graph_may_interleave,
    an_item_inside_maps_over_a_memory_of_its_graph_stands_alone,
    an_item_over_a_memory_of_its_graph_stands_alone,
    each_interleaving_of_a_valid_accepted_graph_ends_as_the_sequential_run,
    elements_of_an_accepted_consume_scope_do_not_conflict, items_without_a_path_do_not_conflict,
    points_of_an_accepted_map_do_not_conflict,
    steps_in_two_parts_of_a_valid_accepted_graph_commute,
    the_order_of_taking_in_a_valid_accepted_graph_makes_no_difference,
    the_order_of_taking_of_an_accepted_scope_makes_no_difference,
    two_takes_of_a_valid_accepted_graph_commute, what_is_left_of_a_valid_graph_lies_in_its_boxes,
};
