//! What is left of a graph's run, as a tree beside the graph.
//!
//! `left` keeps the tree with its counts, and `next_moves` finds the move of a number in it. `tree` says of which
//! residual work such a tree is, and `fired` what a move at a path of it comes to, over definitions alone.
//! `pool_free` tells whether a graph has consume scopes; it and `pool_free_left` have laws of work without them.
#![tactic(auto)]

mod fired;
mod left;
mod next_moves;
mod pool_free;
mod pool_free_left;
mod sparse;
mod tree;

pub use fired::{
    a_finished_state_goes_on, a_move_inside_an_owner_is_one_of_it,
    a_move_of_a_leaf_is_one_of_its_item, a_move_of_a_part_changes_its_list_there_alone,
    a_take_begins_an_element, where_nothing_moves_all_stays,
};
pub use left::{
    Bodies, Body, Left, Run, a_tree_tells_its_next_moves, are_finished, is_body_finished,
    is_finished, is_ready, moves_of, moves_of_bodies, moves_of_body, moves_of_run, pools_of,
    pools_of_bodies, pools_of_body, pools_of_run, work_that_counts_no_open_pool_has_none,
};
pub use next_moves::place_in_run;
pub use pool_free::{a_graph_without_consume_scopes_has_no_pools, graph_consumes};
pub use pool_free_left::a_tree_without_open_pools_waits_for_no_value;
pub use sparse::{Begun, Counts, Stretch, Tasks, Way, count_points, open_at, swap};
pub use tree::{
    a_move_of_a_part_is_one_of_its_list, a_run_moves_in_its_state_or_goes_on,
    moves_of_points_are_added_up, the_first_unfinished_point_moves, what_is_not_there_has_no_move,
    work_that_begins_is_that_of_the_graph,
};
