//! What is left of a graph's run, kept as a tree beside the graph: for each item what is left of it, for each point of a map, each
//! element of a consume scope and each run of a graph its numbers, its memory and what is left of its items.
//! `specs/tree/Standing.antt` says of which residual work such a tree is. By `laws` it is that of the graph where it begins, and a
//! move inside a part of the tree is one of the work, which changes that part alone. So code makes a move where it is.
//! There is no code here.
mod laws;

pub use laws::{
    a_move_of_a_part_is_one_of_its_list, a_run_moves_in_its_state_or_goes_on,
    moves_of_points_are_added_up, the_first_unfinished_point_moves, what_is_not_there_has_no_move,
    work_that_begins_is_that_of_the_graph,
};
