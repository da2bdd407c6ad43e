//! Histories: pieces of a state's items that were done one whole piece after another, each after all pieces of the items before its
//! item (`specs/history/`). By `laws` a piece that was done on a cut, or from an earlier memory, may follow where it read what now stands;
//! a history has one end; and one that has all pieces ends as the items' sequential run, where they may interleave.
mod laws;

pub use laws::{
    a_history_has_one_end, a_history_keeps_its_memories, a_piece_done_on_a_cut_may_follow,
    a_piece_of_a_done_run_is_done, a_piece_that_read_the_same_may_follow,
    a_whole_history_ends_as_the_sequential_run, a_whole_history_is_a_run,
    items_in_pieces_come_to_the_same, items_that_may_interleave_may_do_so_in_pieces,
};
