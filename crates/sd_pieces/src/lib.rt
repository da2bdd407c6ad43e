//! Work in pieces, over definitions alone: there is no code here.
//!
//! `course` has what work reads and changes, by which work that reads the same is the same. `cut` has work on a cut of a memory: merged
//! into another memory that has what it may read, it is the work from that one. `history` has pieces done one whole piece
//! after another: a history of all pieces of items that may interleave ends as their sequential run.
#![tactic(auto)]

mod course;
mod cut;
mod history;

pub use course::{
    a_course_is_of_what_its_work_touches, work_keeps_the_shape_of_its_memories,
    work_that_is_allowed_more_is_the_same, work_that_reads_the_same_is_the_same,
};
pub use cut::{
    what_is_merged_is_one_stack, work_by_other_numbers_comes_to_the_same, work_on_a_cut_is_the_work,
};
pub use history::{
    a_history_has_one_end, a_history_keeps_its_memories, a_piece_done_on_a_cut_may_follow,
    a_piece_of_a_done_run_is_done, a_piece_that_read_the_same_may_follow,
    a_whole_history_ends_as_the_sequential_run, a_whole_history_is_a_run,
    items_in_pieces_come_to_the_same, items_that_may_interleave_may_do_so_in_pieces,
};
