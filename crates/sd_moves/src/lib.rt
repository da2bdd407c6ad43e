//! The next moves of residual work by numbers, over definitions alone: there is no code here.
//!
//! `numbered` has how many next moves there are, where each is and what it comes to. `picked` has runs by
//! picks, told by these numbers. `settling` has where settling finds nothing to do. By the laws all three are
//! what `sd_work` says of the list of next moves, so code finds and makes a move without that list.
#![tactic(auto)]

mod numbered;
mod picked;
mod settling;

pub use numbered::{
    a_move_in_a_part_changes_that_part_alone, a_move_of_a_part_comes_to_one_of_the_whole,
    next_moves_are_counted, work_without_open_pools_is_settled, work_without_pools_stays_so,
};
pub use picked::a_run_goes_by_numbers;
pub use settling::{later_parts_do_not_hold_up, work_that_may_not_go_on_stays};
