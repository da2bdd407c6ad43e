//! The next moves of residual work, by numbers: how many there are, part by part, and where the one of a number is
//! (`specs/numbered/Counts.antt`, `specs/numbered/Places.antt`). By `laws` these are the counts and places of the list of next moves; a move
//! inside a part changes that part alone; what a move comes to is told of the part where it is made; and work without open
//! pools is settled as it is. So a machine finds and makes a move without the list of all of them.
//! There is no code here.
mod laws;

pub use laws::{
    a_move_in_a_part_changes_that_part_alone, a_move_of_a_part_comes_to_one_of_the_whole,
    next_moves_are_counted, work_without_open_pools_is_settled, work_without_pools_stays_so,
};
