//! Where the next move of a number is in what is left of a graph's run: found along one path, by the counts that the tree keeps.
//! It is the place of that number in the work (`place_of` of `sd_moves`).
mod place;

pub use place::place_in_run;
