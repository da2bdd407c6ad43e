//! Runs by picks, told by the numbers of moves: with so many next moves a pick chooses one by its number, and that one is at the
//! place of its number (`specs/picked/Numbered.antt`). By `laws` these are the runs and traces of residual work, so code needs neither
//! the list of next moves nor their places but for the one that it makes.
//! There is no code here.
mod laws;

pub use laws::a_run_goes_by_numbers;
