//! Variables with levels have ranks.
//!
//! Where each variable that a range names, or the begin or the end of a loop, is of a lower level than
//! the variable that has it, a variable of a level below seven has a rank of at most seven
//! (`proofs/levels_lemmas/Lower.antt`). So one tells levels, and need not follow the table of ranks.
mod laws;

pub use laws::variables_with_levels_have_ranks;
