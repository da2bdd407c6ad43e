//! The ends of the loops of a program's graph, bound to sizes, are small.
//!
//! A variable is given its begin where its `for` loop begins alone, so a condition that compares it there
//! is that of the loop (`sd_made`). Sizes keep sums and products of affine expressions
//! (`proofs/ends_lemmas/Linear`), so the code of an end is the affine expression that the program wrote, and each part
//! of it is small (`proofs/ends_lemmas/Values`, `proofs/ends_lemmas/Ends`).
mod laws;

pub use laws::ends_of_loops_of_the_bound_graph_of_a_program_are_small;
