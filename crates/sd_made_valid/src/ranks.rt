//! The variables of maps and loops in the graph of a program that was read, bound to sizes, have ranks.
//!
//! A variable has the level of its map or loop: how many scopes and loops are about that. What its range,
//! its begin or its end names is of a lower level, or a size symbol (`proofs/ranks_lemmas/Items`, `proofs/ranks_lemmas/States`). No
//! level is above six: no block of what was read is empty (`sd_read`), and at most seven scopes and
//! loops are about a statement. So each variable has a rank (`sd_validity`).
mod laws;

pub use laws::variables_of_the_bound_graph_of_a_text_have_ranks;
