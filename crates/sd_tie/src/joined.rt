//! The law that the tasklets of a program that was read name connectors that are there, over
//! definitions alone. What is in force is tied to the connectors of the open blocks
//! (`proofs/joined_lemmas/Stack`), which each accepted line and each end of a block keeps (`proofs/joined_lemmas/Lines`,
//! `proofs/joined_lemmas/Ends`).
mod laws;

pub use laws::tasklets_that_were_read_are_joined;
