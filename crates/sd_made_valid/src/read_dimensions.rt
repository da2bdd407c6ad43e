//! The law that the tasklets of a program that was read name connectors with as many subscripts as
//! these have dimensions, over definitions alone. What is in force is tied to the connectors of the
//! open blocks, with their dimensions (`proofs/read_dimensions_lemmas/Stack`), which each accepted line and each end of a block
//! keeps (`proofs/read_dimensions_lemmas/Lines`, `proofs/read_dimensions_lemmas/Ends`).
mod laws;

pub use laws::tasklets_that_were_read_are_counted;
