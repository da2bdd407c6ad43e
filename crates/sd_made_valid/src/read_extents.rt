//! The extents of the arrays of a program that was read name its size symbols, over definitions alone.
//!
//! A name that may stand in an extent is that of a size symbol which is in force at the line, and so one of
//! the program's (`proofs/read_extents_lemmas/Over`).
mod laws;

pub use laws::extents_that_were_read_name_size_symbols;
