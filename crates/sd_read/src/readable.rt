//! The law that a program which was read is well formed, over definitions alone.
//!
//! What each accepted line and each block that ends keeps holds where the last line was read
//! (`proofs/readable_lemmas/kept`). On that stand facts on the lines of a text (`proofs/readable_lemmas/lines`), on each statement in its
//! place (`proofs/readable_lemmas/places`) and on what is counted (`proofs/readable_lemmas/counts`), and `proofs/readable_lemmas/Fields.antt` has them all.
//! `specs/readable/Levels.antt` says how many levels the expressions of a program have.
mod laws;

pub use laws::a_program_that_was_read_is_well_formed;
