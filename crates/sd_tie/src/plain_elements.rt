//! The law that the elements of consume scopes of a program that was read have names without `$`, over
//! definitions alone. A name is a word of its text, so it has none (`proofs/plain_elements_lemmas/Words`); the element of a
//! consume scope is a name that its line has (`proofs/plain_elements_lemmas/Heads`), and each line and each end of a block
//! leaves it as it is (`proofs/plain_elements_lemmas/Contexts`, `proofs/plain_elements_lemmas/Lines`).
mod laws;

pub use laws::elements_that_were_read_have_plain_names;
