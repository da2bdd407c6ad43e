//! The law that a text which is read is its program by the grammar, over definitions alone.
//!
//! `specs/grammar` has the grammar: the lines of a text by their indentation (`Outline.antt`), and which program they are
//! (`Programs.antt`). What the open blocks of a context come to with the lines that are left (`Completing.antt`) is the same
//! before and behind each line that is read.
mod laws;

pub use laws::{
    a_small_source_is_read_as_its_program, a_text_that_is_read_is_its_program_by_the_grammar,
};
