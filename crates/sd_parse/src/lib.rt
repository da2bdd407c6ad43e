//! A source is read to its program, or refused at the first line that is wrong, with the least number.
//!
//! `parse` gives exactly the program of the definition (`specs/source/SourceReading.antt` of `sd_source`), or exactly
//! the number and the line of its error. By the laws of `sd_read` what was read is well formed, the first
//! line that is refused decides, and an error has one of ten numbers and a line of the text. By the law of
//! `grammar` the program that was read is the one that the grammar has for the text.
#![tactic(auto)]

mod error;
mod grammar;
mod source;

pub use error::SourceError;
pub use grammar::{
    a_small_source_is_read_as_its_program, a_text_that_is_read_is_its_program_by_the_grammar,
};
pub use sd_context::Refusal;
pub use source::parse;
