//! Laws about which error of a source is told, over definitions alone.
//!
//! `Standing.antt` says which numbers stand against a line where it stands, and `FirstRefused.antt` which line
//! is the first that is refused. By the laws that line decides, with the least number, unless the tokens
//! have an error or a limit on nodes is passed before; and no line of a program is refused.
mod deciding;

pub use deciding::{
    errors_of_tokens_go_first, no_line_of_a_program_is_refused, the_first_refused_line_decides,
};
