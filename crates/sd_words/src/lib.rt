//! What the words of a call ask for.
//!
//! `read` takes the words after the program's name and answers the files that they name and the command, with what it
//! wants besides; or it answers nothing, where they are no call (`specs/Command.antt`). The first word is the command,
//! and clap reads those after it as that command's arguments (`specs/Arguments.antt`). No call is read in two ways.
//! Nothing is opened here.
#![tactic(auto)]

mod asked;
mod calls;
mod commands;
mod laws;
mod numbers;
mod parsed;

pub use asked::{Asked, Command, Run, Step};
pub use calls::read;
pub use laws::{
    files_alone_are_a_run, numbers_keep_their_limits, words_are_one_call,
    words_that_parse_are_a_call,
};
