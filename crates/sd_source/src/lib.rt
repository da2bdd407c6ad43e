//! A source read to its program, or refused at the first line that is wrong, with the least number.
//!
//! `source` reads the logical lines one after another, exactly as its definition has it. `nodes` tells the least
//! line at which the graphs of a source have more nodes than they may. Only memory can be wanting.
#![tactic(auto)]

mod nodes;
mod source;

pub use nodes::{a_line_is_told_exactly_where_there_are_too_many, first_over};
pub use source::read_text;
