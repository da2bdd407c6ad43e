//! The logical lines of a source.
//!
//! `TokenLines.antt` defines the lines of the tokens of a text: what each says in each kind of block, the
//! blocks that open and close before it, and whether it is a connector line. `line_spans` gives exactly
//! these, each by the places of its words. `Lines.antt` says when the block behind a consume is a tasklet.
mod lines;
mod token_lines;

pub use lines::{LineSpan, head_in, opens_tasklet};
pub use token_lines::line_spans;
