//! What the lines of a source say.
//!
//! `line` reads one line by its tokens: which form of its kind of block it is, with all that stands in it, or
//! that it is none, or that an expression is nested too deeply. `lines` has the logical lines of a source, and
//! which blocks of them are tasklets. Each equals its definition, and only memory can be wanting.
#![tactic(auto)]

mod line;
mod lines;

pub use line::{BlockKind, Head, read_head};
pub use lines::{LineSpan, head_in, line_spans, opens_tasklet};
