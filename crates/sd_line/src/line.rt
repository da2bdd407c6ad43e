//! What a line of a source says.
//!
//! `read_head` tells by the tokens of a line alone which form of its kind of block it is, with all that
//! stands in it, or that it is none of them, or that an expression in it is nested too deeply: exactly
//! as `HeadReading.antt` defines it from one definition for each form. Only memory can be wanting.
mod body;
mod head;
mod head_reading;
mod tasklet;
mod top;

pub use head::{BlockKind, Head};
pub use head_reading::read_head;
