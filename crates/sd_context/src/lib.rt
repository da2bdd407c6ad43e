//! What is known between two lines of a source, and what comes of the next one.
//!
//! `context` has all that is known, and what is known behind a line. `blocks` has what comes of a line that is
//! judged and of a block that ends, by the least number that stands against it. Each equals its definition, and
//! only memory can be wanting.
#![tactic(auto)]

mod blocks;
mod context;

pub use blocks::{
    Refusal, close_block, close_block_into, close_blocks, go_on, goes_on, is_elif_or_else, judge,
    refused,
};
pub use context::{
    Awaited, Branch, Context, InForce, OpenBlock, Opener, Wanted, comes_right, is_wanted,
    wanted_of, wrong_number,
};
