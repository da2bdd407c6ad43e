//! What comes of each line and of each block that ends, by what is known between lines.
//!
//! What comes of a block that ends is in `Closing.antt`, and how an `elif` or `else` goes on with it in
//! `Continuing.antt`. A line is judged by the least number that stands against it (`Judging.antt`), which is
//! of `sd_refusal`; what is known behind it is of `context`.
mod closing;
mod continuing;
mod judging;
mod refusal;

pub use closing::{close_block, close_block_into, close_blocks};
pub use continuing::{go_on, goes_on, is_elif_or_else};
pub use judging::{judge, refused};
pub use refusal::Refusal;
