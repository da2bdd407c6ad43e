//! Lists, texts and counts that contracts see as plain values, and want of memory as a refusal.
//!
//! `list` has `Sequence`, `Text` and `NoMemory`: two lists with the same items are one value, whatever room
//! they hold. `tally` has `Tally`, a list of counts that keeps their sum. A call that finds no memory leaves
//! what it was to change as it was.
#![tactic(auto)]

mod list;
mod tally;

pub use list::{NoMemory, Sequence, Text};
pub use tally::{Found, Tally};
