//! Lists and texts that contracts see as plain values, and want of memory as a refusal.
//!
//! A `Sequence` is the list of its items and a `Text` the list of its bytes: two of them with the
//! same items are one value, whatever room they hold. A call that may take memory and can refuse
//! nothing else answers `NoMemory`, and what it was to change stays as it was.
mod memory;
mod sequence;
mod text;

pub use memory::NoMemory;
pub use sequence::Sequence;
pub use text::Text;
