//! The rules of valid graphs on names, transitions, streams and sizes.
//!
//! Each rule is an `impl Rule` in a file of its own that answers exactly what its definition in
//! `sd_validity` says at a place. Nothing is asked of the graph; want of memory is the one refusal.
#![tactic(auto)]

mod held;
mod names;
mod single;
mod sizes;
mod streams;
mod transitions;

pub use names::NamesInForce;
pub use sizes::SizesGone;
pub use streams::Streams;
pub use transitions::Transitions;
