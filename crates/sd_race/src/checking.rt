//! The race check of a graph.
//!
//! `check` answers the first pair of accesses of a scope that is not accepted, in the order of
//! `race`, exactly where the graph is not accepted: it passes over sequential maps, and looks at the
//! scopes inside them. `is_free_of_races` and `scope_accepted` ask one scope, sequential or not. Only
//! accesses of one container, in modes that conflict, are compared, each two of a scope once. Nothing is
//! asked of the graph; want of memory is the one refusal beside a race.
mod alike;
mod clear;
mod enclosing;
mod mixing;
mod pair;
mod placed;
mod race;
mod search;

pub use race::{Race, RaceError};
pub use search::{check, is_free_of_races, scope_accepted};
