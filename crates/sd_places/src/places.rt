//! The places of a graph, and what rules ask of them.
//!
//! `all_places` gives the places of a graph in their order, each with what is in force there, and
//! `first_failing` the first of them at which a rule fails. A rule that asks the same of each link,
//! range, expression and piece of code is a `Test` of parts. Each contract says the definition of
//! `sd_validity`; the plain form of a place is that of `specs/places/PlaceOf.antt`.
mod container;
mod failing;
mod parts;
mod place;
mod places;

pub use container::{container_at, is_stream, is_stream_at};
pub use failing::{Rule, first_failing};
pub use parts::{Test, is_thing_passed};
pub use place::{Place, Scopes, Thing};
pub use places::all_places;
