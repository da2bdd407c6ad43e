//! Names in force, and what is written with them.
//!
//! A `Scope` has the number of each name in force; the newest of a name counts. Affine expressions,
//! ranges and subsets are read by it: each call gives exactly what its definition in `specs/` says, for
//! expressions within the limits, or wants memory. A name not in force counts as 0.
mod counting;
mod expression;
mod range;
mod scope;
mod subset;

pub use counting::more;
pub use expression::{affine, number};
pub use range::{affine_or, parameters};
pub use scope::Scope;
pub use subset::{connector_subset, subset_of};
