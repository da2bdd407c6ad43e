//! What stands against a line of a source: the errors 4 to 10, and the least of them.
//!
//! Each error is a predicate of what the line says, the names in force and where the line stands, with a
//! definition of its own, here or in `sd_uses`, and each call gives exactly its value. `refusal` is the least
//! number whose predicate holds, or none. `counts_behind` is what is counted behind a line. Nothing is asked of
//! the names or the line, and only memory can be wanting.
#![tactic(auto)]

mod bad_resolution;
mod bound_test;
mod counting;
mod least;
mod no_form;
mod not_affine;
mod over_limit;
mod site;

pub use bad_resolution::has_bad_resolution;
pub use counting::{counts_behind, is_connector};
pub use least::refusal;
pub use no_form::is_no_form;
pub use not_affine::is_not_affine;
pub use over_limit::is_over_limit;
pub use site::{Counts, Site};
