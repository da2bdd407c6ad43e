//! Which variables of a graph have a rank, and what the code of conditions compares.
//!
//! `ranks_of` makes a table of the variables of a graph that have a rank of at most 7, as
//! `specs/rules/Ranks.antt` of `sd_validity` defines it: it raises a table rank by rank, each time over all
//! that ranges, begins and ends of loops name. Nothing is asked of the graph; want of memory is the one
//! refusal.
mod affine_code;
mod comparison;
mod naming;
mod numbers;
mod ranks;

pub use affine_code::{has_numbers_only, is_affine_value};
pub use comparison::{Comparison, compared, given};
pub use naming::{begun_at, push_assigned};
pub use numbers::{has_number, variable_at};
pub use ranks::{are_ranked, is_ranked, ranks_of};
