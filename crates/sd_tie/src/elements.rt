//! Element statements, conditions, copies and reductions do in the graph what the statements say.
//!
//! `specs/elements/Tied.antt` has what ties a statement's setting to a context of the graph: by the numbers
//! that a table gives to names both stand for the same. Where they are tied, the items that are made
//! of these statements are, unfolded, the work that the statements say, and so are conditions.
mod laws;

pub use laws::{
    a_condition_asks_what_it_says, a_copy_copies_what_it_says, a_reduction_reduces_what_it_says,
    an_affine_expression_has_its_value, an_element_statement_does_what_it_says,
};
