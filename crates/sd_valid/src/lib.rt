//! Sizes in the place of a graph's size symbols.
//!
//! `bind` gives the graph with each size symbol replaced by its size, in each expression of it and
//! of its nested graphs (`specs/BoundTree.antt`). Else it refuses the first symbol without a size, the
//! first whose size is outside its limits, or the first container over a limit
//! (`specs/Binding.antt`). By `laws` the bound graph does what the graph does with these sizes.
#![tactic(auto)]

mod binding;
mod code;
mod error;
mod expression;
mod laws;
mod limits;
mod sizes;
mod tree;

pub use binding::bind;
pub use error::BindError;
pub use laws::{
    a_bound_expression_names_no_size_symbol, a_bound_expression_stays_small,
    a_bound_graph_does_what_the_graph_does_with_its_sizes,
    bound_code_means_what_it_means_at_the_sizes, what_is_bound_has_its_values_at_the_sizes,
};
pub use sizes::Sizes;
