//! The names of a tasklet's block.
//!
//! `Connectors` and `Locals` are the names in force in it, and `used_variables` gives the variables that its
//! code uses, in the order of their first uses, exactly as `UsedNames.antt` defines them. A name stands for an
//! input, else for a local, else for a variable.
mod expression;
mod names;
mod used;

pub use names::{Connectors, Locals};
pub use used::used_variables;
