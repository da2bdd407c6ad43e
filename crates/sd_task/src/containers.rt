//! The containers and variables that a program declares.
//!
//! `containers_of_function` and `variable_names` give exactly what `Declarations.antt` defines, in the order of
//! the text, or want memory. The element of a consume scope that is one tasklet may have the name of another
//! container: its own container then gets the first `x$k` that is free.
mod containers;
mod declared;
mod fresh;
mod name_list;
mod variables;

pub use containers::containers_of_function;
pub use variables::variable_names;
