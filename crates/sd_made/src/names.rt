//! The graph of a program, bound to sizes, names what is in force where it is named.
//!
//! A name of the source stands for a container or a variable of the graph that is in force where its
//! statement stands (`places`); so do the expressions, the links and the code that are made of
//! it, with the sizes in the place of the size symbols.
mod laws;

pub use laws::the_bound_graph_of_a_program_names_what_is_in_force;
