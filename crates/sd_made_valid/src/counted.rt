//! The graph of a program that was read, bound to sizes, keeps the rule on dimensions.
//!
//! Subsets fit their containers and connectors their subsets (`dimensions`). In such a program
//! tasklets name connectors with as many subscripts as these have dimensions (`read_dimensions`), and so they do
//! in the graph: containers have the extents that are written (`proofs/counted_lemmas/Tied`), and each of these is 1 there
//! exactly where it is 1 whatever the size symbols are (`proofs/counted_lemmas/Units`).
mod laws;

pub use laws::the_bound_graph_of_a_program_that_was_read_keeps_the_rule_on_dimensions;
