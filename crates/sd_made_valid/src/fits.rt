//! The graph of a program that was read, bound to sizes, keeps the rules on nested graphs and on shapes.
//!
//! The two sides of each copy, reduction and call of such a program have one shape, whatever numbers the
//! variables have (`read_shapes`). In the graph size symbols keep their numbers, and containers have the
//! extents that are written (`proofs/fits_lemmas/Tied.antt`), so links and sides have the shapes that are asked for.
mod laws;

pub use laws::the_bound_graph_of_a_program_that_was_read_has_right_shapes;
