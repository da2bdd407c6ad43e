//! The sides of each copy, reduction and call of a program that was read have one shape, whatever numbers
//! the variables have.
//!
//! A line whose sides differ is refused. `specs/read_shapes/Fits.antt` says what fits by the tree of the program alone:
//! the extents of arrays are as they are written, and variables have any numbers. What is known of the
//! names in force is kept by each line and by each block that ends (`proofs/read_shapes_lemmas/FitSoFar`).
mod laws;

pub use laws::shapes_of_a_program_that_was_read_fit;
