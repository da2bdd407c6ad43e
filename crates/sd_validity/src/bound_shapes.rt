//! Shapes that fit do so with sizes in the place of size symbols.
//!
//! Two ranges have as many values, whatever the variables are, where their ends are as far from their
//! begins. A size that is put in the place of a symbol keeps that, since the two distances are one
//! expression (`proofs/bound_shapes_lemmas/Extents.antt`); so links, copies and reductions keep their shapes.
mod laws;

pub use laws::shapes_that_fit_do_so_with_sizes;
