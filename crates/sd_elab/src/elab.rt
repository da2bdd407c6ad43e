//! The graph of a program.
//!
//! `graph_of` (`Elaboration.antt`) is the graph of a plain syntax tree, one rule for each form, and
//! `elaborate` makes it: of the programs of a source only those that the last one needs (`needed`).
mod function;
mod program;

pub use program::elaborate;
