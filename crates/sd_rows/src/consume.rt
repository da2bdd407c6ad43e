//! Runs a consume scope whose body is one tasklet with scalar inputs.
//!
//! The tasklet is compiled once, with its numbers in variables that are set once, and where its accesses lead is
//! looked up once, since the element alone differs from value to value (`specs/consume/Body.antt`, `specs/consume/Pool.antt`). One
//! memory is entered for all elements, and each value is given to the code as its element shows it (`specs/consume/Own.antt`).
//! `run_elements` ends as the scope does when its values are taken one after another, the oldest first
//! (`specs/consume/Taking.antt`), or leaves a scope of another kind alone.
mod element;
mod elements;
mod setup;
mod source;
mod taking;

pub use elements::run_elements;
