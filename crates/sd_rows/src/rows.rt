//! Runs a map whose body is one tasklet row by row.
//!
//! A row is all points at which only the last parameter differs. Where each access of the tasklet is
//! inside at both ends of a row, its elements lie at equal distances, so the row is run by flat code
//! without a look-up at its points (`specs/rows/Along.antt`). A tasklet whose effects depend on what it reads keeps
//! them until they are performed, point by point, by targets that are known for the whole row (`specs/rows/Kept.antt`).
//! Any other row goes point by point. `run_rows` ends as the map does when it is done from left to right, or leaves a
//! map of another kind alone.
mod band;
mod between;
mod instance;
mod kept;
mod map;
mod moving;
mod pointwise;
mod rows;
mod spacing;
mod steps;
mod still;
mod targets;

pub use rows::run_rows;
