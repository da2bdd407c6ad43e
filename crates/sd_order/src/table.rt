//! Which items of a list are before which, kept as a table (`specs/table/Told.antt`).
mod order;

pub use order::{Order, told_at};
