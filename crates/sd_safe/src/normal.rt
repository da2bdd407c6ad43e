//! The expressions of a graph are in normal form.
//!
//! `specs/normal/NormalForm.antt` says so of each part of a graph's plain tree: the variables of each
//! expression's terms rise, and no coefficient is zero. The type of terms has it so. `graph` goes
//! through a graph to show it of all expressions, `parts` through links, ranges and extents.
mod graph;
mod parts;

pub use graph::show_normal_forms;
