//! Where work stands in a graph that runs: how each container is reached, the values of the
//! variables, and what the place of a fault shows.
//!
//! What stays as it is for a whole run of a graph is a `Base`, what each scope changes a `Scope`.
//! Contracts see both together as a context of `sd_graph` (`specs/scope/Standing.antt`), and each builder
//! gives exactly the one that the graph's meaning has in a state, at a point, at an element or in a
//! nested graph. `cell_at` gives an element exactly where the meaning has one, and `place_of` the
//! place that it has. Nothing is asked of graphs and scopes: what 128 bits don't hold, or has no
//! 64-bit number, counts as want of memory.
mod access;
mod base;
mod element;
mod evaluation;
mod extents;
mod indices;
mod place;
mod scope;

pub use access::{cell_at, link_cell, link_cells, station};
pub use base::{Base, View, Way};
pub use evaluation::{checked_points, value_of, values_behind};
pub use extents::connector_extents;
pub use indices::Indices;
pub use place::place_of;
pub use scope::{Scope, Shown, ShownName};
