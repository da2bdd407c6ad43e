//! The places of a bound graph are those of the graph, and what is asked at each of them alone.
//!
//! What holds throughout a graph (`specs/bound_places/Throughout.antt`) holds at each place of it, and so, with the
//! sizes, at each place of the bound graph (`specs/bound_places/BoundPlace.antt`). By `laws`, a bound graph has no size
//! symbol left, where the extents of the graph name size symbols alone (`specs/bound_places/SizedExtents.antt`).
mod laws;

pub use laws::{a_bound_graph_names_no_size, the_places_of_a_bound_graph_are_those_of_the_graph};
