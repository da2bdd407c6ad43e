//! What stands in a graph alone, without what stands in the graphs nested in it.
//!
//! The places of a tree of nested graphs stand in one list, in which those of a nested graph stand among
//! those of the graph about it. By `laws` those of one graph that are before a place of it are what stands
//! in the graph before that place, in its order (`specs/things/Things.antt`).
mod laws;

pub use laws::what_stands_before_a_place_stands_in_its_graph;
