//! Which graph of a tree of nested graphs a path leads to.
//!
//! A place of a graph tells the path of the graph in which it stands; by `laws` that graph is the one
//! that is found at the path (`specs/paths/GraphAt.antt`), so no two graphs of a tree have one path.
mod laws;

pub use laws::the_graph_of_a_place_is_found_at_its_path;
