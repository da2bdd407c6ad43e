//! What begins in a graph's run, as the tree of what is left keeps it.
//!
//! An item that begins, the items at a point, in an element or in a state, and a run of a graph are exactly the work that the graph
//! has there (`specs/begin/Begun.antt`). An open pool keeps how many values wait in its stream, over the memories of the machine; a body
//! looks at them inside its own memory. The machine stays as it is, for want of memory too. Nothing is asked of graphs and scopes.
mod begin;
mod leaf;
mod ordered;

pub use begin::{begin_body, begin_item, begin_run, begin_state};
