//! The limits on the nodes of a source's graphs.
//!
//! `first_over` gives the least line at which a state of a function, or a function's graph with the
//! graphs that it calls, has a node more than it may, exactly as `NodeLimits.antt` defines it. The nodes
//! (`Nodes.antt`) are told by the items of a list and what each reads and writes (`Items.antt`), the
//! items by the source's statements (`SourceItems.antt`). Only memory can be wanting.
mod access;
mod call;
mod connectors;
mod counting;
mod declarations;
mod elements;
mod functions;
mod laws;
mod limits;
mod mentioned;
mod name_set;
mod node;
mod nodes;
mod parameters;
mod states;
mod table;
mod used;

pub use laws::a_line_is_told_exactly_where_there_are_too_many;
pub use limits::first_over;
