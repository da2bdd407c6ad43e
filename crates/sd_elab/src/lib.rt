//! The graph of a program.
//!
//! `elab` makes the graph of the last program of a source, exactly as its definition has it: one rule for each
//! form. `needs` tells which programs of a source that one needs, `items` makes the items of statements, and
//! `states` the states and transitions of a block. Only memory can be wanting.
#![tactic(auto)]

mod elab;
mod items;
mod needs;
mod states;

pub use elab::elaborate;
pub use items::{Graphs, Numbers, count_containers, count_variables, empty_graph, push_item};
pub use needs::needed;
pub use states::{Building, thread_all};
