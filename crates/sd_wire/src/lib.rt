//! What a graph's data imply: the nodes and edges of its states, and the loops about them.
//!
//! `wiring` draws exactly the nodes and edges that its definitions have, and tells what items do to which
//! containers. `wire_laws` has laws about them. `loops` tells which loop variables are in force in a state,
//! and how many loops are about it. Nothing is asked of the graph; want of memory is the one refusal.
#![tactic(auto)]

mod loops;
mod wire_laws;
mod wiring;

pub use loops::{LoopSpan, leads_to, loop_spans, loops_about, loops_in_force, variables_in};
pub use wire_laws::order_edges_come_from_the_items_that_conflict;
pub use wiring::{
    Use, UseMode, do_conflict, graph_uses, has_number, joined_mode, output_mode, reduction_mode,
    wire, wire_items,
};
