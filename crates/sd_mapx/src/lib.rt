//! Rewrites of maps: conditions, results, and the calls that give them.
//!
//! Each call answers the graph of `specs/Results.antt`, or the lowest condition of `specs/MapConditions.antt` that
//! fails. A path is followed to its place (`paths`), the item there is looked at (`found`), and the graph is made once
//! more with other items in its place (`rebuilt`), and with fresh names for new variables (`fresh`). The graph that was
//! lent is unchanged. Want of memory is the one other refusal.
#![tactic(auto)]

mod copies;
mod found;
mod fresh;
mod interchanging;
mod laws;
mod limits;
mod maps;
mod nesting;
mod nodes;
mod pairs;
mod paths;
mod rebuilt;
mod refused;
mod scopes;
mod tests;
mod tiles;
mod tiling;

pub use interchanging::interchange;
pub use laws::{
    a_collapsed_graph_is_valid, a_collapsed_graph_runs_the_same, a_fresh_name_has_the_least_number,
    a_graph_tiled_by_one_size_runs_the_same, a_tiled_graph_ends_alike, a_tiled_graph_is_valid,
    an_expanded_graph_is_valid, an_expanded_graph_runs_the_same, an_interchanged_graph_ends_alike,
    an_interchanged_graph_is_valid, rewritten_graphs_are_normal,
};
pub use maps::{collapse, expand};
pub use refused::Refused;
pub use tiling::tile;
