//! Runs a graph from left to right: items in their order, points in row order, values of streams the oldest
//! first.
//!
//! `run_seq` ends exactly as the sequential run of the graph's work does (`specs/RunEnd.antt`), which
//! `sd_work` defines by single moves. Below it stand functions for each level of a graph, which call each
//! other down the tree: each ends as its part of the graph does when it is done from left to right
//! (`IsEnd` of `sd_mem`). Their runs end because unmarked transitions lead upwards and marked ones spend
//! turns.
#![tactic(auto)]

mod run;
mod run_end;
mod sequential;

pub use run::run_item;
pub use run_end::RunEnd;
pub use sequential::run_seq;
