//! The top call: a source, its arrays, a chain of rewrites, and what is printed.
//!
//! `sdfg` reads the words of a call and its files, does the chain, makes the race check, and runs the graph that the chain made or tells of it.
//! By clause `headline` a run writes exactly the text of the source's own sequential run, for every chain and number of workers; by `interleaving` a run by picks writes the same;
//! `trace`, `listing`, `verdict`, `planning`, `matching` and `race` say what else is written; `answers` and `statuses` say when. `call` has the call, `files` what it
//! reads, `workspace` what it works on, `steering` the chain and the picks, `ran` the runs, `report`, `ending` and `lines` what is written.
#![tactic(auto)]

mod call;
mod ending;
mod files;
mod laws;
mod lines;
mod ran;
mod report;
mod steering;
mod workspace;

pub use call::sdfg;
pub use laws::{
    a_graph_is_accepted_exactly_where_it_is_free_of_races, what_fits_is_the_work_of_its_entries,
};
