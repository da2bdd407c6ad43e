//! What a user sees: a run prints what its source says. The meaning of a source is that of `sd_says`, by its
//! statements alone; what a call prints is that of `sd_tool`. Between them stand the graph, its sizes, its
//! memory and its run, of which nothing is left in what is promised here.
#![tactic(auto)]

mod laws;

pub use laws::{
    a_small_source_and_its_arrays_say_what_is_printed, files_say_what_their_graph_runs,
    run_prints_what_the_source_says,
};
