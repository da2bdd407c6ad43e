//! Runs a list of tasklets whose flat code is kept from one time to the next.
//!
//! `runners_of` compiles the code of each tasklet of a list, where all of its items are tasklets
//! (`specs/tasks/Runners.antt`). `run_tasks` does such a list where a scope stands, and ends as the items do one after
//! another. Where its accesses lead is looked up each time, so it may have containers of its own and stand anywhere. Inputs of
//! more than one element are read where they stand.
mod runners;
mod task;
mod tasks;
mod viewing;

pub use runners::runners_of;
pub use tasks::run_tasks;
