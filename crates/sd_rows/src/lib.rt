//! Scopes whose bodies are tasklets, run by flat code that is made once.
//!
//! `rows` runs a map of one tasklet row by row, `consume` a consume scope of one tasklet, `tasks` a list of
//! tasklets. Each ends as its items do one after another, from left to right. A scope of another kind is left
//! alone; want of memory is the one refusal.
#![tactic(auto)]

mod consume;
mod rows;
mod tasks;

pub use consume::run_elements;
pub use rows::run_rows;
pub use tasks::{run_tasks, runners_of};
