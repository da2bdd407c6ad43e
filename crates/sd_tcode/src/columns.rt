//! Flat code for many runs at once, column by column.
//!
//! A column has what a register holds in each of the runs. An instruction is done for all runs before the next
//! one, so that it is looked at once. Where no instruction jumps and none faults, each run comes to what the code
//! means with what its own registers hold (`Columns::run`). What else is done is not done: the caller runs the code
//! one by one then.
mod columns;
mod filling;
mod products;
mod spacing;
mod step;

pub use columns::Columns;
pub use products::add_products;
pub use spacing::Spaced;
