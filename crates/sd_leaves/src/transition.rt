//! Where a run goes on whose state is finished.
//!
//! `go_on` asks the conditions of the state's exits in their order until one holds, and takes the values of the variables behind that
//! exit. What it answers is exactly the choice that the transition of the run's work makes (`specs/transition/Onward.antt`). The next state
//! does not begin here, and the turn of a marked exit is not spent here.
mod onward;

pub use onward::{Entry, Onward, go_on};
