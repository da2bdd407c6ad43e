//! Which loop variables are in force in a state of a graph, as places of faults show them, and how many
//! loops there are about it.
//!
//! A state stands in a loop where it is reached from the loop's begin and leads to a marked
//! transition back to it, both without coming to the begin again. Which states lead to the end of a
//! loop is found in a table that is raised round by round until it stays the same
//! (`specs/loops/Table.antt`): at most as many rounds as there are states, each over all transitions.
//! Which states the begin leads to is found in a table that grows in place (`specs/loops/Spread.antt`):
//! one round follows all transitions to higher states.
//!
//! `loop_spans` makes these tables once for a graph, and only for the variables that marked
//! transitions set; `variables_in` then tells the variables in force in each state. Graphs without a
//! marked transition are answered at once.
mod about;
mod force;
mod mark;
mod path;
mod reach;
mod span;

pub use about::loops_about;
pub use force::loops_in_force;
pub use path::leads_to;
pub use span::{LoopSpan, loop_spans, variables_in};
