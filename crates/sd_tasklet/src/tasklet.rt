//! The plain evaluation of a tasklet's code, which is what the code means.
//!
//! `eval` gives the effects of a tasklet in their order, or its first fault, exactly as the tasklet
//! meaning of `sd_graph` has it, or want of memory (`specs/tasklet/Answer.antt`). An effect is kept with its
//! index in four numbers (`specs/tasklet/Kept.antt`). Nothing is asked of the code; of what it is given only
//! that each input has its elements and no connector more than four dimensions (`specs/tasklet/Given.antt`).
mod effect;
mod evaluation;
mod fault;
mod inputs;
mod operator;
mod place;
mod progress;
mod value;
mod whole;

pub use effect::{Effect, Effects};
pub use evaluation::eval;
pub use fault::TaskFault;
pub use inputs::Inputs;
pub use operator::{decides, holds, one_value, two_values};
pub use place::{filled, is_inside, row_number};
pub use whole::has_room;
