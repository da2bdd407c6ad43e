//! What the leaves of a graph do when it runs from left to right: an instance of a tasklet, a copy, a reduction, and the choice
//! of the first exit that may be taken.
//!
//! Each ends as the graph's meaning has it, or for want of memory, and nothing is asked of graphs, scopes and memories
//! (`specs/leaves/Done.antt`, `Read.antt`, `Given.antt`, `Next.antt`). The elements of an instance's inputs are all read, one after
//! another, before its code is evaluated, and its effects are performed in their order. A fault stops the work where it comes.
//! Code whose input has not an element for each of its places, or more than four dimensions, is answered by want of memory.
mod changes;
mod copy;
mod effects;
mod ending;
mod evaluation;
mod exit;
mod reading;
mod reduction;
mod task;

pub use copy::run_copy;
pub use effects::{dimensions_of, is_stream, perform_effect, widened};
pub use ending::end_of;
pub use evaluation::{evaluated, inputs_of};
pub use exit::{Next, next_exit};
pub use reduction::{places_of, put_target_place, run_reduction};
pub use task::run_task;
