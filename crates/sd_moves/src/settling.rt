//! Where settling has nothing to do: by `laws`, work that may not go on stays as it is, and whether a part of an ordered list may go
//! on hangs on the parts before it alone. So settling goes only into parts that may go on, one after another.
//! There is no code here.
mod laws;

pub use laws::{later_parts_do_not_hold_up, work_that_may_not_go_on_stays};
