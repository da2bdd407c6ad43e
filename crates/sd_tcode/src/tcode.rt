//! The flat code of a tasklet, and its run without memory.
//!
//! A `Code` has the instructions of a tasklet (`specs/tcode/Emitted.antt`), of which each register and
//! connector is known to be there (`specs/tcode/Compiled.antt`); `sd_compile` makes it. `run` does them on
//! what a `Frame` holds: its effects, or the fault, are the tasklet meaning's. Where each output is a
//! scalar that is set exactly once, outside of branches (`specs/tcode/Plain.antt`), `run_plain` leaves the
//! outputs in registers and makes no list of effects. `run_from` takes the elements of connectors that have dimensions from
//! where they stand, so that none is copied.
mod code;
mod frame;
mod laws;
mod layout;
mod room;
mod running;

pub use code::Code;
pub use frame::Frame;
pub use laws::{what_a_frame_has, what_is_given_stays_whole};
pub use layout::Layout;
pub use running::{run, run_from, run_plain};
