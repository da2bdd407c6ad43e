//! Runs an instance of a tasklet by flat code, where it is known where its accesses lead.
//!
//! `Accesses` says so (`specs/instance/Known.antt`): an element for each input, the values of the variables, and a target
//! for each output, which may be a stream, an element, or an array whose element is looked up by the effect's
//! place. `run_instance` reads, evaluates and performs the effects in their order, as the tasklet means. Whether
//! and how often an output is set, and where, may depend on what is read. Code that does no more than write one value
//! at one place is a `Scatter` (`specs/instance/Scatter.antt`), which `run_directly` does by one write.
mod accesses;
mod at_rest;
mod fit;
mod instance;
mod performing;
mod runner;
mod scatter;
mod target;

pub use accesses::Accesses;
pub(crate) use at_rest::{targets_at, track_to, values_at};
pub use fit::{are_for_each, are_scalar_links, are_scalar_ports, element_of_variable, is_stream};
pub use instance::run_instance;
pub use performing::perform_all;
pub(crate) use runner::narrowed;
pub use runner::{Runner, ones};
pub use scatter::{Operand, Scatter, run_directly};
pub use target::Target;
