//! The code of a tasklet names what is there, whatever the sizes are.
//!
//! Connectors are numbered in their order, the outputs behind the inputs, each with its dimensions
//! (`proofs/tasks_lemmas/Ports`). What a line names is an input, a local in force or a variable that is used, and what
//! it assigns is an output or a local (`proofs/tasks_lemmas/Lines`), where each connector is named with as many
//! subscripts as it has dimensions (`specs/tasks/Counted`).
mod laws;

pub use laws::code_of_tasklets_names_what_is_there;
