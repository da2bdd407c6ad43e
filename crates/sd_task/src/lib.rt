//! What the items of statements are made of.
//!
//! `in_force` looks up names and their numbers, `containers` declares them. `task` makes links, element statements
//! and conditions; `tasklet_names` and `tasklets` make a tasklet of its block. Each equals the rule of the
//! graph of a program for its form; only memory can be wanting.
#![tactic(auto)]

mod containers;
mod in_force;
mod task;
mod tasklet_names;
mod tasklets;

pub use containers::{containers_of_function, variable_names};
pub use in_force::{
    Scope, affine, affine_or, connector_subset, more, number, parameters, subset_of,
};
pub use task::{
    Names, element_link, element_task, guard, guard_below, memlet_link, one_sign, ports,
    push_variable, resolution_of, subset_link, two_sign, variable_value,
};
pub use tasklet_names::{Connectors, Locals, used_variables};
pub use tasklets::{push_inputs, push_outputs, task_with, tasklet_item};
