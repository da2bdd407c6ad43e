//! A tasklet of a program as an item.
//!
//! `tasklet_item` (`Item.antt`) is the item of `with dace.tasklet:` and its block: its connectors with
//! their links, the variables that its code uses, its locals, and its code (`Code.antt`).
mod act;
mod item;
mod link;
mod value;

pub use item::{task_with, tasklet_item};
pub use link::{push_inputs, push_outputs};
