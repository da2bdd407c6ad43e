//! What a line says in a body.
mod call;
mod condition;
mod consume;
mod declaration;
mod element;
mod line;
mod reduction;
mod repetition;

pub(crate) use condition::{read_condition, read_elif};
pub(crate) use line::read_body_line;
