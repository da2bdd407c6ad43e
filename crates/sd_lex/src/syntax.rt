//! The syntax tree of a source: what its lines say, before any name is looked up.

mod expression;
mod memlet;
mod operator;
mod program;
mod statement;

pub use expression::Expr;
pub use memlet::{Lambda, Moved, Slot};
pub use operator::{OneSign, TwoSign};
pub use program::{Function, Program};
pub use statement::{Statement, has_connector};
