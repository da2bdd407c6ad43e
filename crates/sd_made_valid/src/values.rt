//! The code that element statements and conditions make names what is there, whatever the sizes are.
//!
//! Each element of an expression is a connector without dimensions, numbered from left to right, and
//! each variable that it names is among those of the code (`proofs/values_lemmas/Values`). Sizes leave both as they
//! are, but for size symbols, whose values are written in their places. That is a part of what the
//! rule on dimensions asks.
mod laws;

pub use laws::code_of_element_statements_and_conditions_names_what_is_there;
