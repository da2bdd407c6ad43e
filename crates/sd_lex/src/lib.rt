//! Tokens of a source, and the types of its syntax tree.
//!
//! `tokens` gives exactly the tokens of the definition (`specs/Layout.antt`), or exactly the first
//! error in the text, with its number and physical line. The tokens stand in order within the
//! text, and each has the bytes of its kind (`TokenText.antt`) and the line of its first byte. The
//! syntax tree is seen as a plain tree (`PlainTree.antt`), to which `TreeFold.antt` folds it.
#![tactic(auto)]

mod blocks;
mod bytes;
mod error;
mod found;
mod laws;
mod layout;
mod lexing;
mod line;
mod position;
mod sign;
mod syntax;
mod token;

pub use error::LexError;
pub use laws::tokens_are_slices_of_their_text;
pub use lexing::tokens;
pub use position::line_count;
pub use syntax::{
    Expr, Function, Lambda, Moved, OneSign, Program, Slot, Statement, TwoSign, has_connector,
};
pub use token::{Token, TokenKind};
