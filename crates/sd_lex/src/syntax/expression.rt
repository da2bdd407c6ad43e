use crate::syntax::{OneSign, TwoSign};

/// An expression. Parentheses leave no variant: the tree itself says what belongs together.
#[derive(Drop)]
pub enum Expr {
    /// `12`, from 0 to 2^63-1. A sign before it is an `Expr::One`.
    Number(i64),
    /// `x`
    Name(String),
    /// `X[x, y]`, an element of a container or of a connector, one expression per dimension.
    Element {
        name: String,
        at: Vec<Expr>,
    },
    /// A sign and the expression behind it, as `-x`.
    One {
        sign: OneSign,
        of: Box<Expr>,
    },
    /// Two expressions with the sign between them, as `x + y`, or `min(x, y)` and `max(x, y)`.
    Two {
        sign: TwoSign,
        left: Box<Expr>,
        right: Box<Expr>,
    },
    /// `value if when else other`
    Choice {
        value: Box<Expr>,
        when: Box<Expr>,
        other: Box<Expr>,
    },
}
