use crate::syntax::Expr;

/// One dimension between the brackets of a subset, or one range of a map.
#[derive(Drop)]
pub enum Slot {
    /// `x`, one index.
    Index(Expr),
    /// `begin:end` or `begin:end:step`. What is not written is None: the begin is then 0, the
    /// end the extent and the step 1. `end` is the first index that is left out.
    Span {
        begin: Option<Expr>,
        end: Option<Expr>,
        step: Option<i64>,
    },
}

/// How values that are written to one element become one: `lambda x, y: x + y` and so on.
#[derive(Clone, Copy, Debug, PartialEq, Eq)]
pub enum Lambda {
    /// `x + y`
    Sum,
    /// `x * y`
    Product,
    /// `min(x, y)`
    Min,
    /// `max(x, y)`
    Max,
    /// `x & y`
    And,
    /// `x | y`
    Or,
    /// `x ^ y`
    Xor,
    /// `y`, the later value.
    Last,
}

/// What a connector moves: `X`, `X(volume)` or `X(volume, lambda)`, each with `[dims]` where
/// wanted.
#[derive(Drop)]
pub struct Moved {
    /// The container.
    pub name: String,
    /// How many elements move; -1 where the number is not known beforehand. None is 1.
    pub volume: Option<i64>,
    pub lambda: Option<Lambda>,
    /// One slot per dimension; empty where no subset is written, which is the whole container.
    pub dims: Vec<Slot>,
}
