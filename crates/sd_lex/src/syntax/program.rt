use crate::syntax::Statement;

/// A source: its size symbols and its functions, in the order of the text.
#[derive(Drop)]
pub struct Program {
    /// `N` of each `N = dace.symbol('N')`.
    pub symbols: Vec<String>,
    pub functions: Vec<Function>,
}

/// `@dace.program`, then `def name(X: dace.int64[N], Y: dace.int64):` and a block.
#[derive(Drop)]
pub struct Function {
    pub name: String,
    /// The line of the `@`, counted from 1.
    pub line: u32,
    /// Each is a `Statement::Argument`.
    pub arguments: Vec<Statement>,
    pub body: Vec<Statement>,
}
