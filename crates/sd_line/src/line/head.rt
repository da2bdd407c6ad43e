//! What a line says by its tokens alone, without the block below it.
use sd_lex::{Expr, Statement};
use sd_phrase::{WrittenLambda, WrittenMemlet};

/// The kind of block in which a line stands.
#[derive(Clone, Copy, Debug, PartialEq, Eq)]
pub enum BlockKind {
    /// The lines outside all blocks.
    Top,
    /// The body of a program, or a block of `for`, `while` or `if` in it.
    Program,
    /// The body of a map or of a consume scope.
    Scope,
    /// The lines of a tasklet, or a block of `if` in it.
    Tasklet,
}

/// What a line says.
#[derive(Drop)]
pub enum Head {
    /// `import dace`, `import numpy as np`
    Import,
    /// `N = dace.symbol('N')`: both names as they are written.
    Symbol {
        name: String,
        quoted: String,
    },
    /// `@dace.program`
    ProgramDecorator,
    /// `def f(X: dace.int64[N], Y: dace.int64):` at top level.
    Program {
        name: String,
        arguments: Vec<Statement>,
    },
    /// A statement whose blocks are empty.
    Statement(Statement),
    /// `dace.reduce(lambda x, y: x + y, X, Y, axis=1, identity=0)`
    Reduce {
        lambda: WrittenLambda,
        from: String,
        to: String,
        axis: Option<i64>,
        identity: Option<i64>,
    },
    /// `c << X[i]`
    Input {
        connector: String,
        memlet: WrittenMemlet,
    },
    /// `c >> X[i]`
    Output {
        connector: String,
        memlet: WrittenMemlet,
    },
    /// `@dace.consume(S, 4)`
    ConsumeDecorator {
        stream: String,
        size: i64,
    },
    /// `def g(element, worker):` in a body.
    Consume {
        name: String,
        element: String,
        worker: Option<String>,
    },
    /// `elif when:`
    Elif(Expr),
    /// `else:`
    Else,
}
