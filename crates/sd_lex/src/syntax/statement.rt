ghost use Rattle.std.specs.Prelude.{◌≡◌};
ghost use Rattle.sd_lex.specs.StatementKind as kinds;
ghost use Rattle.sd_lex.specs.TreeFold.{statement_of, block_of};

use crate::syntax::{Expr, Lambda, Moved, Slot};

/// A statement with the blocks below it.
///
/// `line` is the line of its logical line, that is of the first physical line of it, counted
/// from 1; an argument has that of its `def`. `bits` is the width of an
/// element, 64 for `dace.int64`. A list of slots is empty where no subset is written.
#[derive(Drop)]
pub enum Statement {
    /// `X: dace.int64[N, M]`, an argument of a function. `extents` is empty where the type has
    /// no brackets.
    Argument {
        line: u32,
        name: String,
        bits: u8,
        extents: Vec<Expr>,
    },
    /// `X = dace.define_local([N, M], dtype=dace.int64)`: an array of the function's own.
    Local {
        line: u32,
        name: String,
        extents: Vec<Expr>,
        bits: u8,
    },
    /// `S = dace.define_stream(dace.int64, 8)`. `size` is the number written, which bounds
    /// nothing.
    Stream {
        line: u32,
        name: String,
        bits: u8,
        size: Option<i64>,
    },
    /// `X[i, j] = value`; with `add`, `X[i, j] += value`.
    Assign {
        line: u32,
        name: String,
        at: Vec<Expr>,
        add: bool,
        value: Expr,
    },
    /// `X[0:N, j] = Y[i, 0:N]`: a copy of a part of `from`.
    Copy {
        line: u32,
        to: String,
        to_dims: Vec<Slot>,
        from: String,
        from_dims: Vec<Slot>,
    },
    /// `dace.reduce(lambda x, y: x + y, X, Y, axis=1, identity=0)`. Without `axis` all
    /// dimensions are reduced.
    Reduce {
        line: u32,
        lambda: Lambda,
        from: String,
        to: String,
        axis: Option<i64>,
        identity: Option<i64>,
    },
    /// `for i, j in dace.map[0:N, 0:M]:` and a block; one range per parameter.
    Map {
        line: u32,
        params: Vec<String>,
        ranges: Vec<Slot>,
        body: Vec<Statement>,
    },
    /// `with dace.tasklet:` and a block.
    Tasklet {
        line: u32,
        body: Vec<Statement>,
    },
    /// `@dace.consume(S, 4)`, then `def name(element, worker):` and a block. `size` is the
    /// number written.
    Consume {
        line: u32,
        stream: String,
        size: i64,
        name: String,
        element: String,
        worker: Option<String>,
        body: Vec<Statement>,
    },
    /// `f(X, Y[0:N])`: a call with the containers and their subsets.
    Call {
        line: u32,
        name: String,
        arguments: Vec<(String, Vec<Slot>)>,
    },
    /// `for k in range(begin, end, step):` and a block. What is not written is None: the begin
    /// is then 0 and the step 1.
    For {
        line: u32,
        name: String,
        begin: Option<Expr>,
        end: Expr,
        step: Option<i64>,
        body: Vec<Statement>,
    },
    /// `while when:` and a block.
    While {
        line: u32,
        when: Expr,
        body: Vec<Statement>,
    },
    /// `if when:` and a block, outside a tasklet. `other` is the block of `else:`, or one
    /// statement on the line of an `elif`; it is empty where neither follows.
    If {
        line: u32,
        when: Expr,
        body: Vec<Statement>,
        other: Vec<Statement>,
    },
    /// `c << X[i]`: a tasklet reads through `c`.
    Input {
        line: u32,
        connector: String,
        memlet: Moved,
    },
    /// `c >> X[i]`: a tasklet writes through `c`.
    Output {
        line: u32,
        connector: String,
        memlet: Moved,
    },
    /// `c = value` in a tasklet: an output connector or a local.
    Set {
        line: u32,
        name: String,
        value: Expr,
    },
    /// `c[x, y] = value` in a tasklet: an element of an output connector.
    SetAt {
        line: u32,
        name: String,
        at: Vec<Expr>,
        value: Expr,
    },
    /// `if when:` and a block, in a tasklet. `other` is as that of `If`.
    When {
        line: u32,
        when: Expr,
        body: Vec<Statement>,
        other: Vec<Statement>,
    },
}

impl Statement {
    /// The line of its logical line, counted from 1.
    pub fn line(&self) -> u32
        ensures { result ≡ kinds.line_of (statement_of self.now) }
    {
        match self {
            Statement::Argument { line, .. }
            | Statement::Local { line, .. }
            | Statement::Stream { line, .. }
            | Statement::Assign { line, .. }
            | Statement::Copy { line, .. }
            | Statement::Reduce { line, .. }
            | Statement::Map { line, .. }
            | Statement::Tasklet { line, .. }
            | Statement::Consume { line, .. }
            | Statement::Call { line, .. }
            | Statement::For { line, .. }
            | Statement::While { line, .. }
            | Statement::If { line, .. }
            | Statement::Input { line, .. }
            | Statement::Output { line, .. }
            | Statement::Set { line, .. }
            | Statement::SetAt { line, .. }
            | Statement::When { line, .. } => *line,
        }
    }

    /// Whether it declares a connector of a tasklet.
    pub fn is_connector(&self) -> bool
        ensures { result ≡ kinds.is_connector (statement_of self.now) }
    {
        matches!(self, Statement::Input { .. } | Statement::Output { .. })
    }
}

/// Whether one of these statements declares a connector of a tasklet. Blocks below them do not
/// count.
pub fn has_connector(body: &[Statement]) -> bool
    ensures { result ≡ kinds.has_connector (block_of body.now) }
{
    for statement in body {
        if statement.is_connector() {
            return true;
        }
    }
    false
}
