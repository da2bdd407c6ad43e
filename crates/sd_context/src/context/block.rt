//! Blocks whose lines are read.
ghost use Rattle.std.specs.Prelude.{◌≡◌};
ghost use Rattle.sd_context.specs.context.Context as context;
ghost use Rattle.sd_context.specs.context.ContextFold.{open_block_of};

use sd_lex::{Expr, Statement};
use sd_line::BlockKind;
use sd_names::Names;
use std::alloc::Global;

/// How many names are in force.
#[derive(Clone, Copy, Debug, PartialEq, Eq)]
pub struct InForce {
    /// Names that are no containers.
    pub meanings: usize,
    pub containers: usize,
}

/// A branch of an `if` whose block has ended.
#[derive(Drop)]
pub struct Branch {
    pub line: u32,
    pub when: Expr,
    pub statements: Vec<Statement>,
}

/// What opened a block.
#[derive(Drop)]
pub enum Opener {
    /// The file itself.
    File,
    Function {
        name: String,
    },
    /// A map, a tasklet or a loop, with an empty body.
    Statement(Statement),
    /// The `def` of a consume, with the line of its decorator, its stream and its number.
    Consumer {
        line: u32,
        stream: String,
        size: i64,
        name: String,
        element: String,
        worker: Option<String>,
    },
    /// An `if` or `elif`, with the branches before it.
    If {
        earlier: Vec<Branch>,
        when: Expr,
    },
    Else {
        earlier: Vec<Branch>,
    },
}

/// A block whose lines are read.
#[derive(Drop)]
pub struct OpenBlock {
    pub opener: Opener,
    pub kind: BlockKind,
    /// The line of its statement; of a function that of its decorator.
    pub line: u32,
    /// How many scopes and loops are about its statements.
    pub depth: usize,
    /// How many names were in force before its own.
    pub before: InForce,
    /// Its statements so far.
    pub statements: Vec<Statement>,
}

impl InForce {
    pub fn of(names: &Names) -> InForce
        ensures { result ≡ context.in_force names.now }
    {
        InForce {
            meanings: names.meaning_count(),
            containers: names.container_count(),
        }
    }
}

impl OpenBlock {
    /// The block that the file is.
    pub fn file(alloc: Global) -> OpenBlock
        ensures { open_block_of result ≡ context.file_block }
    {
        OpenBlock {
            opener: Opener::File,
            kind: BlockKind::Top,
            line: 0,
            depth: 0,
            before: InForce {
                meanings: 0,
                containers: 0,
            },
            statements: Vec::new(alloc),
        }
    }
}
