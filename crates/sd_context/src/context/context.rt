//! What is known between two lines.
ghost use Rattle.std.specs.Prelude.{◌≡◌};
ghost use Rattle.sd_context.specs.context.Context as context;
ghost use Rattle.sd_context.specs.context.ContextFold.{context_of};

use crate::context::block::OpenBlock;
use sd_lex::{Function, Statement};
use sd_names::{Extents, NameSet, Names};
use sd_refusal::{Counts, Site};
use std::alloc::Global;

/// What has to come next.
#[derive(Drop)]
pub enum Awaited {
    Nothing,
    Block,
    /// The `def` of a program, with the line of its decorator.
    FunctionDef(u32),
    /// The `def` of a consume, with the line of its decorator, the stream and the number.
    ConsumeDef {
        line: u32,
        stream: String,
        size: i64,
    },
}

/// What is known between two lines.
#[derive(Drop)]
pub struct Context {
    pub names: Names,
    pub counts: Counts,
    /// The arguments of the program, and its parameters with their extents.
    pub arguments: Vec<Statement>,
    pub parameters: Vec<(String, Extents)>,
    /// The containers that the program has written.
    pub written: NameSet,
    /// Whether a connector line may come.
    pub connects: bool,
    pub awaited: Awaited,
    /// The innermost block.
    pub block: OpenBlock,
    /// The blocks about it, the outermost first.
    pub outer: Vec<OpenBlock>,
    /// The size symbols of the file, and its programs that have ended.
    pub symbols: Vec<String>,
    pub functions: Vec<Function>,
}

/// Nothing is counted yet.
pub const NO_COUNTS: Counts = Counts {
    containers: 0,
    states: 0,
    calls: 0,
    connectors: 0,
    lines: 0,
};

impl Context {
    /// Before the first line.
    pub fn opening(alloc: Global) -> Context
        ensures { context_of result ≡ context.opening }
    {
        Context {
            names: Names::new(alloc),
            counts: NO_COUNTS,
            arguments: Vec::new(alloc),
            parameters: Vec::new(alloc),
            written: NameSet::new(alloc),
            connects: false,
            awaited: Awaited::Nothing,
            block: OpenBlock::file(alloc),
            outer: Vec::new(alloc),
            symbols: Vec::new(alloc),
            functions: Vec::new(alloc),
        }
    }

    /// Where the next line stands.
    pub fn site(&self) -> Site
        ensures { result ≡ context.site_of (context_of self.now) }
    {
        Site {
            kind: self.block.kind,
            depth: self.block.depth,
            connects: self.connects,
            counts: self.counts,
        }
    }
}
