//! The statement of a block that ends.
ghost use Rattle.std.specs.Prelude.{◌≡◌, ◌∷◌, [], IfOk, map};
ghost use Rattle.sd_lex.specs.TreeFold.{statement_of, block_of};
ghost use Rattle.sd_context.specs.context.ContextFold.{open_block_of, opener_of, branch_of};
ghost use Rattle.sd_context.specs.blocks.Closing as definition;

use crate::context::{Branch, OpenBlock, Opener};
use sd_lex::Statement;
use sd_line::BlockKind;
use sd_list::NoMemory;
use std::alloc::Global;

/// A map, a tasklet or a loop with this body; any other statement as it is.
fn with_body(statement: Statement, body: Vec<Statement>) -> Statement
    ensures { statement_of result ≡ definition.with_body (statement_of statement) (block_of body.items) }
{
    match statement {
        Statement::Map {
            line,
            params,
            ranges,
            ..
        } => Statement::Map {
            line,
            params,
            ranges,
            body,
        },
        Statement::Tasklet { line, .. } => Statement::Tasklet { line, body },
        Statement::For {
            line,
            name,
            begin,
            end,
            step,
            ..
        } => Statement::For {
            line,
            name,
            begin,
            end,
            step,
            body,
        },
        Statement::While { line, when, .. } => Statement::While { line, when, body },
        other => other,
    }
}

/// An `if` of a branch with the block behind its `else`.
fn branch_with(kind: BlockKind, branch: Branch, other: Vec<Statement>) -> Statement
    ensures { statement_of result ≡ definition.branch_with kind (branch_of branch) (block_of other.items) }
{
    let Branch {
        line,
        when,
        statements,
    } = branch;
    if kind == BlockKind::Tasklet {
        Statement::When {
            line,
            when,
            body: statements,
            other,
        }
    } else {
        Statement::If {
            line,
            when,
            body: statements,
            other,
        }
    }
}

/// The branches of an `if`, each the block behind the `else` of the one before it.
#[tactic(auto, using(crate::proofs::blocks_lemmas::ClosingLemmas::nested_last))]
fn nested(
    alloc: Global,
    kind: BlockKind,
    branches: Vec<Branch>,
    last: Vec<Statement>,
) -> Result<Vec<Statement>, NoMemory>
    ensures { IfOk result (λ statements. map statement_of statements.items ≡ definition.nested kind (map branch_of branches.items) (map statement_of last.items)) }
{
    let mut left = branches;
    let mut other = last;
    while let Some(branch) = left.pop() {
        let statement = branch_with(kind, branch, other);
        other = Vec::new(alloc);
        other.push(statement)?;
    }
    Ok(other)
}

/// A statement alone.
fn alone(alloc: Global, statement: Statement) -> Result<Vec<Statement>, NoMemory>
    ensures { IfOk result (λ statements. statements.items ≡ statement ∷ []) }
{
    let mut statements = Vec::new(alloc);
    statements.push(statement)?;
    Ok(statements)
}

/// The branches of an `if` with one more.
pub fn branches_with(earlier: Vec<Branch>, last: Branch) -> Result<Vec<Branch>, NoMemory>
    ensures { IfOk result (λ branches. map branch_of branches.items ≡ definition.branches_with (map branch_of earlier.items) (branch_of last)) }
{
    let mut branches = earlier;
    branches.push(last)?;
    Ok(branches)
}

/// The statements of a block with this opener.
fn finished_by(
    alloc: Global,
    kind: BlockKind,
    line: u32,
    opener: Opener,
    statements: Vec<Statement>,
) -> Result<Vec<Statement>, NoMemory>
    ensures { IfOk result (λ finished. map statement_of finished.items ≡ definition.finished_by kind line (opener_of opener) (map statement_of statements.items)) }
{
    match opener {
        Opener::Statement(statement) => alone(alloc, with_body(statement, statements)),
        Opener::Consumer {
            line,
            stream,
            size,
            name,
            element,
            worker,
        } => {
            let body = statements;
            let consume = Statement::Consume {
                line,
                stream,
                size,
                name,
                element,
                worker,
                body,
            };
            alone(alloc, consume)
        }
        Opener::If { earlier, when } => {
            let last = Branch {
                line,
                when,
                statements,
            };
            nested(alloc, kind, branches_with(earlier, last)?, Vec::new(alloc))
        }
        Opener::Else { earlier } => nested(alloc, kind, earlier, statements),
        _ => Ok(Vec::new(alloc)),
    }
}

/// The statements of a block that ends: one, but none of a function or the file.
pub fn finished(alloc: Global, block: OpenBlock) -> Result<Vec<Statement>, NoMemory>
    ensures { IfOk result (λ statements. map statement_of statements.items ≡ definition.finished (open_block_of block)) }
{
    let OpenBlock {
        opener,
        kind,
        line,
        statements,
        ..
    } = block;
    finished_by(alloc, kind, line, opener, statements)
}
