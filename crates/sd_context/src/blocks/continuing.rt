//! How an `elif` or `else` goes on with the `if` of the block before it.
ghost use Rattle.std.specs.Prelude.{◌≡◌, IfOk, map};
ghost use Rattle.sd_lex.specs.TreeFold.{statement_of};
ghost use Rattle.sd_line.specs.line.HeadFold.{head_tree};
ghost use Rattle.sd_phrase.specs.Readings.{reading_map};
ghost use Rattle.sd_context.specs.context.ContextFold.{context_of, open_block_of, opener_of, branch_of};
ghost use Rattle.sd_context.specs.blocks.Continuing as definition;
ghost use Rattle.sd_context.specs.blocks.StepFold.{stepped};

use crate::blocks::closing::{branches_with, count_state, leave};
use crate::blocks::judging::{accepted, against};
use crate::blocks::refusal::Refusal;
use crate::context::{Branch, Context, InForce, OpenBlock, Opener};
use sd_lex::Statement;
use sd_line::{BlockKind, Head};
use sd_list::NoMemory;
use sd_phrase::Reading;
use std::alloc::Global;

pub fn is_elif_or_else(head: &Head) -> bool
    ensures { result ≡ definition.is_elif_or_else (head_tree head.now) }
{
    match head {
        Head::Elif(_) => true,
        Head::Else => true,
        _ => false,
    }
}

/// Whether the line goes on with the `if` that opened the block.
pub fn goes_on(read: &Reading<Head>, opener: &Opener) -> bool
    ensures { result ≡ definition.goes_on (reading_map head_tree read.now) (opener_of opener.now) }
{
    match opener {
        Opener::If { .. } => match read {
            Reading::Form(head) => is_elif_or_else(head),
            _ => false,
        },
        _ => false,
    }
}

/// The branches of an `if` whose last block this was.
fn branches_of(
    alloc: Global,
    line: u32,
    statements: Vec<Statement>,
    opener: Opener,
) -> Result<Vec<Branch>, NoMemory>
    ensures { IfOk result (λ branches. map branch_of branches.items ≡ definition.branches_of line (map statement_of statements.items) (opener_of opener)) }
{
    match opener {
        Opener::If { earlier, when } => branches_with(
            earlier,
            Branch {
                line,
                when,
                statements,
            },
        ),
        other => {
            drop(other);
            Ok(Vec::new(alloc))
        }
    }
}

fn next_opener(earlier: Vec<Branch>, head: Head) -> Opener
    ensures { opener_of result ≡ definition.next_opener (map branch_of earlier.items) (head_tree head) }
{
    match head {
        Head::Elif(when) => Opener::If { earlier, when },
        other => {
            drop(other);
            Opener::Else { earlier }
        }
    }
}

/// The next block of an `if` whose last block this was.
fn judge_next(
    alloc: Global,
    context: &mut Context,
    last: OpenBlock,
    line: u32,
    head: Head,
) -> Result<Result<(), Refusal>, NoMemory>
    ensures { IfOk result (λ step. stepped step (context_of context.new) ≡ definition.next_judged (open_block_of last) line (head_tree head) (context_of context.old)) }
{
    let number = against(alloc, context, &head)?;
    let before = InForce::of(&context.names);
    let OpenBlock {
        opener,
        kind,
        line: at,
        statements,
        ..
    } = last;
    let branches = branches_of(alloc, at, statements, opener)?;
    context.know(alloc, line, false, &head)?;
    context.open(alloc, before, next_opener(branches, head), kind, line, 0)?;
    Ok(accepted(number, line))
}

/// Counts the state behind a branch that is not the last of its `if`.
fn count_branch(context: &mut Context) -> Result<(), Refusal>
    ensures { stepped result (context_of context.new) ≡ definition.with_branch_state (open_block_of context.old.block) (context_of context.old) }
{
    if context.block.kind == BlockKind::Program {
        return count_state(&mut context.counts, context.block.line);
    }
    Ok(())
}

/// A line takes the place of the innermost block, which is one of an `if`.
pub fn go_on(
    alloc: Global,
    context: &mut Context,
    line: u32,
    head: Head,
) -> Result<Result<(), Refusal>, NoMemory>
    ensures { IfOk result (λ step. stepped step (context_of context.new) ≡ definition.continued line (context_of context.old) (head_tree head)) }
{
    if let Err(refusal) = count_branch(context) {
        drop(head);
        return Ok(Err(refusal));
    }
    match context.outer.pop() {
        Some(about) => {
            let last = leave(context, about);
            judge_next(alloc, context, last, line, head)
        }
        None => {
            drop(head);
            Err(NoMemory)
        }
    }
}
