//! A line is judged: the least number that stands against it, or the context behind it.
ghost use Rattle.std.specs.Prelude.{◌≡◌, IfOk};
ghost use Rattle.sd_lex.specs.TreeFold.{block_of};
ghost use Rattle.sd_line.specs.line.HeadFold.{head_tree};
ghost use Rattle.sd_context.specs.context.Context as known;
ghost use Rattle.sd_context.specs.context.ContextFold.{context_of};
ghost use Rattle.sd_context.specs.blocks.Judging as definition;
ghost use Rattle.sd_context.specs.blocks.StepFold.{stepped};

use crate::blocks::refusal::Refusal;
use crate::context::Context;
use sd_lex::Statement;
use sd_line::Head;
use sd_list::NoMemory;
use sd_refusal::refusal;
use std::alloc::Global;

/// A line that is refused.
pub fn refused(number: u8, line: u32) -> Result<(), Refusal>
    ensures { (behind : known.Context) → stepped result behind ≡ definition.refused number line }
{
    Err(Refusal { number, line })
}

/// The lesser of two numbers, where there are two.
fn least(a: Option<u8>, b: Option<u8>) -> Option<u8>
    ensures { result ≡ definition.least a b }
{
    match a {
        None => b,
        Some(first) => match b {
            None => Some(first),
            Some(second) => Some(first.min(second)),
        },
    }
}

/// A line with a number against it is refused.
pub fn accepted(number: Option<u8>, line: u32) -> Result<(), Refusal>
    ensures { (behind : known.Context) → stepped result behind ≡ definition.accepted number line behind }
{
    match number {
        None => Ok(()),
        Some(number) => Err(Refusal { number, line }),
    }
}

/// The least number that stands against a head where the next line stands.
pub fn against(alloc: Global, context: &Context, head: &Head) -> Result<Option<u8>, NoMemory>
    ensures { IfOk result (λ number. number ≡ definition.against (context_of context.now) (head_tree head.now)) }
{
    refusal(alloc, &context.names, context.site(), head)
}

/// Judges a head and passes it; the lesser of the number before and that against it.
fn judge_one(
    alloc: Global,
    context: &mut Context,
    before: Option<u8>,
    line: u32,
    is_tasklet: bool,
    head: Head,
) -> Result<Option<u8>, NoMemory>
    ensures { IfOk result (λ number. (number, context_of context.new) ≡ definition.judged_one line is_tasklet (before, context_of context.old) (head_tree head)) }
{
    match against(alloc, context, &head) {
        Ok(number) => {
            context.pass(alloc, line, is_tasklet, head)?;
            Ok(least(before, number))
        }
        Err(error) => {
            drop(head);
            Err(error)
        }
    }
}

/// Judges the arguments of a program one after another.
fn judge_arguments(
    alloc: Global,
    context: &mut Context,
    before: Option<u8>,
    line: u32,
    is_tasklet: bool,
    arguments: Vec<Statement>,
) -> Result<Option<u8>, NoMemory>
    ensures { IfOk result (λ number. (number, context_of context.new) ≡ definition.judged_all line is_tasklet (before, context_of context.old) (definition.statement_heads (block_of arguments.items))) }
{
    let mut number = before;
    for argument in arguments {
        number = judge_one(
            alloc,
            context,
            number,
            line,
            is_tasklet,
            Head::Statement(argument),
        )?;
    }
    Ok(number)
}

/// Judges a line, and a program's arguments behind its name.
pub fn judge(
    alloc: Global,
    context: &mut Context,
    line: u32,
    is_tasklet: bool,
    head: Head,
) -> Result<Result<(), Refusal>, NoMemory>
    ensures { IfOk result (λ step. stepped step (context_of context.new) ≡ definition.judged (context_of context.old) line is_tasklet (head_tree head)) }
{
    match head {
        Head::Program { name, arguments } => {
            let alone = Head::Program {
                name,
                arguments: Vec::new(alloc),
            };
            let number = judge_one(alloc, context, None, line, is_tasklet, alone)?;
            let number = judge_arguments(alloc, context, number, line, is_tasklet, arguments)?;
            Ok(accepted(number, line))
        }
        other => {
            let number = judge_one(alloc, context, None, line, is_tasklet, other)?;
            Ok(accepted(number, line))
        }
    }
}
