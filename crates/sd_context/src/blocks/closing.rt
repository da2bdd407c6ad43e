//! What comes of a block that ends.
ghost use Rattle.std.specs.Prelude.{◌≡◌, ◌∷◌, [], IfOk, OnOk, map, reverse, string_bytes};
ghost use Rattle.sd_lex.specs.TreeFold.{block_of};
ghost use Rattle.sd_names.specs.Names.{named_entries};
ghost use Rattle.sd_context.specs.context.ContextFold.{context_of, open_block_of, opener_of};
ghost use Rattle.sd_context.specs.blocks.Closing as definition;
ghost use Rattle.sd_context.specs.blocks.StepFold.{stepped};

use crate::blocks::refusal::Refusal;
use crate::context::{Context, OpenBlock, Opener};
use finished::finished;
use late_states::{count_late_states, is_loop};
use sd_lex::{Function, Statement};
use sd_list::{NoMemory, Sequence};
use sd_names::{Extents, Meaning, NameSet, Parameter, Signature};
use std::alloc::Global;

mod finished;
mod late_states;

pub use finished::branches_with;
pub use late_states::count_state;

/// Whether containers stay in force behind the block.
fn keeps_containers(opener: &Opener) -> bool
    ensures { result ≡ definition.keeps_containers (opener_of opener.now) }
{
    match opener {
        Opener::Statement(statement) => is_loop(statement),
        Opener::If { .. } | Opener::Else { .. } => true,
        _ => false,
    }
}

/// What a call of a program needs.
fn signature_of(
    alloc: Global,
    written: &NameSet,
    parameters: Vec<(String, Extents)>,
    depth: usize,
) -> Result<Signature, NoMemory>
    ensures { IfOk result (λ signature. signature ≡ definition.signature_of written.now (named_entries parameters.items) depth) }
{
    let mut all = Vec::new(alloc);
    for (name, extents) in parameters {
        let is_written = written.contains(&name);
        all.push(Parameter {
            extents,
            is_written,
        })?;
    }
    Ok(Signature {
        parameters: Sequence::from(all),
        depth,
    })
}

/// Leaves the innermost block for the one about it, with the names behind it.
pub fn leave(context: &mut Context, about: OpenBlock) -> OpenBlock
    ensures block { result ≡ context.old.block }
    ensures left { context_of context.new ≡ definition.left_by (open_block_of about) (reverse (map open_block_of context.old.outer.items)) (context_of context.old) }
{
    context.names.leave(context.block.before.meanings);
    if !keeps_containers(&context.block.opener) {
        context
            .names
            .leave_containers(context.block.before.containers);
    }
    std::mem::replace(&mut context.block, about)
}

/// A program has ended: it joins those of the source, and may be called.
fn push_function(
    alloc: Global,
    context: &mut Context,
    name: String,
    line: u32,
    body: Vec<Statement>,
) -> Result<(), NoMemory>
    ensures { OnOk result (context_of context.new ≡ definition.with_function (string_bytes name) line (block_of body.items) (context_of context.old)) }
{
    let parameters = std::mem::replace(&mut context.parameters, Vec::new(alloc));
    let arguments = std::mem::replace(&mut context.arguments, Vec::new(alloc));
    let signature = signature_of(alloc, &context.written, parameters, context.counts.calls)?;
    context.names.leave_program(alloc);
    context
        .names
        .declare(alloc, &name, Meaning::Program(Some(signature)))?;
    context.functions.push(Function {
        name,
        line,
        arguments,
        body,
    })?;
    Ok(())
}

/// Ends the innermost block, which stands in this one.
pub fn close_block_into(
    alloc: Global,
    context: &mut Context,
    about: OpenBlock,
) -> Result<(), NoMemory>
    ensures { OnOk result (context_of context.new ≡ definition.closed_by (opener_of context.old.block.opener) (open_block_of about) (reverse (map open_block_of context.old.outer.items)) (context_of context.old)) }
{
    let OpenBlock {
        opener,
        kind,
        line,
        depth,
        before,
        statements,
    } = leave(context, about);
    match opener {
        Opener::Function { name } => push_function(alloc, context, name, line, statements),
        other => {
            let block = OpenBlock {
                opener: other,
                kind,
                line,
                depth,
                before,
                statements,
            };
            context.append_statements(finished(alloc, block)?)
        }
    }
}

/// Counts the states that are made where the innermost block ends.
fn count_late(context: &mut Context) -> Result<(), Refusal>
    ensures { stepped result (context_of context.new) ≡ definition.with_states (context_of context.old) (definition.late_states (open_block_of context.old.block)) }
{
    count_late_states(&mut context.counts, &context.block)
}

/// Ends the innermost block, whose states are counted; the file has no end.
pub fn close_block(alloc: Global, context: &mut Context) -> Result<Result<(), Refusal>, NoMemory>
    ensures { IfOk result (λ step. stepped step (context_of context.new) ≡ definition.closed (context_of context.old)) }
{
    if let Err(refusal) = count_late(context) {
        return Ok(Err(refusal));
    }
    if let Some(about) = context.outer.pop() {
        close_block_into(alloc, context, about)?;
    }
    Ok(Ok(()))
}

/// Ends so many blocks.
#[tactic(auto, using(crate::proofs::blocks_lemmas::ClosingLemmas::closed_next))]
pub fn close_blocks(
    alloc: Global,
    context: &mut Context,
    count: usize,
) -> Result<Result<(), Refusal>, NoMemory>
    ensures { IfOk result (λ step. stepped step (context_of context.new) ≡ definition.closed_times count (context_of context.old)) }
{
    for _ in 0..count {
        if let Err(refusal) = close_block(alloc, context)? {
            return Ok(Err(refusal));
        }
    }
    Ok(Ok(()))
}
