//! How one line is read: the blocks that it closes end, and then it is judged in the block where it stands.
ghost use Rattle.std.specs.Prelude.{◌≡◌, ◌∷◌, IfOk, map, reverse};
ghost use Rattle.sd_line.specs.line.HeadFold.{head_tree};
ghost use Rattle.sd_phrase.specs.Readings.{reading_map};
ghost use Rattle.sd_phrase.specs.Spans.{AreInside};
ghost use Rattle.sd_context.specs.context.ContextFold.{context_of, open_block_of, awaited_of};
ghost use Rattle.sd_context.specs.blocks.StepFold.{stepped};
ghost use Rattle.sd_line.specs.lines.SourceLines.{Source, line_of, lines_of};
ghost use Rattle.sd_source.specs.source.LineReading as definition;

use sd_context::{
    Awaited, Context, OpenBlock, Refusal, Wanted, close_block, close_blocks, comes_right, go_on,
    goes_on, is_elif_or_else, is_wanted, judge, refused, wanted_of, wrong_number,
};
use sd_line::{BlockKind, Head, LineSpan, head_in, opens_tasklet};
use sd_list::NoMemory;
use sd_phrase::{Piece, Reading};
use std::alloc::Global;

/// Whether a head may stand where its block is the innermost one.
fn stands_here(wanted: Wanted, head: &Head) -> bool
    ensures { result ≡ definition.stands_here wanted (head_tree head.now) }
{
    !is_elif_or_else(head) && is_wanted(wanted, head)
}

/// The kind of the block that is so many blocks about the last of these.
fn kind_about(outer: &[OpenBlock], count: usize) -> BlockKind
    ensures { result ≡ definition.kind_in (reverse (map open_block_of outer.now)) count }
{
    let mut left = outer;
    let mut more = count;
    while let Some((last, rest)) = left.split_last() {
        if more == 0 {
            return last.kind;
        }
        more -= 1;
        left = rest;
    }
    BlockKind::Top
}

/// The kind of the block that is so many blocks about the innermost one.
fn kind_behind(innermost: &OpenBlock, outer: &[OpenBlock], count: usize) -> BlockKind
    ensures { result ≡ definition.kind_in (open_block_of innermost.now ∷ reverse (map open_block_of outer.now)) count }
{
    if count == 0 {
        innermost.kind
    } else {
        kind_about(outer, count - 1)
    }
}

/// The kind of block in which a line stands that closes so many.
fn kind_at(context: &Context, opens: bool, closes: usize) -> BlockKind
    ensures { result ≡ definition.kind_at (awaited_of context.now.awaited) (open_block_of context.now.block) (reverse (map open_block_of context.now.outer.items)) opens closes }
{
    match context.awaited {
        Awaited::Block => {
            if opens {
                kind_behind(&context.block, &context.outer, closes)
            } else {
                kind_about(&context.outer, closes)
            }
        }
        Awaited::Nothing | Awaited::FunctionDef(_) | Awaited::ConsumeDef { .. } => {
            kind_behind(&context.block, &context.outer, closes)
        }
    }
}

/// A head whose block is the innermost one.
fn judge_here(
    alloc: Global,
    context: &mut Context,
    wanted: Wanted,
    number: u32,
    rest: &[LineSpan],
    head: Head,
) -> Result<Result<(), Refusal>, NoMemory>
    ensures { (source : Source) → IfOk result (λ step. stepped step (context_of context.new) ≡ definition.judged_here wanted number (lines_of source.0 source.1 rest.now) (context_of context.old) (head_tree head)) }
{
    if stands_here(wanted, &head) {
        let is_tasklet = opens_tasklet(&head, rest);
        judge(alloc, context, number, is_tasklet, head)
    } else {
        drop(head);
        Ok(refused(4, number))
    }
}

/// A line by what its words say, whose block is the innermost one.
fn read_by_words(
    alloc: Global,
    context: &mut Context,
    wanted: Wanted,
    number: u32,
    rest: &[LineSpan],
    read: Reading<Head>,
) -> Result<Result<(), Refusal>, NoMemory>
    ensures { (source : Source) → IfOk result (λ step. stepped step (context_of context.new) ≡ definition.by_tokens wanted number (lines_of source.0 source.1 rest.now) (context_of context.old) (reading_map head_tree read)) }
{
    match read {
        Reading::NoForm => Ok(refused(4, number)),
        Reading::TooDeep => Ok(refused(8, number)),
        Reading::Form(head) => judge_here(alloc, context, wanted, number, rest, head),
    }
}

/// The last block that a line closes is the innermost one.
fn read_behind_last_block(
    alloc: Global,
    context: &mut Context,
    wanted: Wanted,
    number: u32,
    rest: &[LineSpan],
    read: Reading<Head>,
) -> Result<Result<(), Refusal>, NoMemory>
    ensures { (source : Source) → IfOk result (λ step. stepped step (context_of context.new) ≡ definition.behind_last_block wanted number (lines_of source.0 source.1 rest.now) (reading_map head_tree read) (context_of context.old)) }
{
    if goes_on(&read, &context.block.opener) {
        return match read {
            Reading::Form(head) => go_on(alloc, context, number, head),
            _ => Ok(Ok(())),
        };
    }
    match close_block(alloc, context) {
        Ok(Ok(())) => read_by_words(alloc, context, wanted, number, rest, read),
        Ok(Err(refusal)) => {
            drop(read);
            Ok(Err(refusal))
        }
        Err(error) => {
            drop(read);
            Err(error)
        }
    }
}

/// A line that closes so many blocks.
#[tactic(auto, using(crate::proofs::source_lemmas::LineLemmas::some_blocks))]
fn read_behind_blocks(
    alloc: Global,
    context: &mut Context,
    wanted: Wanted,
    number: u32,
    rest: &[LineSpan],
    read: Reading<Head>,
    closes: usize,
) -> Result<Result<(), Refusal>, NoMemory>
    ensures { (source : Source) → IfOk result (λ step. stepped step (context_of context.new) ≡ definition.behind_blocks wanted number (lines_of source.0 source.1 rest.now) (reading_map head_tree read) closes (context_of context.old)) }
{
    if closes == 0 {
        return read_by_words(alloc, context, wanted, number, rest, read);
    }
    match close_blocks(alloc, context, closes - 1) {
        Ok(Ok(())) => read_behind_last_block(alloc, context, wanted, number, rest, read),
        Ok(Err(refusal)) => {
            drop(read);
            Ok(Err(refusal))
        }
        Err(error) => {
            drop(read);
            Err(error)
        }
    }
}

/// A line, with the lines behind it.
pub fn read_line(
    alloc: Global,
    context: &mut Context,
    text: &[u8],
    words: &[Piece],
    line: LineSpan,
    rest: &[LineSpan],
) -> Result<Result<(), Refusal>, NoMemory>
    requires { AreInside text.now words.now }
    ensures { IfOk result (λ step. stepped step (context_of context.new) ≡ definition.line_read (context_of context.old) (line_of text.now words.now line) (lines_of text.now words.now rest.now)) }
{
    let kind = kind_at(context, line.opens, line.closes);
    let read = head_in(alloc, text, words, line, kind)?;
    if !comes_right(&context.awaited, line.opens, line.closes) {
        let why = wrong_number(&read);
        drop(read);
        return Ok(refused(why, line.number));
    }
    let wanted = wanted_of(&context.awaited);
    read_behind_blocks(alloc, context, wanted, line.number, rest, read, line.closes)
}
