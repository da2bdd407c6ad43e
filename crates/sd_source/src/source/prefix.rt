//! The lines of a source before the first that is refused, and their program.
ghost use Rattle.std.specs.Prelude.{◌≡◌, IfOk, OnOk};
ghost use Rattle.sd_lex.specs.TreeFold.{program_of};
ghost use Rattle.sd_phrase.specs.Spans.{AreInside};
ghost use Rattle.sd_context.specs.context.ContextFold.{context_of};
ghost use Rattle.sd_line.specs.lines.SourceLines.{lines_of};
ghost use Rattle.sd_source.specs.source.Prefix as definition;

use crate::source::line_reading::read_line;
use crate::source::lines_reading::program_in;
use sd_context::{Context, close_block_into};
use sd_lex::Program;
use sd_line::LineSpan;
use sd_list::NoMemory;
use sd_phrase::Piece;
use std::alloc::Global;

/// Reads so many lines, those before the first that is refused.
#[tactic(auto, using(crate::proofs::source_lemmas::PrefixLemmas::none_read))]
fn read_before_refusal(
    alloc: Global,
    context: &mut Context,
    text: &[u8],
    words: &[Piece],
    lines: &[LineSpan],
    count: usize,
) -> Result<(), NoMemory>
    requires inside { AreInside text.now words.now }
    requires count { count ≡ definition.count_before_refusal (context_of context.old) (lines_of text.now words.now lines.now) }
    ensures { OnOk result (context_of context.new ≡ definition.context_before_refusal (context_of context.old) (lines_of text.now words.now lines.now)) }
{
    let mut left = lines;
    let mut more = count;
    while let [line, rest @ ..] = left {
        if more == 0 {
            return Ok(());
        }
        if read_line(alloc, context, text, words, *line, rest)?.is_err() {
            return Err(NoMemory);
        }
        more -= 1;
        left = rest;
    }
    Ok(())
}

/// Ends all open blocks without counting their states.
#[tactic(auto, using(crate::proofs::source_lemmas::PrefixLemmas::ended_next))]
fn end(alloc: Global, context: &mut Context) -> Result<(), NoMemory>
    ensures { OnOk result (context_of context.new ≡ definition.ended (context_of context.old)) }
{
    while let Some(about) = context.outer.pop() {
        close_block_into(alloc, context, about)?;
    }
    Ok(())
}

/// Reads the lines before the first that is refused, of which there are so many, and ends the blocks that are open there.
fn read_and_end(
    alloc: Global,
    context: &mut Context,
    text: &[u8],
    words: &[Piece],
    lines: &[LineSpan],
    count: usize,
) -> Result<(), NoMemory>
    requires inside { AreInside text.now words.now }
    requires count { count ≡ definition.count_before_refusal (context_of context.old) (lines_of text.now words.now lines.now) }
    ensures { OnOk result (context_of context.new ≡ definition.ended (definition.context_before_refusal (context_of context.old) (lines_of text.now words.now lines.now))) }
{
    read_before_refusal(alloc, context, text, words, lines, count)?;
    end(alloc, context)
}

/// The program of the lines before the first that is refused, of which there are so many.
pub fn program_before_refusal(
    alloc: Global,
    text: &[u8],
    words: &[Piece],
    lines: &[LineSpan],
    count: usize,
) -> Result<Program, NoMemory>
    requires inside { AreInside text.now words.now }
    requires count { count ≡ definition.count_of_lines (lines_of text.now words.now lines.now) }
    ensures { IfOk result (λ program. program_of program ≡ definition.program_before_refusal (lines_of text.now words.now lines.now)) }
{
    let mut context = Context::opening(alloc);
    match read_and_end(alloc, &mut context, text, words, lines, count) {
        Ok(()) => Ok(program_in(context)),
        Err(error) => {
            drop(context);
            Err(error)
        }
    }
}
