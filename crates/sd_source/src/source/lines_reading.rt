//! What the lines of a source say: a program, or the first line that is refused.
ghost use Rattle.std.specs.Prelude.{◌≡◌, ◌<◌, ◌^◌, IfOk, Ok};
ghost use Rattle.sd_lex.specs.TreeFold.{program_of};
ghost use Rattle.sd_phrase.specs.Spans.{AreInside};
ghost use Rattle.sd_context.specs.context.ContextFold.{context_of, awaited_of};
ghost use Rattle.sd_context.specs.blocks.StepFold.{stepped};
ghost use Rattle.sd_line.specs.lines.SourceLines.{lines_of};
ghost use Rattle.sd_source.specs.source.LinesReading as definition;
ghost use Rattle.sd_source.specs.source.Parsed.{parsed};
ghost use Rattle.sd_source.specs.source.Prefix.{count_before_refusal, count_of_lines};

use crate::source::line_reading::read_line;
use sd_context::{Awaited, Context, Refusal, close_blocks, refused};
use sd_lex::Program;
use sd_line::LineSpan;
use sd_list::NoMemory;
use sd_phrase::Piece;
use std::alloc::Global;

/// The lines one after another, up to the first that is refused, and how many stand before that one.
fn read_lines(
    alloc: Global,
    context: &mut Context,
    text: &[u8],
    words: &[Piece],
    lines: &[LineSpan],
) -> Result<(Result<(), Refusal>, usize), NoMemory>
    requires { AreInside text.now words.now }
    ensures step { IfOk result (λ read. stepped read.0 (context_of context.new) ≡ definition.lines_read (context_of context.old) (lines_of text.now words.now lines.now)) }
    ensures count { IfOk result (λ read. read.1 ≡ count_before_refusal (context_of context.old) (lines_of text.now words.now lines.now)) }
{
    let mut left = lines;
    let mut count: usize = 0;
    while let [line, rest @ ..] = left {
        if let Err(refusal) = read_line(alloc, context, text, words, *line, rest)? {
            return Ok((Err(refusal), count));
        }
        count += 1;
        left = rest;
    }
    Ok((Ok(()), count))
}

/// Behind the last line all blocks end, unless something is missing.
fn read_end(
    alloc: Global,
    context: &mut Context,
    last: u32,
) -> Result<Result<(), Refusal>, NoMemory>
    requires { last < 2 ^ 31 }
    ensures { IfOk result (λ step. stepped step (context_of context.new) ≡ definition.at_end last (awaited_of context.old.awaited) (context_of context.old)) }
{
    match context.awaited {
        Awaited::Nothing => {
            let count = context.outer.len();
            close_blocks(alloc, context, count)
        }
        Awaited::Block => Ok(refused(4, last + 1)),
        Awaited::FunctionDef(_) => Ok(refused(4, last + 1)),
        Awaited::ConsumeDef { .. } => Ok(refused(4, last + 1)),
    }
}

/// The symbols and the programs of a context. What else it has is let go.
pub fn program_in(context: Context) -> Program
    ensures { program_of result ≡ definition.program_in (context_of context) }
{
    let Context {
        symbols,
        functions,
        ..
    } = context;
    Program { symbols, functions }
}

/// The program that was read; a source without one is refused.
fn program(context: Context, last: u32) -> Result<Program, Refusal>
    requires { last < 2 ^ 31 }
    ensures { parsed result ≡ definition.program_by last (Ok (context_of context)) }
{
    let program = program_in(context);
    if program.functions.is_empty() {
        return Err(Refusal {
            number: 4,
            line: last + 1,
        });
    }
    Ok(program)
}

/// The program of lines, where the last physical line has this number, or the first refusal; and how many
/// lines stand before the first that is refused.
pub fn read_program(
    alloc: Global,
    last: u32,
    text: &[u8],
    words: &[Piece],
    lines: &[LineSpan],
) -> Result<(Result<Program, Refusal>, usize), NoMemory>
    requires inside { AreInside text.now words.now }
    requires last { last < 2 ^ 31 }
    ensures program { IfOk result (λ read. parsed read.0 ≡ definition.program_of_lines last (lines_of text.now words.now lines.now)) }
    ensures count { IfOk result (λ read. read.1 ≡ count_of_lines (lines_of text.now words.now lines.now)) }
{
    let mut context = Context::opening(alloc);
    let (read, count) = read_lines(alloc, &mut context, text, words, lines)?;
    if let Err(refusal) = read {
        return Ok((Err(refusal), count));
    }
    if let Err(refusal) = read_end(alloc, &mut context, last)? {
        return Ok((Err(refusal), count));
    }
    Ok((program(context, last), count))
}
