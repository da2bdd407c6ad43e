//! A source is read to its program, or refused.
ghost use Rattle.std.specs.Prelude.{◌≡◌, ◌≤◌, ◌^◌, Ok, length, IfOk};
ghost use Rattle.sd_lex.specs.TokenText.{AreTokensOf};
ghost use Rattle.sd_source.specs.source.Parsed.{parsed};
ghost use Rattle.sd_source.specs.source.SourceReading as definition;

use crate::source::lines_reading::read_program;
use crate::source::node_limit::within_nodes;
use sd_context::Refusal;
use sd_lex::{LexError, Program, Token, line_count, tokens};
use sd_line::line_spans;
use sd_list::NoMemory;
use sd_phrase::pieces_of;
use std::alloc::Global;

/// The program of tokens, or the first refusal.
fn read_tokens(
    alloc: Global,
    text: &[u8],
    tokens: &[Token],
) -> Result<Result<Program, Refusal>, NoMemory>
    requires few { length text.now ≤ 2 ^ 20 }
    requires tokens { AreTokensOf text.now tokens.now }
    ensures { IfOk result (λ program. parsed program ≡ definition.reads_tokens text.now (Ok tokens.now)) }
{
    let lines = line_spans(alloc, text, tokens)?;
    let words = pieces_of(alloc, text, tokens)?;
    let (read, count) = read_program(alloc, line_count(text), text, &words, &lines)?;
    within_nodes(alloc, text, &words, &lines, read, count)
}

/// The program of a text, or its first error.
pub fn read_text(alloc: Global, text: &[u8]) -> Result<Result<Program, Refusal>, NoMemory>
    requires { length text.now ≤ 2 ^ 20 }
    ensures { IfOk result (λ program. parsed program ≡ definition.reads text.now) }
{
    match tokens(alloc, text) {
        Ok(tokens) => read_tokens(alloc, text, &tokens),
        Err(LexError::BadByte(line)) => Ok(Err(Refusal { number: 1, line })),
        Err(LexError::BadIndent(line)) => Ok(Err(Refusal { number: 2, line })),
        Err(LexError::NumberTooWide(line)) => Ok(Err(Refusal { number: 3, line })),
        Err(LexError::Memory) => Err(NoMemory),
    }
}
