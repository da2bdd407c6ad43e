//! `X = dace.define_local(..)` and `S = dace.define_stream(..)`.
ghost use Rattle.std.specs.Prelude.{◌≡◌, IfOk, map};
ghost use Rattle.sd_lex.specs.PlainTree.{local_array};
ghost use Rattle.sd_lex.specs.TreeFold.{expression_of, expressions_listed};
ghost use Rattle.sd_phrase.specs.declared.word.Mark.TheVariants.{Comma};
ghost use Rattle.sd_line.specs.line.Declaration as definition;
ghost use Rattle.sd_line.specs.line.Head.{statement_head};
ghost use Rattle.sd_line.specs.line.HeadFold.{head_tree};
ghost use Rattle.sd_phrase.specs.Parts.{parts_of, few, few_of, IsEach};
ghost use Rattle.sd_phrase.specs.Readings.{reading_map};
ghost use Rattle.sd_phrase.specs.Spans.{AreInside, IsInside};
ghost use Rattle.sd_phrase.specs.Words.{spelling};

use crate::line::head::Head;
use sd_lex::{Expr, Statement};
use sd_list::NoMemory;
use sd_phrase::{
    Bracket, Few, LEVELS, Mark, Piece, Reading, after, bracketed, closed_whole, few_parts,
    is_phrase, lone_number, name_of, next, read_list,
};
use std::alloc::Global;

/// Whether the tokens are the type of 64 bits, also behind `dtype=`.
fn is_type(text: &[u8], tokens: &[Piece]) -> bool
    requires { AreInside text.now tokens.now }
    ensures { result ≡ definition.is_type text.now tokens.now }
{
    is_phrase(text, tokens, &["dace", ".", "int64"])
        || is_phrase(text, tokens, &["dtype", "=", "dace", ".", "int64"])
}

fn local_of(
    alloc: Global,
    text: &[u8],
    line: u32,
    name: Piece,
    extents: Reading<Vec<Expr>>,
) -> Result<Reading<Head>, NoMemory>
    requires { IsInside text.now name }
    ensures { IfOk result (λ r. reading_map head_tree r ≡ reading_map (λ list. statement_head (local_array line (spelling text.now name) (expressions_listed list) 64)) (reading_map (λ list. map expression_of list.items) extents)) }
{
    match extents {
        Reading::NoForm => Ok(Reading::NoForm),
        Reading::TooDeep => Ok(Reading::TooDeep),
        Reading::Form(extents) => {
            let name = name_of(alloc, text, name)?;
            Ok(Reading::Form(Head::Statement(Statement::Local {
                line,
                name,
                extents,
                bits: 64,
            })))
        }
    }
}

/// What is in the round brackets of `dace.define_local(..)`.
fn read_local(
    alloc: Global,
    text: &[u8],
    line: u32,
    name: Piece,
    inside: &[Piece],
) -> Result<Reading<Head>, NoMemory>
    requires name { IsInside text.now name }
    requires inside { AreInside text.now inside.now }
    ensures { IfOk result (λ r. reading_map head_tree r ≡ definition.local_line text.now line (spelling text.now name) inside.now) }
{
    let Some((extents, behind)) = bracketed(Bracket::Square, inside) else {
        return Ok(Reading::NoForm);
    };
    match next(text, behind, b",") {
        Some(rest) if is_type(text, rest) => {
            let extents = read_list(alloc, text, true, LEVELS, extents)?;
            local_of(alloc, text, line, name, extents)
        }
        _ => Ok(Reading::NoForm),
    }
}

fn stream_of(
    alloc: Global,
    text: &[u8],
    line: u32,
    name: Piece,
    size: Option<i64>,
) -> Result<Reading<Head>, NoMemory>
    requires { IsInside text.now name }
    ensures { IfOk result (λ r. reading_map head_tree r ≡ definition.streamed line (spelling text.now name) size) }
{
    let name = name_of(alloc, text, name)?;
    Ok(Reading::Form(Head::Statement(Statement::Stream {
        line,
        name,
        bits: 64,
        size,
    })))
}

/// A stream, from the parts in its round brackets.
fn read_stream_parts(
    alloc: Global,
    text: &[u8],
    line: u32,
    name: Piece,
    parts: Few<'_>,
) -> Result<Reading<Head>, NoMemory>
    requires name { IsInside text.now name }
    requires parts { IsEach (AreInside text.now) parts }
    ensures { IfOk result (λ r. reading_map head_tree r ≡ definition.stream_line text.now line (spelling text.now name) (few_of parts.entry)) }
{
    match parts {
        Few::One(kind) => {
            if is_type(text, kind) {
                stream_of(alloc, text, line, name, None)
            } else {
                Ok(Reading::NoForm)
            }
        }
        Few::Two(kind, size) => {
            if is_type(text, kind) {
                match lone_number(size) {
                    Some(size) => stream_of(alloc, text, line, name, Some(size)),
                    None => Ok(Reading::NoForm),
                }
            } else {
                Ok(Reading::NoForm)
            }
        }
        _ => Ok(Reading::NoForm),
    }
}

/// What is in the round brackets of `dace.define_stream(..)`.
fn read_stream(
    alloc: Global,
    text: &[u8],
    line: u32,
    name: Piece,
    inside: &[Piece],
) -> Result<Reading<Head>, NoMemory>
    requires name { IsInside text.now name }
    requires inside { AreInside text.now inside.now }
    ensures { IfOk result (λ r. reading_map head_tree r ≡ definition.stream_line text.now line (spelling text.now name) (few (parts_of Comma inside.now))) }
{
    let parts = few_parts(Mark::Comma, inside);
    read_stream_parts(alloc, text, line, name, parts)
}

/// A declaration, behind `X =`.
pub(crate) fn read_declaration(
    alloc: Global,
    text: &[u8],
    line: u32,
    name: Piece,
    tokens: &[Piece],
) -> Result<Reading<Head>, NoMemory>
    requires name { IsInside text.now name }
    requires tokens { AreInside text.now tokens.now }
    ensures { IfOk result (λ r. reading_map head_tree r ≡ definition.declaration_line text.now line (spelling text.now name) tokens.now) }
{
    if let Some(rest) = after(text, tokens, &["dace", ".", "define_local", "("]) {
        return match closed_whole(Bracket::Round, rest) {
            Some(inside) => read_local(alloc, text, line, name, inside),
            None => Ok(Reading::NoForm),
        };
    }
    match after(text, tokens, &["dace", ".", "define_stream", "("]) {
        Some(rest) => match closed_whole(Bracket::Round, rest) {
            Some(inside) => read_stream(alloc, text, line, name, inside),
            None => Ok(Reading::NoForm),
        },
        None => Ok(Reading::NoForm),
    }
}
