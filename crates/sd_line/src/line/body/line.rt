//! A line of a body, whatever it is.
ghost use Rattle.std.specs.Prelude.{◌≡◌, IfOk};
ghost use Rattle.sd_line.specs.line.BodyLine as definition;
ghost use Rattle.sd_line.specs.line.HeadFold.{head_tree};
ghost use Rattle.sd_phrase.specs.Readings.{reading_map};
ghost use Rattle.sd_phrase.specs.Spans.{AreInside, IsInside};

use crate::line::body::call::read_call_line;
use crate::line::body::condition::{read_elif, read_if, read_while};
use crate::line::body::consume::{read_consume, read_decorator};
use crate::line::body::declaration::read_declaration;
use crate::line::body::element::read_element_line;
use crate::line::body::reduction::read_reduce;
use crate::line::body::repetition::read_for;
use crate::line::head::{BlockKind, Head};
use sd_lex::Statement;
use sd_list::NoMemory;
use sd_phrase::{
    Bracket, Piece, Reading, after, bracketed, bracketed_whole, closed_whole, is_name, is_phrase,
    is_spelled, next,
};
use std::alloc::Global;

/// A line by its first word.
fn read_word_line(
    alloc: Global,
    text: &[u8],
    line: u32,
    first: Piece,
    rest: &[Piece],
) -> Result<Reading<Head>, NoMemory>
    requires first { IsInside text.now first }
    requires rest { AreInside text.now rest.now }
    ensures { IfOk result (λ r. reading_map head_tree r ≡ definition.word_line text.now line first rest.now) }
{
    if is_spelled(text, first, b"for") {
        read_for(alloc, text, line, rest)
    } else if is_spelled(text, first, b"while") {
        read_while(alloc, text, line, rest)
    } else if is_spelled(text, first, b"if") {
        read_if(alloc, text, line, rest)
    } else if is_spelled(text, first, b"elif") {
        read_elif(alloc, text, true, rest)
    } else if is_spelled(text, first, b"def") {
        read_consume(alloc, text, rest)
    } else {
        Ok(Reading::NoForm)
    }
}

/// A line that is no declaration, element or call.
fn read_keyword_line(
    alloc: Global,
    text: &[u8],
    line: u32,
    tokens: &[Piece],
) -> Result<Reading<Head>, NoMemory>
    requires { AreInside text.now tokens.now }
    ensures { IfOk result (λ r. reading_map head_tree r ≡ definition.body_keyword_line text.now line tokens.now) }
{
    if let Some(rest) = after(text, tokens, &["dace", ".", "reduce", "("]) {
        return match closed_whole(Bracket::Round, rest) {
            Some(inside) => read_reduce(alloc, text, inside),
            None => Ok(Reading::NoForm),
        };
    }
    if is_phrase(text, tokens, &["with", "dace", ".", "tasklet", ":"]) {
        return Ok(Reading::Form(Head::Statement(Statement::Tasklet {
            line,
            body: Vec::new(alloc),
        })));
    }
    if is_phrase(text, tokens, &["else", ":"]) {
        return Ok(Reading::Form(Head::Else));
    }
    match tokens {
        [] => Ok(Reading::NoForm),
        [first, rest @ ..] => read_word_line(alloc, text, line, *first, rest),
    }
}

/// A line that begins with a name.
fn read_named_line(
    alloc: Global,
    text: &[u8],
    kind: BlockKind,
    line: u32,
    first: Piece,
    rest: &[Piece],
    tokens: &[Piece],
) -> Result<Reading<Head>, NoMemory>
    requires first { IsInside text.now first }
    requires rest { AreInside text.now rest.now }
    requires tokens { AreInside text.now tokens.now }
    ensures { IfOk result (λ r. reading_map head_tree r ≡ definition.body_named_line text.now kind line first rest.now tokens.now) }
{
    if let Some(tokens) = next(text, rest, b"=") {
        return read_declaration(alloc, text, line, first, tokens);
    }
    if let Some((inside, behind)) = bracketed(Bracket::Square, rest) {
        return read_element_line(alloc, text, kind, line, first, inside, behind);
    }
    match bracketed_whole(Bracket::Round, rest) {
        Some(inside) => read_call_line(alloc, text, line, first, inside),
        None => read_keyword_line(alloc, text, line, tokens),
    }
}

/// A line of a body.
pub(crate) fn read_body_line(
    alloc: Global,
    text: &[u8],
    kind: BlockKind,
    line: u32,
    tokens: &[Piece],
) -> Result<Reading<Head>, NoMemory>
    requires { AreInside text.now tokens.now }
    ensures { IfOk result (λ r. reading_map head_tree r ≡ definition.body_line text.now kind line tokens.now) }
{
    match tokens {
        [] => Ok(Reading::NoForm),
        [first, rest @ ..] => {
            if is_name(first.word) {
                read_named_line(alloc, text, kind, line, *first, rest, tokens)
            } else {
                read_decorator(alloc, text, tokens)
            }
        }
    }
}
