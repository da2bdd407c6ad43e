//! The logical lines of the tokens of a text.
ghost use Rattle.std.specs.Prelude.{◌≡◌, ◌≤◌, ◌<◌, ◌^◌, ◌+◌, ◌++◌, IfOk, OnOk, map, length};
ghost use Rattle.std.specs.List.{All};
ghost use Rattle.sd_lex.specs.TokenText.{IsInside};
ghost use Rattle.sd_phrase.specs.Words.{piece_of};
ghost use Rattle.sd_line.specs.lines.SourceLines.{line_of, lines_of};
ghost use Rattle.sd_line.specs.lines.TokenLines as definition;
ghost use Rattle.sd_line.specs.lines.TokenPlaces as places;

use crate::lines::lines::LineSpan;
use sd_lex::{Token, TokenKind};
use sd_list::NoMemory;
use std::alloc::Global;

/// The number of a line is that of the physical line of its first token.
fn number_of(tokens: &[Token]) -> u32
    ensures { result ≡ definition.number_of tokens.now }
{
    match tokens {
        [] => 0,
        [first, ..] => first.line,
    }
}

fn is_name_kind(kind: TokenKind) -> bool
    ensures { result ≡ definition.is_name_kind kind }
{
    match kind {
        TokenKind::Name => true,
        _ => false,
    }
}

fn is_arrow(word: &[u8]) -> bool
    ensures { result ≡ definition.is_arrow word.now }
{
    word == b"<<".as_slice() || word == b">>".as_slice()
}

/// Whether a line begins with a name and `<<` or `>>`.
fn begins_connector(text: &[u8], tokens: &[Token]) -> bool
    requires { All (IsInside text.now) tokens.now }
    ensures { result ≡ definition.begins_connector text.now tokens.now }
{
    match tokens {
        [first, second, ..] => is_name_kind(first.kind) && is_arrow(second.bytes(text)),
        _ => false,
    }
}

/// A line whose tokens are read: the marks before them, and the place of the first.
#[derive(Clone, Copy, Debug, PartialEq, Eq)]
struct Begun {
    opens: bool,
    closes: usize,
    from: usize,
}

/// The line that begins at a place.
fn begun_at(from: usize) -> Begun
    ensures { result ≡ places.begun_at from }
{
    Begun {
        opens: false,
        closes: 0,
        from,
    }
}

/// A line behind a token more, the one at a place.
fn behind(kind: TokenKind, line: Begun, at: usize) -> Begun
    requires place { at < 2 ^ 63 }
    requires order { line.from ≤ at }
    requires few { line.closes ≤ at }
    ensures behind { result ≡ places.behind kind line at }
    ensures order { result.from ≤ at + 1 }
    ensures few { result.closes ≤ at + 1 }
{
    match kind {
        TokenKind::LineEnd => begun_at(at + 1),
        TokenKind::Indent => Begun {
            opens: true,
            closes: line.closes,
            from: at + 1,
        },
        TokenKind::Dedent => Begun {
            opens: line.opens,
            closes: line.closes + 1,
            from: at + 1,
        },
        TokenKind::Name | TokenKind::Number(_) | TokenKind::Text | TokenKind::Sign => line,
    }
}

fn is_line_end(kind: TokenKind) -> bool
    ensures { result ≡ places.is_line_end kind }
{
    match kind {
        TokenKind::LineEnd => true,
        _ => false,
    }
}

/// The line of the tokens up to a place.
fn span_of(text: &[u8], tokens: &[Token], line: Begun, to: usize) -> LineSpan
    requires inside { All (IsInside text.now) tokens.now }
    requires order { line.from ≤ to }
    requires end { to ≤ length tokens.now }
    ensures { line_of text.now (map (piece_of text.now) tokens.now) result ≡ definition.line_of_tokens text.now (places.token_line tokens.now line to) }
{
    let words = &tokens[line.from..to];
    LineSpan {
        number: number_of(words),
        opens: line.opens,
        closes: line.closes,
        connects: begins_connector(text, words),
        from: line.from,
        to,
    }
}

/// Adds the line whose tokens are those up to a place, where the token there is its end.
#[tactic(auto, using(crate::proofs::lines_lemmas::TokenLemmas::is_ended, crate::proofs::lines_lemmas::TokenLemmas::not_ended))]
fn push_ended(
    text: &[u8],
    tokens: &[Token],
    lines: &mut Vec<LineSpan>,
    kind: TokenKind,
    line: Begun,
    at: usize,
) -> Result<(), NoMemory>
    requires inside { All (IsInside text.now) tokens.now }
    requires order { line.from ≤ at }
    requires end { at ≤ length tokens.now }
    ensures { OnOk result (lines_of text.now (map (piece_of text.now) tokens.now) lines.new.items ≡ lines_of text.now (map (piece_of text.now) tokens.now) lines.old.items ++ map (definition.line_of_tokens text.now) (definition.ended_by kind (places.token_line tokens.now line at))) }
{
    if is_line_end(kind) {
        lines.push(span_of(text, tokens, line, at))?;
    }
    Ok(())
}

/// The logical lines of tokens; the words of a line are those of its tokens.
pub fn line_spans(alloc: Global, text: &[u8], tokens: &[Token]) -> Result<Vec<LineSpan>, NoMemory>
    requires { All (IsInside text.now) tokens.now }
    ensures { IfOk result (λ lines. lines_of text.now (map (piece_of text.now) tokens.now) lines.items ≡ definition.lines_of_tokens text.now tokens.now) }
{
    let mut lines = Vec::new(alloc);
    let mut line = begun_at(0);
    let mut at: usize = 0;
    let mut left = tokens;
    while let [token, rest @ ..] = left {
        push_ended(text, tokens, &mut lines, token.kind, line, at)?;
        line = behind(token.kind, line, at);
        at += 1;
        left = rest;
    }
    Ok(lines)
}
