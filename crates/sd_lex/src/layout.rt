ghost use Rattle.std.specs.Prelude.{◌≡◌, ◌≢◌, ◌≤◌, ◌<◌, ◌+◌, ◌^◌, ◌∷◌, [], ◌++◌, ℕ, List, None, Ok, Err, OnOk, IfErr, IfSome, IsSome, IsTrue, length, map, drop, reverse};
ghost use Rattle.std.specs.List.{All, list_any};
ghost use Rattle.sd_lex.specs.Bytes.{is_tab};
ghost use Rattle.sd_lex.specs.Line.{PhysicalLine, physical_line};
ghost use Rattle.sd_lex.specs.Line as lines;
ghost use Rattle.sd_lex.specs.Layout.{brackets_after, text_end};
ghost use Rattle.sd_lex.specs.LexerState.{next_blocks, rest_of, HasChanged, HasRead};
ghost use Rattle.sd_lex.specs.Layout as definition;

use crate::blocks::{Place, change_blocks, push_mark};
use crate::bytes::{is_blank, is_comment};
use crate::error::LexError;
use crate::line::push_line;
use crate::sign::{closes, opens};
use crate::token::{Token, TokenKind};
use std::alloc::Global;

/// The tokens of the lines so far, how many brackets are open behind them, and the widths of
/// the blocks that are open, the innermost last.
#[derive(Drop)]
pub(crate) struct Lexer {
    pub(crate) tokens: Vec<Token>,
    pub(crate) brackets: usize,
    pub(crate) widths: Vec<u32>,
}

/// How many blanks a line begins with.
fn blanks(bytes: &[u8]) -> usize
    ensures count { result ≡ lines.blanks_of bytes.now }
    ensures within { result ≤ length bytes.now }
{
    bytes.iter().take_while(|byte| is_blank(**byte)).count()
}

/// How many spaces a line begins with.
fn spaces(bytes: &[u8]) -> usize
    ensures count { result ≡ lines.spaces_of bytes.now }
    ensures within { result ≤ length bytes.now }
{
    bytes.iter().take_while(|byte| **byte == b' ').count()
}

/// Whether something else than a comment stands behind the blanks of a line.
fn has_content(bytes: &[u8]) -> bool
    ensures { result ≡ lines.has_content bytes.now }
{
    match bytes[blanks(bytes)..].first() {
        Some(byte) => !is_comment(*byte),
        None => false,
    }
}

/// Whether one of these bytes is a tab.
fn has_tab(bytes: &[u8]) -> bool
    ensures { result ≡ list_any is_tab bytes.now }
{
    bytes.contains(&b'\t')
}

/// Whether a tab stands among the blanks that a line begins with.
fn has_tab_in_indentation(bytes: &[u8]) -> bool
    ensures { result ≡ lines.has_tab_in_indentation bytes.now }
{
    has_tab(&bytes[..blanks(bytes)])
}

/// How many brackets are open after a byte.
fn bracketed(brackets: usize, byte: u8) -> usize
    requires { brackets < 2 ^ 32 }
    ensures { result ≡ definition.bracketed brackets byte }
{
    if opens(byte) {
        brackets + 1
    } else if closes(byte) {
        brackets.saturating_sub(1)
    } else {
        brackets
    }
}

/// How many brackets are open after tokens.
fn bracketed_by(text: &[u8], brackets: usize, tokens: &[Token]) -> usize
    requires within { All (λ token. token.from < length text.now) tokens.now }
    requires few { brackets + length tokens.now < 2 ^ 32 }
    ensures value { result ≡ brackets_after text.now brackets tokens.now }
    ensures few { result ≤ brackets + length tokens.now }
{
    let mut open = brackets;
    for token in tokens {
        open = bracketed(open, text[token.from as usize]);
    }
    open
}

/// Whether a logical line ends behind the tokens of a physical line.
fn ends(brackets: usize, tokens: &[Token]) -> bool
    ensures { result ≡ definition.ends brackets tokens.now }
{
    brackets == 0 && !tokens.is_empty()
}

impl Lexer {
    /// Nothing is read yet.
    pub(crate) fn new(alloc: Global) -> Lexer
        ensures tokens { result.tokens.items ≡ [] }
        ensures brackets { result.brackets ≡ 0 }
        ensures widths { result.widths.items ≡ [] }
    {
        Lexer {
            tokens: Vec::new(alloc),
            brackets: 0,
            widths: Vec::new(alloc),
        }
    }

    /// Opens and closes blocks before a line, if it begins a logical line.
    fn begin_line(&mut self, number: u32, from: u32, bytes: &[u8]) -> Result<(), LexError>
        requires { from + length bytes.now < 2 ^ 32 }
        ensures some { OnOk result (IsSome (next_blocks self.old (physical_line number from bytes.now))) }
        ensures ok { OnOk result (IfSome (next_blocks self.old (physical_line number from bytes.now)) (HasChanged (from + lines.blanks_of bytes.now) number self.old self.new)) }
        ensures brackets { OnOk result (self.new.brackets ≡ self.old.brackets) }
        ensures err { IfErr result (λ error. error ≢ LexError.Memory → (error ≡ LexError.BadIndent number) × (next_blocks self.old (physical_line number from bytes.now) ≡ None)) }
    {
        if self.brackets > 0 || !has_content(bytes) {
            return Ok(());
        }
        if has_tab_in_indentation(bytes) {
            return Err(LexError::BadIndent(number));
        }
        let place = Place {
            at: from + blanks(bytes) as u32,
            line: number,
        };
        let width = spaces(bytes) as u32;
        change_blocks(&mut self.tokens, &mut self.widths, place, width)
    }

    /// Adds the tokens of a physical line, which has these bytes of the text from a place on.
    pub(crate) fn push(
        &mut self,
        text: &[u8],
        number: u32,
        from: u32,
        bytes: &[u8],
    ) -> Result<(), LexError>
        requires within { from + length bytes.now ≤ length text.now }
        requires short { length text.now < 2 ^ 31 }
        requires few { self.old.brackets ≤ from }
        ensures ok { OnOk result (HasRead text.now (physical_line number from bytes.now) self.old self.new) }
        ensures few { OnOk result (self.new.brackets ≤ from + length bytes.now) }
        ensures err { IfErr result (λ error. error ≢ LexError.Memory → (last : ℕ) (lines : List PhysicalLine) → rest_of text.now last self.old (physical_line number from bytes.now ∷ lines) ≡ Err error) }
    {
        self.begin_line(number, from, bytes)?;
        let before = self.tokens.len();
        push_line(&mut self.tokens, number, from, bytes)?;
        let added = &self.tokens[before..];
        self.brackets = bracketed_by(text, self.brackets, added);
        if ends(self.brackets, added) {
            let end = Place {
                at: from + bytes.len() as u32,
                line: number,
            };
            push_mark(&mut self.tokens, end, TokenKind::LineEnd)?;
        }
        Ok(())
    }

    /// Ends the text: the logical line that a bracket still held open, and all blocks.
    pub(crate) fn finish(&mut self, end: Place) -> Result<(), LexError>
        ensures ok { OnOk result (self.new.tokens.items ≡ self.old.tokens.items ++ text_end end.at end.line self.old.brackets (reverse self.old.widths.items)) }
        ensures err { IfErr result (λ error. error ≡ LexError.Memory) }
    {
        if self.brackets > 0 {
            push_mark(&mut self.tokens, end, TokenKind::LineEnd)?;
        }
        for _ in 0..self.widths.len() {
            push_mark(&mut self.tokens, end, TokenKind::Dedent)?;
        }
        Ok(())
    }
}
