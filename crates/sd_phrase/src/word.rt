//! What a token is to the reading of a line.
ghost use Rattle.std.specs.Prelude.{◌≡◌, map, slice_range, IfOk};
ghost use Rattle.std.specs.Str.{bytes_eq};
ghost use Rattle.std.specs.List.{All};
ghost use Rattle.sd_lex.specs.TokenText as token_text;
ghost use Rattle.sd_phrase.specs.Spans.{IsInside, AreInside};
ghost use Rattle.sd_phrase.specs.Words as words;
ghost use Rattle.sd_phrase.specs.Words.{told, names, marks, signs};

use sd_lex::{OneSign, Token, TokenKind, TwoSign};
use sd_list::NoMemory;
use std::alloc::Global;

/// A kind of brackets.
#[derive(Clone, Copy, Debug, PartialEq, Eq)]
pub enum Bracket {
    Round,
    Square,
}

/// A mark between the parts of a line; no expression has one outside brackets.
#[derive(Clone, Copy, Debug, PartialEq, Eq)]
pub enum Mark {
    Comma,
    Colon,
    Assign,
    AddAssign,
}

/// What a token is to the reading of a line.
#[derive(Clone, Copy, Debug, PartialEq, Eq)]
pub enum Word {
    Number(i64),
    Name,
    /// `min` and `max`, which are names where no bracket follows.
    Callee(TwoSign),
    /// A sign that stands between two expressions.
    Between(TwoSign),
    /// A sign that stands before one.
    Before(OneSign),
    /// `-`, which does either.
    Minus,
    If,
    Else,
    Stop(Mark),
    Open(Bracket),
    Close(Bracket),
    Quoted,
    Other,
}

/// A sign outside brackets.
#[derive(Clone, Copy, Debug, PartialEq, Eq)]
pub(crate) enum Sign {
    Stop,
    If,
    Else,
    One(OneSign),
    Two(TwoSign),
}

/// What a token is to the reading of a line, and its place in the text.
#[derive(Clone, Copy, Debug, PartialEq, Eq)]
pub struct Piece {
    pub word: Word,
    pub from: u32,
    pub to: u32,
}

/// A sign with its place in a list.
#[derive(Clone, Copy, Debug, PartialEq, Eq)]
pub(crate) struct Place {
    pub at: usize,
    pub sign: Sign,
}

/// Whether the two have the same bytes.
#[inline(never)]
pub(crate) fn same(spelling: &[u8], word: &[u8]) -> bool
    ensures { result ≡ bytes_eq spelling.now word.now }
{
    spelling == word
}

/// The word that a name is.
fn name_word(spelling: &[u8]) -> Word
    ensures { result ≡ told names Word.Name spelling.now }
{
    if same(spelling, b"min") {
        Word::Callee(TwoSign::Min)
    } else if same(spelling, b"max") {
        Word::Callee(TwoSign::Max)
    } else if same(spelling, b"or") {
        Word::Between(TwoSign::Or)
    } else if same(spelling, b"and") {
        Word::Between(TwoSign::And)
    } else if same(spelling, b"not") {
        Word::Before(OneSign::Not)
    } else if same(spelling, b"if") {
        Word::If
    } else if same(spelling, b"else") {
        Word::Else
    } else {
        Word::Name
    }
}

/// The word that a mark or a bracket is.
fn mark_word(spelling: &[u8]) -> Word
    ensures { result ≡ told marks Word.Other spelling.now }
{
    if same(spelling, b",") {
        Word::Stop(Mark::Comma)
    } else if same(spelling, b":") {
        Word::Stop(Mark::Colon)
    } else if same(spelling, b"=") {
        Word::Stop(Mark::Assign)
    } else if same(spelling, b"+=") {
        Word::Stop(Mark::AddAssign)
    } else if same(spelling, b"(") {
        Word::Open(Bracket::Round)
    } else if same(spelling, b")") {
        Word::Close(Bracket::Round)
    } else if same(spelling, b"[") {
        Word::Open(Bracket::Square)
    } else if same(spelling, b"]") {
        Word::Close(Bracket::Square)
    } else {
        Word::Other
    }
}

/// The word that a sign is.
fn sign_word(spelling: &[u8]) -> Word
    ensures { result ≡ told signs Word.Other spelling.now }
{
    if same(spelling, b"<") {
        Word::Between(TwoSign::Less)
    } else if same(spelling, b"<=") {
        Word::Between(TwoSign::LessEqual)
    } else if same(spelling, b">") {
        Word::Between(TwoSign::Greater)
    } else if same(spelling, b">=") {
        Word::Between(TwoSign::GreaterEqual)
    } else if same(spelling, b"==") {
        Word::Between(TwoSign::Equal)
    } else if same(spelling, b"!=") {
        Word::Between(TwoSign::Differ)
    } else if same(spelling, b"|") {
        Word::Between(TwoSign::BitOr)
    } else if same(spelling, b"^") {
        Word::Between(TwoSign::BitXor)
    } else if same(spelling, b"&") {
        Word::Between(TwoSign::BitAnd)
    } else if same(spelling, b"+") {
        Word::Between(TwoSign::Add)
    } else if same(spelling, b"-") {
        Word::Minus
    } else if same(spelling, b"*") {
        Word::Between(TwoSign::Mul)
    } else if same(spelling, b"//") {
        Word::Between(TwoSign::FloorDiv)
    } else if same(spelling, b"%") {
        Word::Between(TwoSign::Mod)
    } else if same(spelling, b"~") {
        Word::Before(OneSign::Inv)
    } else {
        mark_word(spelling)
    }
}

/// The word that a token is.
fn word_of(text: &[u8], token: Token) -> Word
    requires { token_text.IsInside text.now token }
    ensures { result ≡ words.word_by token.kind (slice_range text.now token.from token.to) }
{
    let spelling = token.bytes(text);
    match token.kind {
        TokenKind::Number(value) => Word::Number(value),
        TokenKind::Name => name_word(spelling),
        TokenKind::Sign => sign_word(spelling),
        TokenKind::Text => Word::Quoted,
        _ => Word::Other,
    }
}

/// The word that a token is, with its span.
fn piece_of(text: &[u8], token: Token) -> Piece
    requires { token_text.IsInside text.now token }
    ensures piece { result ≡ words.piece_of text.now token }
    ensures inside { IsInside text.now result }
{
    Piece {
        word: word_of(text, token),
        from: token.from,
        to: token.to,
    }
}

/// The words of tokens, in one pass.
pub fn pieces_of(alloc: Global, text: &[u8], tokens: &[Token]) -> Result<Vec<Piece>, NoMemory>
    requires { All (token_text.IsInside text.now) tokens.now }
    ensures pieces { IfOk result (λ pieces. pieces.items ≡ map (words.piece_of text.now) tokens.now) }
    ensures inside { IfOk result (λ pieces. AreInside text.now pieces.items) }
{
    let mut pieces = Vec::new(alloc);
    for token in tokens {
        let piece = piece_of(text, *token);
        pieces.push(piece)?;
    }
    Ok(pieces)
}

/// Whether a token is a name.
pub fn is_name(word: Word) -> bool
    ensures { result ≡ words.is_name word }
{
    match word {
        Word::Name | Word::Callee(_) | Word::If | Word::Else => true,
        Word::Between(TwoSign::Or) | Word::Between(TwoSign::And) => true,
        Word::Before(OneSign::Not) => true,
        _ => false,
    }
}

/// Whether a token has these bytes.
pub fn is_spelled(text: &[u8], piece: Piece, word: &[u8]) -> bool
    requires { IsInside text.now piece }
    ensures { result ≡ words.is_spelled text.now piece word.now }
{
    same(&text[piece.from as usize..piece.to as usize], word)
}
