//! Tokens by their look: names and signs with given bytes, names, numbers.
ghost use Rattle.std.specs.Prelude.{◌≡◌, [], ◌∷◌, Some, None, map, IfSome, MatchOption};
ghost use Rattle.sd_phrase.specs.Parts as parts;
ghost use Rattle.sd_phrase.specs.Phrase as phrases;
ghost use Rattle.sd_phrase.specs.Spans.{AreInside, IsInside};
ghost use Rattle.sd_phrase.specs.Words.{spelling};

use crate::parts::closed;
use crate::word::{Bracket, Piece, Word, is_name, is_spelled};

/// The tokens behind one with these bytes.
#[inline(never)]
pub fn next<'a>(text: &[u8], tokens: &'a [Piece], word: &[u8]) -> Option<&'a [Piece]>
    requires { AreInside text.now tokens.now }
    ensures rest { MatchOption result (phrases.next text.now word.now tokens.now ≡ None) (λ rest. phrases.next text.now word.now tokens.now ≡ Some rest.now) }
    ensures inside { IfSome result (λ rest. AreInside text.now rest.now) }
{
    match tokens {
        [first, rest @ ..] if is_spelled(text, *first, word) => Some(rest),
        _ => None,
    }
}

/// The tokens behind those of a phrase.
pub fn after<'a>(text: &[u8], tokens: &'a [Piece], phrase: &[&str]) -> Option<&'a [Piece]>
    requires { AreInside text.now tokens.now }
    ensures rest { MatchOption result (phrases.after text.now (map (λ word. word.now) phrase.now) tokens.now ≡ None) (λ rest. phrases.after text.now (map (λ word. word.now) phrase.now) tokens.now ≡ Some rest.now) }
    ensures inside { IfSome result (λ rest. AreInside text.now rest.now) }
{
    let mut left = tokens;
    for word in phrase {
        left = next(text, left, word.as_bytes())?;
    }
    Some(left)
}

/// Whether the tokens are those of a phrase.
pub fn is_phrase(text: &[u8], tokens: &[Piece], phrase: &[&str]) -> bool
    requires { AreInside text.now tokens.now }
    ensures { result ≡ phrases.is_phrase text.now (map (λ word. word.now) phrase.now) tokens.now }
{
    match after(text, tokens, phrase) {
        Some(rest) => rest.is_empty(),
        None => false,
    }
}

/// The first token where it is a name, and those behind it.
#[inline(never)]
pub fn name_first<'a>(text: &[u8], tokens: &'a [Piece]) -> Option<(Piece, &'a [Piece])>
    requires { AreInside text.now tokens.now }
    ensures rest { MatchOption result (phrases.name_first text.now tokens.now ≡ None) (λ found. phrases.name_first text.now tokens.now ≡ Some (spelling text.now found.0, found.1.now)) }
    ensures token { IfSome result (λ found. tokens.now ≡ found.0 ∷ found.1.now) }
    ensures inside { IfSome result (λ found. IsInside text.now found.0 × AreInside text.now found.1.now) }
{
    match tokens {
        [first, rest @ ..] if is_name(first.word) => Some((*first, rest)),
        _ => None,
    }
}

/// The only token where it is a name.
pub fn lone_name(text: &[u8], tokens: &[Piece]) -> Option<Piece>
    requires { AreInside text.now tokens.now }
    ensures name { MatchOption result (phrases.lone_name text.now tokens.now ≡ None) (λ name. phrases.lone_name text.now tokens.now ≡ Some (spelling text.now name)) }
    ensures token { IfSome result (λ name. tokens.now ≡ name ∷ []) }
    ensures inside { IfSome result (IsInside text.now) }
{
    match tokens {
        [only] if is_name(only.word) => Some(*only),
        _ => None,
    }
}

/// The first token where it is a number, and those behind it.
pub fn number_first<'a>(text: &[u8], tokens: &'a [Piece]) -> Option<(i64, &'a [Piece])>
    requires { AreInside text.now tokens.now }
    ensures rest { MatchOption result (phrases.number_first tokens.now ≡ None) (λ found. phrases.number_first tokens.now ≡ Some (found.0, found.1.now)) }
    ensures inside { IfSome result (λ found. AreInside text.now found.1.now) }
{
    match tokens {
        [] => None,
        [first, rest @ ..] => match first.word {
            Word::Number(value) => Some((value, rest)),
            _ => None,
        },
    }
}

/// The tokens behind `-` and `1`.
pub(crate) fn minus_one<'a>(text: &[u8], tokens: &'a [Piece]) -> Option<&'a [Piece]>
    requires { AreInside text.now tokens.now }
    ensures rest { MatchOption result (phrases.minus_one text.now tokens.now ≡ None) (λ rest. phrases.minus_one text.now tokens.now ≡ Some rest.now) }
    ensures inside { IfSome result (λ rest. AreInside text.now rest.now) }
{
    let rest = next(text, tokens, b"-")?;
    match number_first(text, rest) {
        Some((value, rest)) if value == 1 => Some(rest),
        _ => None,
    }
}

/// The number that the only token is.
pub fn lone_number(tokens: &[Piece]) -> Option<i64>
    ensures { result ≡ phrases.lone_number tokens.now }
{
    match tokens {
        [only] => match only.word {
            Word::Number(value) => Some(value),
            _ => None,
        },
        _ => None,
    }
}

/// The number that the only token is, from 1 on, as a step has to be.
pub fn step_of(tokens: &[Piece]) -> Option<i64>
    ensures { result ≡ phrases.step_of tokens.now }
{
    match lone_number(tokens) {
        Some(value) if value >= 1 => Some(value),
        _ => None,
    }
}

/// What stands behind an opening bracket, where a colon is behind the one that closes it.
pub fn header<'a>(text: &[u8], bracket: Bracket, tokens: &'a [Piece]) -> Option<&'a [Piece]>
    requires { AreInside text.now tokens.now }
    ensures inside { MatchOption result (phrases.header text.now (parts.closed bracket tokens.now) ≡ None) (λ inside. phrases.header text.now (parts.closed bracket tokens.now) ≡ Some inside.now) }
    ensures spans { IfSome result (λ inside. AreInside text.now inside.now) }
{
    match closed(bracket, tokens) {
        Some((inside, behind)) if is_phrase(text, behind, &[":"]) => Some(inside),
        _ => None,
    }
}
