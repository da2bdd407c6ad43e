//! The parts of a list of tokens between marks outside brackets, and what stands in brackets.
ghost use Rattle.std.specs.Prelude.{◌≡◌, ◌<◌, ◌+◌, ◌^◌, ◌∷◌, if◌then◌else◌, [], ℕ, List, Some, None, take, drop, length, IfSome, MatchOption};
ghost use Rattle.sd_phrase.specs.Spans.{AreInside};
ghost use Rattle.sd_phrase.specs.Parts as parts;
ghost use Rattle.sd_phrase.specs.Parts.{parts_of, at_mark, few, few_of, IsEach};

use crate::cut::depth_after;
use crate::word::{Bracket, Mark, Piece, Word};

/// Whether a word is a mark.
fn is_mark(mark: Mark, word: Word) -> bool
    ensures { result ≡ parts.is_mark mark word }
{
    match (mark, word) {
        (Mark::Comma, Word::Stop(Mark::Comma)) => true,
        (Mark::Colon, Word::Stop(Mark::Colon)) => true,
        (Mark::Assign, Word::Stop(Mark::Assign)) => true,
        (Mark::AddAssign, Word::Stop(Mark::AddAssign)) => true,
        _ => false,
    }
}

fn is_mark_outside(mark: Mark, depth: usize, word: Word) -> bool
    ensures { result ≡ parts.is_mark_outside mark depth word }
{
    if depth == 0 {
        is_mark(mark, word)
    } else {
        false
    }
}

/// The place of the first mark outside brackets, which ends the first part.
#[inline(never)]
pub fn mark_of(mark: Mark, tokens: &[Piece]) -> Option<usize>
    ensures place { result ≡ parts.mark_of mark tokens.now }
    ensures parts { MatchOption result (parts_of mark tokens.now ≡ tokens.now ∷ []) (λ at. parts_of mark tokens.now ≡ take at tokens.now ∷ parts_of mark (drop (at + 1) tokens.now)) }
    ensures inside { IfSome result (λ at. at < length tokens.now) }
{
    let mut depth = 0;
    for at in 0..tokens.len() {
        let word = tokens[at].word;
        if is_mark_outside(mark, depth, word) {
            return Some(at);
        }
        depth = depth_after(word, depth);
    }
    None
}

/// What is before the first mark outside brackets, and what is behind it.
pub fn at_mark(mark: Mark, tokens: &[Piece]) -> Option<(&[Piece], &[Piece])>
    ensures parts { MatchOption result (at_mark mark tokens.now ≡ None) (λ cut. at_mark mark tokens.now ≡ Some (cut.0.now, cut.1.now)) }
    ensures inside { (text : List ℕ) → AreInside text tokens.now → IfSome result (λ cut. AreInside text cut.0.now × AreInside text cut.1.now) }
{
    match mark_of(mark, tokens) {
        None => None,
        Some(at) => Some((&tokens[..at], &tokens[at + 1..])),
    }
}

/// Parts between marks, where there are at most three.
#[derive(Clone, Copy)]
pub enum Few<'a> {
    One(&'a [Piece]),
    Two(&'a [Piece], &'a [Piece]),
    Three(&'a [Piece], &'a [Piece], &'a [Piece]),
    More,
}

/// The parts between marks outside brackets, where there are at most three.
pub fn few_parts(mark: Mark, tokens: &[Piece]) -> Few<'_>
    ensures parts { few_of result ≡ few (parts_of mark tokens.now) }
    ensures inside { (text : List ℕ) → AreInside text tokens.now → IsEach (AreInside text) result }
{
    let Some(first) = mark_of(mark, tokens) else {
        return Few::One(tokens);
    };
    let rest = &tokens[first + 1..];
    let Some(second) = mark_of(mark, rest) else {
        return Few::Two(&tokens[..first], rest);
    };
    let last = &rest[second + 1..];
    match mark_of(mark, last) {
        None => Few::Three(&tokens[..first], &rest[..second], last),
        Some(_) => Few::More,
    }
}

/// The place at which an open bracket is closed.
fn closing(tokens: &[Piece]) -> Option<usize>
    ensures place { result ≡ parts.closing_from 1 0 tokens.now }
    ensures inside { IfSome result (λ at. at < length tokens.now) }
{
    let mut depth = 1;
    for at in 0..tokens.len() {
        depth = depth_after(tokens[at].word, depth);
        if depth == 0 {
            return Some(at);
        }
    }
    None
}

fn opens(bracket: Bracket, word: Word) -> bool
    ensures { result ≡ parts.opens bracket word }
{
    match (bracket, word) {
        (Bracket::Round, Word::Open(Bracket::Round)) => true,
        (Bracket::Square, Word::Open(Bracket::Square)) => true,
        _ => false,
    }
}

fn closes(bracket: Bracket, word: Word) -> bool
    ensures { result ≡ parts.closes bracket word }
{
    match (bracket, word) {
        (Bracket::Round, Word::Close(Bracket::Round)) => true,
        (Bracket::Square, Word::Close(Bracket::Square)) => true,
        _ => false,
    }
}

/// Behind an opening bracket: what is in the brackets, and what is behind them.
pub fn closed(bracket: Bracket, tokens: &[Piece]) -> Option<(&[Piece], &[Piece])>
    ensures parts { MatchOption result (parts.closed bracket tokens.now ≡ None) (λ cut. parts.closed bracket tokens.now ≡ Some (cut.0.now, cut.1.now)) }
    ensures inside { (text : List ℕ) → AreInside text tokens.now → IfSome result (λ cut. AreInside text cut.0.now × AreInside text cut.1.now) }
{
    match closing(tokens) {
        None => None,
        Some(at) => {
            if closes(bracket, tokens[at].word) {
                Some((&tokens[..at], &tokens[at + 1..]))
            } else {
                None
            }
        }
    }
}

/// What is in the brackets that the tokens begin with, and what is behind them.
#[inline(never)]
pub fn bracketed(bracket: Bracket, tokens: &[Piece]) -> Option<(&[Piece], &[Piece])>
    ensures parts { MatchOption result (parts.bracketed bracket tokens.now ≡ None) (λ cut. parts.bracketed bracket tokens.now ≡ Some (cut.0.now, cut.1.now)) }
    ensures inside { (text : List ℕ) → AreInside text tokens.now → IfSome result (λ cut. AreInside text cut.0.now × AreInside text cut.1.now) }
{
    match tokens {
        [] => None,
        [first, rest @ ..] => {
            if opens(bracket, first.word) {
                closed(bracket, rest)
            } else {
                None
            }
        }
    }
}

/// What stands behind an opening bracket up to the one that closes it, which is the last token.
pub fn closed_whole(bracket: Bracket, tokens: &[Piece]) -> Option<&[Piece]>
    ensures parts { MatchOption result (parts.whole (parts.closed bracket tokens.now) ≡ None) (λ inside. parts.whole (parts.closed bracket tokens.now) ≡ Some inside.now) }
    ensures inside { (text : List ℕ) → AreInside text tokens.now → IfSome result (λ inside. AreInside text inside.now) }
{
    match closed(bracket, tokens) {
        Some((inside, behind)) if behind.is_empty() => Some(inside),
        _ => None,
    }
}

/// What stands in the brackets that all the tokens stand in.
#[inline(never)]
pub fn bracketed_whole(bracket: Bracket, tokens: &[Piece]) -> Option<&[Piece]>
    ensures parts { MatchOption result (parts.whole (parts.bracketed bracket tokens.now) ≡ None) (λ inside. parts.whole (parts.bracketed bracket tokens.now) ≡ Some inside.now) }
    ensures inside { (text : List ℕ) → AreInside text tokens.now → IfSome result (λ inside. AreInside text inside.now) }
{
    match bracketed(bracket, tokens) {
        Some((inside, behind)) if behind.is_empty() => Some(inside),
        _ => None,
    }
}

/// Whether each bracket is closed and none is closed that was not opened, their kinds aside.
pub fn is_balanced(tokens: &[Piece]) -> bool
    ensures { result ≡ parts.is_balanced tokens.now }
{
    let mut depth = 0;
    for at in 0..tokens.len() {
        let next = depth_after(tokens[at].word, depth + 1);
        if next == 0 {
            return false;
        }
        depth = next - 1;
    }
    depth == 0
}

fn counted(here: bool, count: usize) -> usize
    requires { count + 1 < 2 ^ 64 }
    ensures { result ≡ (if here then count + 1 else count) }
{
    if here { count + 1 } else { count }
}

/// How many parts there are.
pub fn part_count(mark: Mark, tokens: &[Piece]) -> usize
    ensures { result ≡ length (parts_of mark tokens.now) }
{
    let mut depth = 0;
    let mut count = 1;
    for at in 0..tokens.len() {
        let word = tokens[at].word;
        count = counted(is_mark_outside(mark, depth, word), count);
        depth = depth_after(word, depth);
    }
    count
}
