//! The reading of an expression.
ghost use Rattle.std.specs.Prelude.{◌≡◌, [], map, IfOk, string_bytes};
ghost use Rattle.sd_lex.specs.PlainTree.{element_at, one, two};
ghost use Rattle.sd_lex.specs.TreeFold.{expression_of, expressions_listed};
ghost use Rattle.sd_phrase.specs.declared.word.Word.TheVariants.{Callee};
ghost use Rattle.sd_phrase.specs.ExpressionReading as definition;
ghost use Rattle.sd_phrase.specs.ExpressionReading.{reads, subscripts, own_subscripts};
ghost use Rattle.sd_phrase.specs.Readings.{reading_map, both};
ghost use Rattle.sd_phrase.specs.Signs.{cut_of};
ghost use Rattle.sd_phrase.specs.Spans.{AreInside, IsInside};
ghost use Rattle.sd_phrase.specs.Words.{spelling};

use crate::cut::{cut_of, rank_of, rank_of_one, rank_of_two};
use crate::parts::{Few, bracketed_whole, closed_whole, few_parts, mark_of};
use crate::reading::Reading;
use crate::word::{Bracket, Mark, Piece, Sign, Word};
use sd_lex::{Expr, OneSign, TwoSign};
use sd_list::NoMemory;
use std::alloc::Global;

/// The bytes of a name.
#[inline(never)]
pub fn name_of(alloc: Global, text: &[u8], token: Piece) -> Result<String, NoMemory>
    requires { IsInside text.now token }
    ensures { IfOk result (λ name. string_bytes name ≡ spelling text.now token) }
{
    let bytes = text[token.from as usize..token.to as usize].to_vec(alloc)?;
    Ok(String::from_utf8(bytes).unwrap())
}

fn boxed(alloc: Global, tree: Expr) -> Result<Box<Expr>, NoMemory>
    ensures { IfOk result (λ kept. kept.value ≡ tree) }
{
    match Box::new(alloc, tree) {
        Ok(kept) => Ok(kept),
        Err(_) => Err(NoMemory),
    }
}

fn one_of(alloc: Global, sign: OneSign, of: Reading<Expr>) -> Result<Reading<Expr>, NoMemory>
    ensures { IfOk result (λ r. reading_map expression_of r ≡ reading_map (one sign) (reading_map expression_of of)) }
{
    match of {
        Reading::NoForm => Ok(Reading::NoForm),
        Reading::TooDeep => Ok(Reading::TooDeep),
        Reading::Form(of) => Ok(Reading::Form(Expr::One {
            sign,
            of: boxed(alloc, of)?,
        })),
    }
}

fn two_of(
    alloc: Global,
    sign: TwoSign,
    left: Reading<Expr>,
    right: Reading<Expr>,
) -> Result<Reading<Expr>, NoMemory>
    ensures { IfOk result (λ r. reading_map expression_of r ≡ both (two sign) (reading_map expression_of left) (reading_map expression_of right)) }
{
    match left {
        Reading::NoForm => Ok(Reading::NoForm),
        Reading::TooDeep => match right {
            Reading::NoForm => Ok(Reading::NoForm),
            Reading::TooDeep => Ok(Reading::TooDeep),
            Reading::Form(_) => Ok(Reading::TooDeep),
        },
        Reading::Form(left) => match right {
            Reading::NoForm => Ok(Reading::NoForm),
            Reading::TooDeep => Ok(Reading::TooDeep),
            Reading::Form(right) => {
                let left = boxed(alloc, left)?;
                let right = boxed(alloc, right)?;
                Ok(Reading::Form(Expr::Two { sign, left, right }))
            }
        },
    }
}

fn choice_of(
    alloc: Global,
    value: Reading<Expr>,
    when: Reading<Expr>,
    other: Reading<Expr>,
) -> Result<Reading<Expr>, NoMemory>
    ensures { IfOk result (λ r. reading_map expression_of r ≡ definition.all_three (reading_map expression_of value) (reading_map expression_of when) (reading_map expression_of other)) }
{
    match value {
        Reading::NoForm => Ok(Reading::NoForm),
        Reading::TooDeep => match when {
            Reading::NoForm => Ok(Reading::NoForm),
            _ => match other {
                Reading::NoForm => Ok(Reading::NoForm),
                _ => Ok(Reading::TooDeep),
            },
        },
        Reading::Form(value) => match when {
            Reading::NoForm => Ok(Reading::NoForm),
            Reading::TooDeep => match other {
                Reading::NoForm => Ok(Reading::NoForm),
                _ => Ok(Reading::TooDeep),
            },
            Reading::Form(when) => match other {
                Reading::NoForm => Ok(Reading::NoForm),
                Reading::TooDeep => Ok(Reading::TooDeep),
                Reading::Form(other) => {
                    let value = boxed(alloc, value)?;
                    let when = boxed(alloc, when)?;
                    let other = boxed(alloc, other)?;
                    Ok(Reading::Form(Expr::Choice { value, when, other }))
                }
            },
        },
    }
}

fn element_of(
    alloc: Global,
    text: &[u8],
    name: Piece,
    at: Reading<Vec<Expr>>,
) -> Result<Reading<Expr>, NoMemory>
    requires { IsInside text.now name }
    ensures { IfOk result (λ r. reading_map expression_of r ≡ reading_map (λ list. element_at (spelling text.now name) (expressions_listed list)) (reading_map (λ list. map expression_of list.items) at)) }
{
    match at {
        Reading::NoForm => Ok(Reading::NoForm),
        Reading::TooDeep => Ok(Reading::TooDeep),
        Reading::Form(at) => {
            let name = name_of(alloc, text, name)?;
            Ok(Reading::Form(Expr::Element { name, at }))
        }
    }
}

fn rank_on_left(rank: u8) -> u8
    ensures { result ≡ definition.rank_on_left rank }
{
    if rank == 5 { 6 } else { rank }
}

/// How deeply an expression may be nested.
pub const LEVELS: u32 = 64;

/// The tokens as an expression with at most so many operators, brackets, calls, conditionals and
/// subscripts round any part. In a body each subscript is an expression of its own with `LEVELS`
/// levels; elsewhere it goes on one level further in.
pub fn read_expression(
    alloc: Global,
    text: &[u8],
    in_body: bool,
    levels: u32,
    tokens: &[Piece],
) -> Result<Reading<Expr>, NoMemory>
    requires { AreInside text.now tokens.now }
    ensures { IfOk result (λ r. reading_map expression_of r ≡ definition.expression text.now in_body levels tokens.now) }
{
    read_at(alloc, text, in_body, levels, 1, tokens)
}

/// The tokens as an expression with no sign outside brackets that is looser than the rank.
#[cycle(reads)]
#[tactic(auto, using(crate::proofs::ReaderLemmas::reads_none, crate::proofs::ReaderLemmas::reads_more, crate::proofs::ReaderLemmas::reads_cut))]
fn read_at(
    alloc: Global,
    text: &[u8],
    in_body: bool,
    levels: u32,
    rank: u8,
    tokens: &[Piece],
) -> Result<Reading<Expr>, NoMemory>
    requires { AreInside text.now tokens.now }
    ensures { IfOk result (λ r. reading_map expression_of r ≡ reads text.now in_body levels rank tokens.now) }
{
    if levels == 0 {
        return read_last(alloc, text, in_body, tokens);
    }
    let less = levels - 1;
    match cut_of(tokens) {
        None => read_atom(alloc, text, in_body, less, tokens),
        Some(place) => {
            if rank_of(place.sign) < rank {
                Ok(Reading::NoForm)
            } else {
                read_sign(
                    alloc,
                    text,
                    in_body,
                    less,
                    place.sign,
                    &tokens[..place.at],
                    &tokens[place.at + 1..],
                )
            }
        }
    }
}

/// Where no level is left.
#[cycle(reads)]
#[tactic(auto, using(crate::proofs::ReaderLemmas::subscripts_own, crate::proofs::ReaderLemmas::subscripts_code))]
fn read_last(
    alloc: Global,
    text: &[u8],
    in_body: bool,
    tokens: &[Piece],
) -> Result<Reading<Expr>, NoMemory>
    requires { AreInside text.now tokens.now }
    ensures { IfOk result (λ r. reading_map expression_of r ≡ definition.last_level text.now (own_subscripts text.now in_body) tokens.now) }
{
    match tokens {
        [] => Ok(Reading::NoForm),
        [first] => match first.word {
            Word::Number(value) => Ok(Reading::Form(Expr::Number(value))),
            Word::Name | Word::Callee(_) => {
                Ok(Reading::Form(Expr::Name(name_of(alloc, text, *first)?)))
            }
            _ => Ok(Reading::NoForm),
        },
        [first, rest @ ..] => {
            if !in_body {
                return Ok(Reading::TooDeep);
            }
            match first.word {
                Word::Name | Word::Callee(_) => match bracketed_whole(Bracket::Square, rest) {
                    Some(_) => read_element(alloc, text, true, 0, *first, rest),
                    None => Ok(Reading::TooDeep),
                },
                _ => Ok(Reading::TooDeep),
            }
        }
    }
}

#[cycle(reads)]
#[tactic(auto)]
fn read_sign(
    alloc: Global,
    text: &[u8],
    in_body: bool,
    levels: u32,
    sign: Sign,
    front: &[Piece],
    back: &[Piece],
) -> Result<Reading<Expr>, NoMemory>
    requires front { AreInside text.now front.now }
    requires back { AreInside text.now back.now }
    ensures { IfOk result (λ r. reading_map expression_of r ≡ definition.at_sign (reads text.now in_body levels) sign front.now back.now) }
{
    match sign {
        Sign::Two(two) => {
            let rank = rank_of_two(two);
            let left = read_at(alloc, text, in_body, levels, rank_on_left(rank), front)?;
            let right = read_at(alloc, text, in_body, levels, rank + 1, back)?;
            two_of(alloc, two, left, right)
        }
        Sign::One(one) => {
            if front.is_empty() {
                let of = read_at(alloc, text, in_body, levels, rank_of_one(one), back)?;
                one_of(alloc, one, of)
            } else {
                Ok(Reading::NoForm)
            }
        }
        Sign::If => read_choice(alloc, text, in_body, levels, front, back),
        Sign::Else => Ok(Reading::NoForm),
        Sign::Stop => Ok(Reading::NoForm),
    }
}

#[cycle(reads)]
#[tactic(auto)]
fn read_choice(
    alloc: Global,
    text: &[u8],
    in_body: bool,
    levels: u32,
    front: &[Piece],
    back: &[Piece],
) -> Result<Reading<Expr>, NoMemory>
    requires front { AreInside text.now front.now }
    requires back { AreInside text.now back.now }
    ensures { IfOk result (λ r. reading_map expression_of r ≡ definition.at_else (reads text.now in_body levels) front.now back.now (cut_of back.now)) }
{
    match cut_of(back) {
        None => Ok(Reading::NoForm),
        Some(place) => match place.sign {
            Sign::Else => {
                let value = read_at(alloc, text, in_body, levels, 2, front)?;
                let when = read_at(alloc, text, in_body, levels, 2, &back[..place.at])?;
                let other = read_at(alloc, text, in_body, levels, 1, &back[place.at + 1..])?;
                choice_of(alloc, value, when, other)
            }
            _ => Ok(Reading::NoForm),
        },
    }
}

/// Tokens without a sign outside brackets.
#[cycle(reads)]
#[tactic(auto)]
fn read_atom(
    alloc: Global,
    text: &[u8],
    in_body: bool,
    levels: u32,
    tokens: &[Piece],
) -> Result<Reading<Expr>, NoMemory>
    requires { AreInside text.now tokens.now }
    ensures { IfOk result (λ r. reading_map expression_of r ≡ definition.atom text.now (reads text.now in_body levels 1) (subscripts text.now in_body levels) tokens.now) }
{
    match tokens {
        [] => Ok(Reading::NoForm),
        [first, rest @ ..] => match first.word {
            Word::Number(value) => {
                if rest.is_empty() {
                    Ok(Reading::Form(Expr::Number(value)))
                } else {
                    Ok(Reading::NoForm)
                }
            }
            Word::Name => {
                if rest.is_empty() {
                    Ok(Reading::Form(Expr::Name(name_of(alloc, text, *first)?)))
                } else {
                    read_element(alloc, text, in_body, levels, *first, rest)
                }
            }
            Word::Callee(sign) => read_callee(alloc, text, in_body, levels, sign, *first, rest),
            Word::Open(Bracket::Round) => match closed_whole(Bracket::Round, rest) {
                Some(inside) => read_at(alloc, text, in_body, levels, 1, inside),
                None => Ok(Reading::NoForm),
            },
            _ => Ok(Reading::NoForm),
        },
    }
}

/// Tokens that begin with `min` or `max`: a call, and else a name or an element as of any name.
#[cycle(reads)]
#[tactic(auto)]
fn read_callee(
    alloc: Global,
    text: &[u8],
    in_body: bool,
    levels: u32,
    sign: TwoSign,
    name: Piece,
    rest: &[Piece],
) -> Result<Reading<Expr>, NoMemory>
    requires name { IsInside text.now name }
    requires rest { AreInside text.now rest.now }
    ensures { IfOk result (λ r. reading_map expression_of r ≡ definition.atom_by (reads text.now in_body levels 1) (subscripts text.now in_body levels) (Callee sign) (spelling text.now name) rest.now) }
{
    match rest {
        [] => Ok(Reading::Form(Expr::Name(name_of(alloc, text, name)?))),
        [first, more @ ..] => match first.word {
            Word::Open(Bracket::Round) => read_call(alloc, text, in_body, levels, sign, more),
            _ => read_element(alloc, text, in_body, levels, name, rest),
        },
    }
}

/// What stands behind `min(` or `max(`.
#[cycle(reads)]
#[tactic(auto)]
fn read_call(
    alloc: Global,
    text: &[u8],
    in_body: bool,
    levels: u32,
    sign: TwoSign,
    rest: &[Piece],
) -> Result<Reading<Expr>, NoMemory>
    requires { AreInside text.now rest.now }
    ensures { IfOk result (λ r. reading_map expression_of r ≡ definition.call_of sign (reads text.now in_body levels 1) rest.now) }
{
    match closed_whole(Bracket::Round, rest) {
        Some(inside) => match few_parts(Mark::Comma, inside) {
            Few::Two(first, second) => {
                let left = read_at(alloc, text, in_body, levels, 1, first)?;
                let right = read_at(alloc, text, in_body, levels, 1, second)?;
                two_of(alloc, sign, left, right)
            }
            _ => Ok(Reading::NoForm),
        },
        None => Ok(Reading::NoForm),
    }
}

/// An element, whose subscripts stand behind its name.
#[cycle(reads)]
#[tactic(auto, using(crate::proofs::ReaderLemmas::subscripts_own, crate::proofs::ReaderLemmas::subscripts_code))]
fn read_element(
    alloc: Global,
    text: &[u8],
    in_body: bool,
    levels: u32,
    name: Piece,
    rest: &[Piece],
) -> Result<Reading<Expr>, NoMemory>
    requires name { IsInside text.now name }
    requires rest { AreInside text.now rest.now }
    ensures { IfOk result (λ r. reading_map expression_of r ≡ definition.element (spelling text.now name) (subscripts text.now in_body levels) rest.now) }
{
    match bracketed_whole(Bracket::Square, rest) {
        Some(inside) => {
            if in_body {
                let at = read_list(alloc, text, false, LEVELS, inside)?;
                element_of(alloc, text, name, at)
            } else {
                let at = read_list(alloc, text, false, levels, inside)?;
                element_of(alloc, text, name, at)
            }
        }
        None => Ok(Reading::NoForm),
    }
}

/// Expressions between commas.
#[cycle(reads)]
#[tactic(auto)]
pub fn read_list(
    alloc: Global,
    text: &[u8],
    in_body: bool,
    levels: u32,
    tokens: &[Piece],
) -> Result<Reading<Vec<Expr>>, NoMemory>
    requires { AreInside text.now tokens.now }
    ensures { IfOk result (λ r. reading_map (λ list. map expression_of list.items) r ≡ definition.expressions text.now in_body levels tokens.now) }
{
    let mut list: Vec<Expr> = Vec::new(alloc);
    let mut deep = false;
    let mut left = tokens;
    while let Some(place) = mark_of(Mark::Comma, left) {
        match read_at(alloc, text, in_body, levels, 1, &left[..place])? {
            Reading::NoForm => return Ok(Reading::NoForm),
            Reading::TooDeep => deep = true,
            Reading::Form(item) => list.push(item)?,
        }
        left = &left[place + 1..];
    }
    match read_at(alloc, text, in_body, levels, 1, left)? {
        Reading::NoForm => return Ok(Reading::NoForm),
        Reading::TooDeep => deep = true,
        Reading::Form(item) => list.push(item)?,
    }
    if deep {
        return Ok(Reading::TooDeep);
    }
    Ok(Reading::Form(list))
}
