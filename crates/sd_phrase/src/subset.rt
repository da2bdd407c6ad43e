//! Dimensions of a subset and ranges of a map.
ghost use Rattle.std.specs.Prelude.{◌≡◌, IfOk, option_map};
ghost use Rattle.sd_lex.specs.TreeFold.{expression_of, dimension_of, dimensions_of};
ghost use Rattle.sd_phrase.specs.declared.word.Mark.TheVariants.{Comma, Colon};
ghost use Rattle.sd_phrase.specs.Parts.{few_of, IsEach};
ghost use Rattle.sd_phrase.specs.Readings.{reading_map};
ghost use Rattle.sd_phrase.specs.Spans.{AreInside};
ghost use Rattle.sd_phrase.specs.Phrase.{step_of};
ghost use Rattle.sd_phrase.specs.SubsetReading as definition;

use crate::expression::{LEVELS, read_expression};
use crate::parts::{Few, bracketed_whole, few_parts, mark_of};
use crate::phrase::step_of;
use crate::reading::Reading;
use crate::word::{Bracket, Mark, Piece};
use sd_lex::{Expr, Slot};
use sd_list::NoMemory;
use std::alloc::Global;

/// An affine expression.
fn read_affine(alloc: Global, text: &[u8], tokens: &[Piece]) -> Result<Reading<Expr>, NoMemory>
    requires { AreInside text.now tokens.now }
    ensures { IfOk result (λ r. reading_map expression_of r ≡ definition.affine text.now tokens.now) }
{
    read_expression(alloc, text, true, LEVELS, tokens)
}

/// An affine expression, or nothing.
fn read_optional(
    alloc: Global,
    text: &[u8],
    tokens: &[Piece],
) -> Result<Reading<Option<Expr>>, NoMemory>
    requires { AreInside text.now tokens.now }
    ensures { IfOk result (λ r. reading_map (option_map expression_of) r ≡ definition.optional text.now tokens.now) }
{
    if tokens.is_empty() {
        return Ok(Reading::Form(None));
    }
    match read_affine(alloc, text, tokens)? {
        Reading::NoForm => Ok(Reading::NoForm),
        Reading::TooDeep => Ok(Reading::TooDeep),
        Reading::Form(expression) => Ok(Reading::Form(Some(expression))),
    }
}

/// A range with its parts, where they are read.
fn span_of(
    begin: Reading<Option<Expr>>,
    end: Reading<Option<Expr>>,
    step: Option<i64>,
) -> Reading<Slot>
    ensures { reading_map dimension_of result ≡ definition.spanned (reading_map (option_map expression_of) begin) (reading_map (option_map expression_of) end) step }
{
    match begin {
        Reading::NoForm => Reading::NoForm,
        Reading::TooDeep => match end {
            Reading::NoForm => Reading::NoForm,
            _ => Reading::TooDeep,
        },
        Reading::Form(begin) => match end {
            Reading::NoForm => Reading::NoForm,
            Reading::TooDeep => Reading::TooDeep,
            Reading::Form(end) => Reading::Form(Slot::Span { begin, end, step }),
        },
    }
}

fn wanted(expression: Reading<Expr>) -> Reading<Option<Expr>>
    ensures { reading_map (option_map expression_of) result ≡ definition.wanted (reading_map expression_of expression) }
{
    match expression {
        Reading::NoForm => Reading::NoForm,
        Reading::TooDeep => Reading::TooDeep,
        Reading::Form(expression) => Reading::Form(Some(expression)),
    }
}

/// A range with both ends.
fn read_range(
    alloc: Global,
    text: &[u8],
    begin: &[Piece],
    end: &[Piece],
    step: Option<i64>,
) -> Result<Reading<Slot>, NoMemory>
    requires begin { AreInside text.now begin.now }
    requires end { AreInside text.now end.now }
    ensures { IfOk result (λ r. reading_map dimension_of r ≡ definition.range text.now begin.now end.now step) }
{
    let begin = wanted(read_affine(alloc, text, begin)?);
    let end = wanted(read_affine(alloc, text, end)?);
    Ok(span_of(begin, end, step))
}

/// A range with a step.
fn read_stepped(
    alloc: Global,
    text: &[u8],
    begin: &[Piece],
    end: &[Piece],
    step: &[Piece],
) -> Result<Reading<Slot>, NoMemory>
    requires begin { AreInside text.now begin.now }
    requires end { AreInside text.now end.now }
    ensures { IfOk result (λ r. reading_map dimension_of r ≡ definition.stepped text.now begin.now end.now (step_of step.now)) }
{
    match step_of(step) {
        None => Ok(Reading::NoForm),
        Some(step) => read_range(alloc, text, begin, end, Some(step)),
    }
}

/// A dimension of a subset, from its parts.
fn read_dimension(alloc: Global, text: &[u8], parts: Few<'_>) -> Result<Reading<Slot>, NoMemory>
    requires { IsEach (AreInside text.now) parts }
    ensures { IfOk result (λ r. reading_map dimension_of r ≡ definition.dimension_by text.now (few_of parts.entry)) }
{
    match parts {
        Few::One(at) => match read_affine(alloc, text, at)? {
            Reading::NoForm => Ok(Reading::NoForm),
            Reading::TooDeep => Ok(Reading::TooDeep),
            Reading::Form(at) => Ok(Reading::Form(Slot::Index(at))),
        },
        Few::Two(begin, end) => {
            let begin = read_optional(alloc, text, begin)?;
            let end = read_optional(alloc, text, end)?;
            Ok(span_of(begin, end, None))
        }
        Few::Three(begin, end, step) => read_stepped(alloc, text, begin, end, step),
        Few::More => Ok(Reading::NoForm),
    }
}

/// A range of a map, from its parts.
fn read_map_range(alloc: Global, text: &[u8], parts: Few<'_>) -> Result<Reading<Slot>, NoMemory>
    requires { IsEach (AreInside text.now) parts }
    ensures { IfOk result (λ r. reading_map dimension_of r ≡ definition.range_by text.now (few_of parts.entry)) }
{
    match parts {
        Few::Two(begin, end) => read_range(alloc, text, begin, end, None),
        Few::Three(begin, end, step) => read_stepped(alloc, text, begin, end, step),
        _ => Ok(Reading::NoForm),
    }
}

/// A dimension of a subset where `in_subset`, and else a range of a map.
fn read_slot(
    alloc: Global,
    text: &[u8],
    in_subset: bool,
    tokens: &[Piece],
) -> Result<Reading<Slot>, NoMemory>
    requires { AreInside text.now tokens.now }
    ensures { IfOk result (λ r. reading_map dimension_of r ≡ definition.slot text.now in_subset tokens.now) }
{
    let parts = few_parts(Mark::Colon, tokens);
    if in_subset {
        read_dimension(alloc, text, parts)
    } else {
        read_map_range(alloc, text, parts)
    }
}

/// Dimensions of a subset where `in_subset`, and else ranges of a map, between commas.
pub fn read_slots(
    alloc: Global,
    text: &[u8],
    in_subset: bool,
    tokens: &[Piece],
) -> Result<Reading<Vec<Slot>>, NoMemory>
    requires { AreInside text.now tokens.now }
    ensures { IfOk result (λ r. reading_map (λ list. dimensions_of list.items) r ≡ definition.slots text.now in_subset tokens.now) }
{
    let mut list: Vec<Slot> = Vec::new(alloc);
    let mut deep = false;
    let mut left = tokens;
    while let Some(place) = mark_of(Mark::Comma, left) {
        match read_slot(alloc, text, in_subset, &left[..place])? {
            Reading::NoForm => return Ok(Reading::NoForm),
            Reading::TooDeep => deep = true,
            Reading::Form(item) => list.push(item)?,
        }
        left = &left[place + 1..];
    }
    match read_slot(alloc, text, in_subset, left)? {
        Reading::NoForm => return Ok(Reading::NoForm),
        Reading::TooDeep => deep = true,
        Reading::Form(item) => list.push(item)?,
    }
    if deep {
        return Ok(Reading::TooDeep);
    }
    Ok(Reading::Form(list))
}

/// A subset in square brackets with nothing behind it, or none.
#[inline(never)]
pub fn read_subset(
    alloc: Global,
    text: &[u8],
    tokens: &[Piece],
) -> Result<Reading<Vec<Slot>>, NoMemory>
    requires { AreInside text.now tokens.now }
    ensures { IfOk result (λ r. reading_map (λ list. dimensions_of list.items) r ≡ definition.subset text.now tokens.now) }
{
    if tokens.is_empty() {
        return Ok(Reading::Form(Vec::new(alloc)));
    }
    match bracketed_whole(Bracket::Square, tokens) {
        None => Ok(Reading::NoForm),
        Some(inside) => read_slots(alloc, text, true, inside),
    }
}
