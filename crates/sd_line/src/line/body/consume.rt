//! `@dace.consume(S, n)`, and `def g(x, p):` behind it.
ghost use Rattle.std.specs.Prelude.{◌≡◌, IfOk, IfSome, option_map};
ghost use Rattle.sd_phrase.specs.declared.word.Mark.TheVariants.{Comma};
ghost use Rattle.sd_line.specs.line.Consume as definition;
ghost use Rattle.sd_line.specs.line.HeadFold.{head_tree};
ghost use Rattle.sd_phrase.specs.Parts.{parts_of, few, few_of, IsEach};
ghost use Rattle.sd_phrase.specs.Readings.{reading_map};
ghost use Rattle.sd_phrase.specs.Spans.{AreInside, IsInside};
ghost use Rattle.sd_phrase.specs.Words.{spelling};

use crate::line::head::Head;
use sd_list::NoMemory;
use sd_phrase::{
    Bracket, Few, Mark, Piece, Reading, after, closed_whole, few_parts, header, lone_name,
    lone_number, name_first, name_of, next,
};
use std::alloc::Global;

fn read_decorator_parts(
    alloc: Global,
    text: &[u8],
    parts: Few<'_>,
) -> Result<Reading<Head>, NoMemory>
    requires { IsEach (AreInside text.now) parts }
    ensures { IfOk result (λ r. reading_map head_tree r ≡ definition.decorator_by text.now (few_of parts.entry)) }
{
    match parts {
        Few::Two(stream, size) => match lone_name(text, stream) {
            None => Ok(Reading::NoForm),
            Some(stream) => match lone_number(size) {
                None => Ok(Reading::NoForm),
                Some(size) => {
                    let stream = name_of(alloc, text, stream)?;
                    Ok(Reading::Form(Head::ConsumeDecorator { stream, size }))
                }
            },
        },
        _ => Ok(Reading::NoForm),
    }
}

fn read_decorator_inside(
    alloc: Global,
    text: &[u8],
    inside: &[Piece],
) -> Result<Reading<Head>, NoMemory>
    requires { AreInside text.now inside.now }
    ensures { IfOk result (λ r. reading_map head_tree r ≡ definition.decorator_by text.now (few (parts_of Comma inside.now))) }
{
    let parts = few_parts(Mark::Comma, inside);
    read_decorator_parts(alloc, text, parts)
}

/// `@dace.consume(S, n)`
pub(crate) fn read_decorator(
    alloc: Global,
    text: &[u8],
    tokens: &[Piece],
) -> Result<Reading<Head>, NoMemory>
    requires { AreInside text.now tokens.now }
    ensures { IfOk result (λ r. reading_map head_tree r ≡ definition.decorator_line text.now tokens.now) }
{
    match after(text, tokens, &["@", "dace", ".", "consume", "("]) {
        None => Ok(Reading::NoForm),
        Some(rest) => match closed_whole(Bracket::Round, rest) {
            None => Ok(Reading::NoForm),
            Some(inside) => read_decorator_inside(alloc, text, inside),
        },
    }
}

fn consume_of(
    alloc: Global,
    text: &[u8],
    name: Piece,
    element: Piece,
    worker: Option<Piece>,
) -> Result<Reading<Head>, NoMemory>
    requires name { IsInside text.now name }
    requires element { IsInside text.now element }
    requires worker { IfSome worker (IsInside text.now) }
    ensures { IfOk result (λ r. reading_map head_tree r ≡ definition.consumed (spelling text.now name) (spelling text.now element) (option_map (spelling text.now) worker)) }
{
    let name = name_of(alloc, text, name)?;
    let element = name_of(alloc, text, element)?;
    match worker {
        None => Ok(Reading::Form(Head::Consume {
            name,
            element,
            worker: None,
        })),
        Some(worker) => {
            let worker = name_of(alloc, text, worker)?;
            Ok(Reading::Form(Head::Consume {
                name,
                element,
                worker: Some(worker),
            }))
        }
    }
}

fn read_consume_parts(
    alloc: Global,
    text: &[u8],
    name: Piece,
    parts: Few<'_>,
) -> Result<Reading<Head>, NoMemory>
    requires name { IsInside text.now name }
    requires parts { IsEach (AreInside text.now) parts }
    ensures { IfOk result (λ r. reading_map head_tree r ≡ definition.consume_by text.now (spelling text.now name) (few_of parts.entry)) }
{
    match parts {
        Few::One(element) => match lone_name(text, element) {
            None => Ok(Reading::NoForm),
            Some(element) => consume_of(alloc, text, name, element, None),
        },
        Few::Two(element, worker) => match lone_name(text, element) {
            None => Ok(Reading::NoForm),
            Some(element) => match lone_name(text, worker) {
                None => Ok(Reading::NoForm),
                Some(worker) => consume_of(alloc, text, name, element, Some(worker)),
            },
        },
        _ => Ok(Reading::NoForm),
    }
}

/// `def g(x, p):`, behind its word.
pub(crate) fn read_consume(
    alloc: Global,
    text: &[u8],
    tokens: &[Piece],
) -> Result<Reading<Head>, NoMemory>
    requires { AreInside text.now tokens.now }
    ensures { IfOk result (λ r. reading_map head_tree r ≡ definition.consume_line text.now tokens.now) }
{
    let Some((name, rest)) = name_first(text, tokens) else {
        return Ok(Reading::NoForm);
    };
    match next(text, rest, b"(") {
        None => Ok(Reading::NoForm),
        Some(rest) => match header(text, Bracket::Round, rest) {
            None => Ok(Reading::NoForm),
            Some(inside) => {
                let parts = few_parts(Mark::Comma, inside);
                read_consume_parts(alloc, text, name, parts)
            }
        },
    }
}
