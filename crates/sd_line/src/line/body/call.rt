//! `f(X, Y[d])`.
ghost use Rattle.std.specs.Prelude.{◌≡◌, IfOk, map};
ghost use Rattle.sd_lex.specs.PlainTree.{call};
ghost use Rattle.sd_lex.specs.TreeFold.{dimensions_of, call_argument_of};
ghost use Rattle.sd_phrase.specs.declared.word.Mark.TheVariants.{Comma};
ghost use Rattle.sd_line.specs.line.CallLine as definition;
ghost use Rattle.sd_line.specs.line.Head.{statement_head};
ghost use Rattle.sd_line.specs.line.HeadFold.{head_tree};
ghost use Rattle.sd_phrase.specs.Parts.{parts_of};
ghost use Rattle.sd_phrase.specs.Readings.{reading_map, listed};
ghost use Rattle.sd_phrase.specs.Spans.{AreInside, IsInside};
ghost use Rattle.sd_phrase.specs.Words.{spelling};

use crate::line::head::Head;
use sd_lex::{Slot, Statement};
use sd_list::NoMemory;
use sd_phrase::{Mark, Piece, Reading, mark_of, name_first, name_of, read_subset};
use std::alloc::Global;

fn argument_of(
    alloc: Global,
    text: &[u8],
    name: Piece,
    dims: Reading<Vec<Slot>>,
) -> Result<Reading<(String, Vec<Slot>)>, NoMemory>
    requires { IsInside text.now name }
    ensures { IfOk result (λ r. reading_map call_argument_of r ≡ reading_map (λ dimensions. (spelling text.now name, dimensions)) (reading_map (λ list. dimensions_of list.items) dims)) }
{
    match dims {
        Reading::NoForm => Ok(Reading::NoForm),
        Reading::TooDeep => Ok(Reading::TooDeep),
        Reading::Form(dims) => {
            let name = name_of(alloc, text, name)?;
            Ok(Reading::Form((name, dims)))
        }
    }
}

/// A container and its subset.
fn read_argument(
    alloc: Global,
    text: &[u8],
    tokens: &[Piece],
) -> Result<Reading<(String, Vec<Slot>)>, NoMemory>
    requires { AreInside text.now tokens.now }
    ensures { IfOk result (λ r. reading_map call_argument_of r ≡ definition.call_argument text.now tokens.now) }
{
    match name_first(text, tokens) {
        None => Ok(Reading::NoForm),
        Some((name, rest)) => {
            let dims = read_subset(alloc, text, rest)?;
            argument_of(alloc, text, name, dims)
        }
    }
}

/// The arguments of a call.
fn read_arguments(
    alloc: Global,
    text: &[u8],
    tokens: &[Piece],
) -> Result<Reading<Vec<(String, Vec<Slot>)>>, NoMemory>
    requires { AreInside text.now tokens.now }
    ensures { IfOk result (λ r. reading_map (λ list. map call_argument_of list.items) r ≡ listed (map (definition.call_argument text.now) (parts_of Comma tokens.now))) }
{
    let mut list: Vec<(String, Vec<Slot>)> = Vec::new(alloc);
    let mut deep = false;
    let mut left = tokens;
    while let Some(place) = mark_of(Mark::Comma, left) {
        match read_argument(alloc, text, &left[..place])? {
            Reading::NoForm => return Ok(Reading::NoForm),
            Reading::TooDeep => deep = true,
            Reading::Form(item) => list.push(item)?,
        }
        left = &left[place + 1..];
    }
    match read_argument(alloc, text, left)? {
        Reading::NoForm => return Ok(Reading::NoForm),
        Reading::TooDeep => deep = true,
        Reading::Form(item) => list.push(item)?,
    }
    if deep {
        return Ok(Reading::TooDeep);
    }
    Ok(Reading::Form(list))
}

fn call_of(
    alloc: Global,
    text: &[u8],
    line: u32,
    name: Piece,
    arguments: Reading<Vec<(String, Vec<Slot>)>>,
) -> Result<Reading<Head>, NoMemory>
    requires { IsInside text.now name }
    ensures { IfOk result (λ r. reading_map head_tree r ≡ reading_map (λ list. statement_head (call line (spelling text.now name) list)) (reading_map (λ list. map call_argument_of list.items) arguments)) }
{
    match arguments {
        Reading::NoForm => Ok(Reading::NoForm),
        Reading::TooDeep => Ok(Reading::TooDeep),
        Reading::Form(arguments) => {
            let name = name_of(alloc, text, name)?;
            Ok(Reading::Form(Head::Statement(Statement::Call {
                line,
                name,
                arguments,
            })))
        }
    }
}

/// A call: its name, and what is in its round brackets.
pub(crate) fn read_call_line(
    alloc: Global,
    text: &[u8],
    line: u32,
    name: Piece,
    inside: &[Piece],
) -> Result<Reading<Head>, NoMemory>
    requires name { IsInside text.now name }
    requires inside { AreInside text.now inside.now }
    ensures { IfOk result (λ r. reading_map head_tree r ≡ definition.call_line text.now line (spelling text.now name) inside.now) }
{
    let arguments = read_arguments(alloc, text, inside)?;
    call_of(alloc, text, line, name, arguments)
}
