//! `for k in range(..):` and `for i, j in dace.map[..]:`.
ghost use Rattle.std.specs.Prelude.{◌≡◌, ◌∷◌, [], ◌++◌, map, Some, None, OnOk, IfOk, IfSome, MatchOption, string_bytes};
ghost use Rattle.sd_lex.specs.PlainTree.{map_scope, no_statement};
ghost use Rattle.sd_lex.specs.TreeFold.{expression_of, dimensions_of};
ghost use Rattle.sd_line.specs.line.Repetition as definition;
ghost use Rattle.sd_line.specs.line.Head.{statement_head};
ghost use Rattle.sd_line.specs.line.HeadFold.{head_tree};
ghost use Rattle.sd_phrase.specs.Parts as parts;
ghost use Rattle.sd_phrase.specs.Parts.{few_of, IsEach};
ghost use Rattle.sd_phrase.specs.Readings.{reading_map, both};
ghost use Rattle.sd_phrase.specs.Spans.{AreInside};

use crate::line::head::Head;
use sd_lex::{Expr, Slot, Statement};
use sd_list::NoMemory;
use sd_phrase::{
    Bracket, Few, LEVELS, Mark, Piece, Reading, after, few_parts, header, name_first, name_of,
    next, part_count, read_expression, read_slots, step_of,
};
use std::alloc::Global;

fn push(list: &mut Vec<String>, item: String) -> Result<(), NoMemory>
    ensures { OnOk result (list.new.items ≡ list.old.items ++ item ∷ []) }
{
    match list.push(item) {
        Ok(()) => Ok(()),
        Err(_) => Err(NoMemory),
    }
}

/// Names, and the tokens behind them.
#[derive(Drop)]
struct Named<'a> {
    names: Vec<String>,
    rest: &'a [Piece],
}

/// The names that commas join first.
fn read_names<'a>(
    alloc: Global,
    text: &[u8],
    tokens: &'a [Piece],
) -> Result<Option<Named<'a>>, NoMemory>
    requires { AreInside text.now tokens.now }
    ensures names { IfOk result (λ found. MatchOption found (definition.names_first text.now tokens.now ≡ None) (λ named. definition.names_first text.now tokens.now ≡ Some (map string_bytes named.names.items, named.rest.now))) }
    ensures inside { IfOk result (λ found. IfSome found (λ named. AreInside text.now named.rest.now)) }
{
    let mut names: Vec<String> = Vec::new(alloc);
    let mut left = tokens;
    while let Some((name, rest)) = name_first(text, left) {
        let name = name_of(alloc, text, name)?;
        push(&mut names, name)?;
        match next(text, rest, b",") {
            None => return Ok(Some(Named { names, rest })),
            Some(more) => left = more,
        }
    }
    Ok(None)
}

fn loop_of(
    alloc: Global,
    line: u32,
    name: String,
    begin: Reading<Expr>,
    end: Reading<Expr>,
    step: Option<i64>,
) -> Reading<Head>
    ensures { reading_map head_tree result ≡ both (definition.looped line (string_bytes name) step) (reading_map expression_of begin) (reading_map expression_of end) }
{
    match begin {
        Reading::NoForm => Reading::NoForm,
        Reading::TooDeep => match end {
            Reading::NoForm => Reading::NoForm,
            _ => Reading::TooDeep,
        },
        Reading::Form(begin) => match end {
            Reading::NoForm => Reading::NoForm,
            Reading::TooDeep => Reading::TooDeep,
            Reading::Form(end) => Reading::Form(Head::Statement(Statement::For {
                line,
                name,
                begin: Some(begin),
                end,
                step,
                body: Vec::new(alloc),
            })),
        },
    }
}

/// A loop from its begin to its end.
fn read_between(
    alloc: Global,
    text: &[u8],
    line: u32,
    name: String,
    begin: &[Piece],
    end: &[Piece],
    step: Option<i64>,
) -> Result<Reading<Head>, NoMemory>
    requires begin { AreInside text.now begin.now }
    requires end { AreInside text.now end.now }
    ensures { IfOk result (λ r. reading_map head_tree r ≡ definition.loop_between text.now line (string_bytes name) begin.now end.now step) }
{
    let begin = read_expression(alloc, text, true, LEVELS, begin)?;
    let end = read_expression(alloc, text, true, LEVELS - 1, end)?;
    Ok(loop_of(alloc, line, name, begin, end, step))
}

fn loop_to(alloc: Global, line: u32, name: String, end: Reading<Expr>) -> Reading<Head>
    ensures { reading_map head_tree result ≡ definition.looped_to line (string_bytes name) (reading_map expression_of end) }
{
    match end {
        Reading::NoForm => Reading::NoForm,
        Reading::TooDeep => Reading::TooDeep,
        Reading::Form(end) => Reading::Form(Head::Statement(Statement::For {
            line,
            name,
            begin: None,
            end,
            step: None,
            body: Vec::new(alloc),
        })),
    }
}

/// A loop, from the parts in its round brackets.
fn read_loop(
    alloc: Global,
    text: &[u8],
    line: u32,
    name: String,
    parts: Few<'_>,
) -> Result<Reading<Head>, NoMemory>
    requires { IsEach (AreInside text.now) parts }
    ensures { IfOk result (λ r. reading_map head_tree r ≡ definition.loop_line text.now line (string_bytes name) (few_of parts.entry)) }
{
    match parts {
        Few::One(end) => {
            let end = read_expression(alloc, text, true, LEVELS - 1, end)?;
            Ok(loop_to(alloc, line, name, end))
        }
        Few::Two(begin, end) => read_between(alloc, text, line, name, begin, end, None),
        Few::Three(begin, end, step) => match step_of(step) {
            Some(step) => read_between(alloc, text, line, name, begin, end, Some(step)),
            None => Ok(Reading::NoForm),
        },
        Few::More => Ok(Reading::NoForm),
    }
}

/// A loop, from its names and the tokens in its round brackets.
fn read_loop_names(
    alloc: Global,
    text: &[u8],
    line: u32,
    mut names: Vec<String>,
    inside: &[Piece],
) -> Result<Reading<Head>, NoMemory>
    requires { AreInside text.now inside.now }
    ensures { IfOk result (λ r. reading_map head_tree r ≡ definition.loop_names text.now line (map string_bytes names.items) inside.now) }
{
    if names.len() != 1 {
        return Ok(Reading::NoForm);
    }
    match names.pop() {
        Some(name) => {
            let parts = few_parts(Mark::Comma, inside);
            read_loop(alloc, text, line, name, parts)
        }
        None => Ok(Reading::NoForm),
    }
}

fn map_of(
    alloc: Global,
    line: u32,
    params: Vec<String>,
    ranges: Reading<Vec<Slot>>,
) -> Reading<Head>
    ensures { reading_map head_tree result ≡ reading_map (λ list. statement_head (map_scope line (map string_bytes params.items) list no_statement)) (reading_map (λ list. dimensions_of list.items) ranges) }
{
    match ranges {
        Reading::NoForm => Reading::NoForm,
        Reading::TooDeep => Reading::TooDeep,
        Reading::Form(ranges) => Reading::Form(Head::Statement(Statement::Map {
            line,
            params,
            ranges,
            body: Vec::new(alloc),
        })),
    }
}

/// A map, from its names and the tokens in its square brackets.
fn read_map(
    alloc: Global,
    text: &[u8],
    line: u32,
    names: Vec<String>,
    inside: &[Piece],
) -> Result<Reading<Head>, NoMemory>
    requires { AreInside text.now inside.now }
    ensures { IfOk result (λ r. reading_map head_tree r ≡ definition.map_line text.now line (map string_bytes names.items) inside.now) }
{
    if names.len() != part_count(Mark::Comma, inside) {
        return Ok(Reading::NoForm);
    }
    let ranges = read_slots(alloc, text, false, inside)?;
    Ok(map_of(alloc, line, names, ranges))
}

/// A `for` line, behind its word.
pub(crate) fn read_for(
    alloc: Global,
    text: &[u8],
    line: u32,
    tokens: &[Piece],
) -> Result<Reading<Head>, NoMemory>
    requires { AreInside text.now tokens.now }
    ensures { IfOk result (λ r. reading_map head_tree r ≡ definition.for_line text.now line tokens.now) }
{
    match read_names(alloc, text, tokens)? {
        None => Ok(Reading::NoForm),
        Some(Named { names, rest }) => read_for_names(alloc, text, line, names, rest),
    }
}

fn read_for_names(
    alloc: Global,
    text: &[u8],
    line: u32,
    names: Vec<String>,
    rest: &[Piece],
) -> Result<Reading<Head>, NoMemory>
    requires { AreInside text.now rest.now }
    ensures { IfOk result (λ r. reading_map head_tree r ≡ definition.for_names text.now line (map string_bytes names.items) rest.now) }
{
    if let Some(rest) = after(text, rest, &["in", "range", "("]) {
        return match header(text, Bracket::Round, rest) {
            Some(inside) => read_loop_names(alloc, text, line, names, inside),
            None => Ok(Reading::NoForm),
        };
    }
    match after(text, rest, &["in", "dace", ".", "map", "["]) {
        Some(rest) => match header(text, Bracket::Square, rest) {
            Some(inside) => read_map(alloc, text, line, names, inside),
            None => Ok(Reading::NoForm),
        },
        None => Ok(Reading::NoForm),
    }
}
