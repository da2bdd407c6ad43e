//! What a line says outside all blocks.
ghost use Rattle.std.specs.Prelude.{◌≡◌, [], IfOk, map, string_bytes};
ghost use Rattle.sd_lex.specs.PlainTree.{argument_array};
ghost use Rattle.sd_lex.specs.TreeFold.{expression_of, expressions_listed, statement_of, block_listed};
ghost use Rattle.sd_phrase.specs.declared.word.Mark.TheVariants.{Comma};
ghost use Rattle.sd_line.specs.line.Head.{program_head};
ghost use Rattle.sd_line.specs.line.HeadFold.{head_tree};
ghost use Rattle.sd_phrase.specs.Parts.{parts_of};
ghost use Rattle.sd_phrase.specs.Readings.{reading_map, listed};
ghost use Rattle.sd_phrase.specs.Spans.{AreInside, IsInside};
ghost use Rattle.sd_line.specs.line.TopLine as definition;
ghost use Rattle.sd_phrase.specs.Words.{spelling};

use crate::line::head::Head;
use sd_lex::{Expr, Statement};
use sd_list::NoMemory;
use sd_phrase::{
    Bracket, LEVELS, Mark, Piece, Reading, Word, after, bracketed_whole, header, is_phrase,
    mark_of, name_first, name_of, next, part_count, read_list,
};
use std::alloc::Global;

fn read_extents_in(
    alloc: Global,
    text: &[u8],
    inside: &[Piece],
) -> Result<Reading<Vec<Expr>>, NoMemory>
    requires { AreInside text.now inside.now }
    ensures { IfOk result (λ r. reading_map (λ list. map expression_of list.items) r ≡ definition.extents_in text.now inside.now) }
{
    if part_count(Mark::Comma, inside) <= 4 {
        read_list(alloc, text, true, LEVELS, inside)
    } else {
        Ok(Reading::NoForm)
    }
}

/// The extents of an argument.
fn read_extents(
    alloc: Global,
    text: &[u8],
    tokens: &[Piece],
) -> Result<Reading<Vec<Expr>>, NoMemory>
    requires { AreInside text.now tokens.now }
    ensures { IfOk result (λ r. reading_map (λ list. map expression_of list.items) r ≡ definition.extents text.now tokens.now) }
{
    if tokens.is_empty() {
        return Ok(Reading::Form(Vec::new(alloc)));
    }
    match bracketed_whole(Bracket::Square, tokens) {
        None => Ok(Reading::NoForm),
        Some(inside) => read_extents_in(alloc, text, inside),
    }
}

fn argument_of(
    alloc: Global,
    text: &[u8],
    line: u32,
    name: Piece,
    extents: Reading<Vec<Expr>>,
) -> Result<Reading<Statement>, NoMemory>
    requires { IsInside text.now name }
    ensures { IfOk result (λ r. reading_map statement_of r ≡ reading_map (λ list. argument_array line (spelling text.now name) 64 (expressions_listed list)) (reading_map (λ list. map expression_of list.items) extents)) }
{
    match extents {
        Reading::NoForm => Ok(Reading::NoForm),
        Reading::TooDeep => Ok(Reading::TooDeep),
        Reading::Form(extents) => {
            let name = name_of(alloc, text, name)?;
            Ok(Reading::Form(Statement::Argument {
                line,
                name,
                bits: 64,
                extents,
            }))
        }
    }
}

/// `X: dace.int64[e]`
fn read_argument(
    alloc: Global,
    text: &[u8],
    line: u32,
    tokens: &[Piece],
) -> Result<Reading<Statement>, NoMemory>
    requires { AreInside text.now tokens.now }
    ensures { IfOk result (λ r. reading_map statement_of r ≡ definition.program_argument text.now line tokens.now) }
{
    let Some((name, rest)) = name_first(text, tokens) else {
        return Ok(Reading::NoForm);
    };
    match after(text, rest, &[":", "dace", ".", "int64"]) {
        None => Ok(Reading::NoForm),
        Some(rest) => {
            let extents = read_extents(alloc, text, rest)?;
            argument_of(alloc, text, line, name, extents)
        }
    }
}

/// The arguments of a program.
fn read_arguments(
    alloc: Global,
    text: &[u8],
    line: u32,
    tokens: &[Piece],
) -> Result<Reading<Vec<Statement>>, NoMemory>
    requires { AreInside text.now tokens.now }
    ensures { IfOk result (λ r. reading_map (λ list. map statement_of list.items) r ≡ listed (map (definition.program_argument text.now line) (parts_of Comma tokens.now))) }
{
    let mut list: Vec<Statement> = Vec::new(alloc);
    let mut deep = false;
    let mut left = tokens;
    while let Some(place) = mark_of(Mark::Comma, left) {
        match read_argument(alloc, text, line, &left[..place])? {
            Reading::NoForm => return Ok(Reading::NoForm),
            Reading::TooDeep => deep = true,
            Reading::Form(item) => list.push(item)?,
        }
        left = &left[place + 1..];
    }
    match read_argument(alloc, text, line, left)? {
        Reading::NoForm => return Ok(Reading::NoForm),
        Reading::TooDeep => deep = true,
        Reading::Form(item) => list.push(item)?,
    }
    if deep {
        return Ok(Reading::TooDeep);
    }
    Ok(Reading::Form(list))
}

fn program_of(
    alloc: Global,
    text: &[u8],
    name: Piece,
    arguments: Reading<Vec<Statement>>,
) -> Result<Reading<Head>, NoMemory>
    requires { IsInside text.now name }
    ensures { IfOk result (λ r. reading_map head_tree r ≡ reading_map (λ list. program_head (spelling text.now name) (block_listed list)) (reading_map (λ list. map statement_of list.items) arguments)) }
{
    match arguments {
        Reading::NoForm => Ok(Reading::NoForm),
        Reading::TooDeep => Ok(Reading::TooDeep),
        Reading::Form(arguments) => {
            let name = name_of(alloc, text, name)?;
            Ok(Reading::Form(Head::Program { name, arguments }))
        }
    }
}

/// `def f(X: t, Y: t):`, behind its word.
fn read_def(
    alloc: Global,
    text: &[u8],
    line: u32,
    tokens: &[Piece],
) -> Result<Reading<Head>, NoMemory>
    requires { AreInside text.now tokens.now }
    ensures { IfOk result (λ r. reading_map head_tree r ≡ definition.def_line text.now line tokens.now) }
{
    let Some((name, rest)) = name_first(text, tokens) else {
        return Ok(Reading::NoForm);
    };
    match next(text, rest, b"(") {
        None => Ok(Reading::NoForm),
        Some(rest) => match header(text, Bracket::Round, rest) {
            None => Ok(Reading::NoForm),
            Some(inside) => {
                let arguments = read_arguments(alloc, text, line, inside)?;
                program_of(alloc, text, name, arguments)
            }
        },
    }
}

/// What is between the quotes of a token.
fn unquoted(alloc: Global, text: &[u8], token: Piece) -> Result<String, NoMemory>
    requires { IsInside text.now token }
    ensures { IfOk result (λ name. string_bytes name ≡ definition.unquoted (spelling text.now token)) }
{
    let bytes = &text[token.from as usize..token.to as usize];
    let inner = inside_quotes(bytes);
    let bytes = inner.to_vec(alloc)?;
    Ok(String::from_utf8(bytes).unwrap())
}

fn inside_quotes(bytes: &[u8]) -> &[u8]
    ensures { result.now ≡ definition.unquoted bytes.now }
{
    match bytes {
        [_, rest @ ..] => &rest[..rest.len().saturating_sub(1)],
        [] => bytes,
    }
}

/// What stands behind `N = dace.symbol(`.
fn read_quoted(
    alloc: Global,
    text: &[u8],
    name: Piece,
    tokens: &[Piece],
) -> Result<Reading<Head>, NoMemory>
    requires name { IsInside text.now name }
    requires tokens { AreInside text.now tokens.now }
    ensures { IfOk result (λ r. reading_map head_tree r ≡ definition.quoted text.now (spelling text.now name) tokens.now) }
{
    match tokens {
        [] => Ok(Reading::NoForm),
        [first, rest @ ..] => match first.word {
            Word::Quoted => {
                if is_phrase(text, rest, &[")"]) {
                    let quoted = unquoted(alloc, text, *first)?;
                    let name = name_of(alloc, text, name)?;
                    Ok(Reading::Form(Head::Symbol { name, quoted }))
                } else {
                    Ok(Reading::NoForm)
                }
            }
            _ => Ok(Reading::NoForm),
        },
    }
}

fn read_symbol(alloc: Global, text: &[u8], tokens: &[Piece]) -> Result<Reading<Head>, NoMemory>
    requires { AreInside text.now tokens.now }
    ensures { IfOk result (λ r. reading_map head_tree r ≡ definition.symbol text.now tokens.now) }
{
    let Some((name, rest)) = name_first(text, tokens) else {
        return Ok(Reading::NoForm);
    };
    match after(text, rest, &["=", "dace", ".", "symbol", "("]) {
        None => Ok(Reading::NoForm),
        Some(rest) => read_quoted(alloc, text, name, rest),
    }
}

/// A line outside all blocks.
pub(crate) fn read_top_line(
    alloc: Global,
    text: &[u8],
    line: u32,
    tokens: &[Piece],
) -> Result<Reading<Head>, NoMemory>
    requires { AreInside text.now tokens.now }
    ensures { IfOk result (λ r. reading_map head_tree r ≡ definition.top_line text.now line tokens.now) }
{
    if is_phrase(text, tokens, &["@", "dace", ".", "program"]) {
        return Ok(Reading::Form(Head::ProgramDecorator));
    }
    if is_phrase(text, tokens, &["import", "dace"])
        || is_phrase(text, tokens, &["import", "numpy", "as", "np"])
    {
        return Ok(Reading::Form(Head::Import));
    }
    match next(text, tokens, b"def") {
        None => read_symbol(alloc, text, tokens),
        Some(rest) => match next(text, rest, b"=") {
            None => read_def(alloc, text, line, rest),
            Some(_) => read_symbol(alloc, text, tokens),
        },
    }
}
