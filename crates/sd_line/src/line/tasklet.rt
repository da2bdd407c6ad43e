//! What a line says in a tasklet.
ghost use Rattle.std.specs.Prelude.{◌≡◌, IfOk, map};
ghost use Rattle.sd_lex.specs.PlainTree.{set, tasklet_branch, no_statement};
ghost use Rattle.sd_lex.specs.TreeFold.{expression_of};
ghost use Rattle.sd_line.specs.line.Head.{statement_head, input_head, output_head};
ghost use Rattle.sd_line.specs.line.HeadFold.{head_tree};
ghost use Rattle.sd_phrase.specs.Memlet.{memlet_tree_of};
ghost use Rattle.sd_phrase.specs.Readings.{reading_map, both};
ghost use Rattle.sd_phrase.specs.Spans.{AreInside, IsInside};
ghost use Rattle.sd_line.specs.line.TaskletLine as definition;
ghost use Rattle.sd_phrase.specs.Words.{spelling};

use crate::line::body::{read_condition, read_elif};
use crate::line::head::Head;
use sd_lex::{Expr, Statement};
use sd_list::NoMemory;
use sd_phrase::{
    Bracket, LEVELS, Piece, Reading, WrittenMemlet, bracketed, is_name, is_phrase, is_spelled,
    name_of, next, read_expression, read_list, read_memlet,
};
use std::alloc::Global;

fn set_of(
    alloc: Global,
    text: &[u8],
    line: u32,
    name: Piece,
    value: Reading<Expr>,
) -> Result<Reading<Head>, NoMemory>
    requires { IsInside text.now name }
    ensures { IfOk result (λ r. reading_map head_tree r ≡ reading_map (λ value. statement_head (set line (spelling text.now name) value)) (reading_map expression_of value)) }
{
    match value {
        Reading::NoForm => Ok(Reading::NoForm),
        Reading::TooDeep => Ok(Reading::TooDeep),
        Reading::Form(value) => {
            let name = name_of(alloc, text, name)?;
            Ok(Reading::Form(Head::Statement(Statement::Set { line, name, value })))
        }
    }
}

/// `c = E`, behind its sign.
fn read_set(
    alloc: Global,
    text: &[u8],
    line: u32,
    name: Piece,
    tokens: &[Piece],
) -> Result<Reading<Head>, NoMemory>
    requires name { IsInside text.now name }
    requires tokens { AreInside text.now tokens.now }
    ensures { IfOk result (λ r. reading_map head_tree r ≡ definition.set_line text.now line (spelling text.now name) tokens.now) }
{
    let value = read_expression(alloc, text, false, LEVELS, tokens)?;
    set_of(alloc, text, line, name, value)
}

fn set_at_of(
    alloc: Global,
    text: &[u8],
    line: u32,
    name: Piece,
    at: Reading<Vec<Expr>>,
    value: Reading<Expr>,
) -> Result<Reading<Head>, NoMemory>
    requires { IsInside text.now name }
    ensures { IfOk result (λ r. reading_map head_tree r ≡ both (definition.set_element line (spelling text.now name)) (reading_map (λ list. map expression_of list.items) at) (reading_map expression_of value)) }
{
    match at {
        Reading::NoForm => Ok(Reading::NoForm),
        Reading::TooDeep => match value {
            Reading::NoForm => Ok(Reading::NoForm),
            _ => Ok(Reading::TooDeep),
        },
        Reading::Form(at) => match value {
            Reading::NoForm => Ok(Reading::NoForm),
            Reading::TooDeep => Ok(Reading::TooDeep),
            Reading::Form(value) => {
                let name = name_of(alloc, text, name)?;
                Ok(Reading::Form(Head::Statement(Statement::SetAt {
                    line,
                    name,
                    at,
                    value,
                })))
            }
        },
    }
}

/// `c[E] = E`: what is in its brackets, and what is behind them.
fn read_set_at(
    alloc: Global,
    text: &[u8],
    line: u32,
    name: Piece,
    inside: &[Piece],
    behind: &[Piece],
) -> Result<Reading<Head>, NoMemory>
    requires name { IsInside text.now name }
    requires inside { AreInside text.now inside.now }
    requires behind { AreInside text.now behind.now }
    ensures { IfOk result (λ r. reading_map head_tree r ≡ definition.set_at_line text.now line (spelling text.now name) inside.now behind.now) }
{
    match next(text, behind, b"=") {
        None => Ok(Reading::NoForm),
        Some(value) => {
            let at = read_list(alloc, text, false, LEVELS, inside)?;
            let value = read_expression(alloc, text, false, LEVELS, value)?;
            set_at_of(alloc, text, line, name, at, value)
        }
    }
}

fn when_of(alloc: Global, line: u32, when: Reading<Expr>) -> Reading<Head>
    ensures { reading_map head_tree result ≡ reading_map (λ when. statement_head (tasklet_branch line when no_statement no_statement)) (reading_map expression_of when) }
{
    match when {
        Reading::NoForm => Reading::NoForm,
        Reading::TooDeep => Reading::TooDeep,
        Reading::Form(when) => Reading::Form(Head::Statement(Statement::When {
            line,
            when,
            body: Vec::new(alloc),
            other: Vec::new(alloc),
        })),
    }
}

/// `if E:`, behind its word.
fn read_when(
    alloc: Global,
    text: &[u8],
    line: u32,
    tokens: &[Piece],
) -> Result<Reading<Head>, NoMemory>
    requires { AreInside text.now tokens.now }
    ensures { IfOk result (λ r. reading_map head_tree r ≡ definition.when_line text.now line tokens.now) }
{
    let when = read_condition(alloc, text, false, tokens)?;
    Ok(when_of(alloc, line, when))
}

fn input_of(
    alloc: Global,
    text: &[u8],
    name: Piece,
    memlet: Reading<WrittenMemlet>,
) -> Result<Reading<Head>, NoMemory>
    requires { IsInside text.now name }
    ensures { IfOk result (λ r. reading_map head_tree r ≡ reading_map (input_head (spelling text.now name)) (reading_map memlet_tree_of memlet)) }
{
    match memlet {
        Reading::NoForm => Ok(Reading::NoForm),
        Reading::TooDeep => Ok(Reading::TooDeep),
        Reading::Form(memlet) => {
            let connector = name_of(alloc, text, name)?;
            Ok(Reading::Form(Head::Input { connector, memlet }))
        }
    }
}

/// `c << m`, behind its sign.
fn read_input(
    alloc: Global,
    text: &[u8],
    name: Piece,
    tokens: &[Piece],
) -> Result<Reading<Head>, NoMemory>
    requires name { IsInside text.now name }
    requires tokens { AreInside text.now tokens.now }
    ensures { IfOk result (λ r. reading_map head_tree r ≡ definition.input_line text.now (spelling text.now name) tokens.now) }
{
    let memlet = read_memlet(alloc, text, tokens)?;
    input_of(alloc, text, name, memlet)
}

fn output_of(
    alloc: Global,
    text: &[u8],
    name: Piece,
    memlet: Reading<WrittenMemlet>,
) -> Result<Reading<Head>, NoMemory>
    requires { IsInside text.now name }
    ensures { IfOk result (λ r. reading_map head_tree r ≡ reading_map (output_head (spelling text.now name)) (reading_map memlet_tree_of memlet)) }
{
    match memlet {
        Reading::NoForm => Ok(Reading::NoForm),
        Reading::TooDeep => Ok(Reading::TooDeep),
        Reading::Form(memlet) => {
            let connector = name_of(alloc, text, name)?;
            Ok(Reading::Form(Head::Output { connector, memlet }))
        }
    }
}

/// `c >> m`, behind its sign.
fn read_output(
    alloc: Global,
    text: &[u8],
    name: Piece,
    tokens: &[Piece],
) -> Result<Reading<Head>, NoMemory>
    requires name { IsInside text.now name }
    requires tokens { AreInside text.now tokens.now }
    ensures { IfOk result (λ r. reading_map head_tree r ≡ definition.output_line text.now (spelling text.now name) tokens.now) }
{
    let memlet = read_memlet(alloc, text, tokens)?;
    output_of(alloc, text, name, memlet)
}

/// A line that is no assignment and no connector: `if`, `elif` or `else:`.
fn read_keyword_line(
    alloc: Global,
    text: &[u8],
    line: u32,
    first: Piece,
    rest: &[Piece],
    tokens: &[Piece],
) -> Result<Reading<Head>, NoMemory>
    requires first { IsInside text.now first }
    requires rest { AreInside text.now rest.now }
    requires tokens { AreInside text.now tokens.now }
    ensures { IfOk result (λ r. reading_map head_tree r ≡ definition.tasklet_keyword_line text.now line first rest.now tokens.now) }
{
    if is_phrase(text, tokens, &["else", ":"]) {
        Ok(Reading::Form(Head::Else))
    } else if is_spelled(text, first, b"if") {
        read_when(alloc, text, line, rest)
    } else if is_spelled(text, first, b"elif") {
        read_elif(alloc, text, false, rest)
    } else {
        Ok(Reading::NoForm)
    }
}

/// A line that begins with a name.
fn read_named_line(
    alloc: Global,
    text: &[u8],
    line: u32,
    first: Piece,
    rest: &[Piece],
    tokens: &[Piece],
) -> Result<Reading<Head>, NoMemory>
    requires first { IsInside text.now first }
    requires rest { AreInside text.now rest.now }
    requires tokens { AreInside text.now tokens.now }
    ensures { IfOk result (λ r. reading_map head_tree r ≡ definition.tasklet_named_line text.now line first rest.now tokens.now) }
{
    if let Some(behind) = next(text, rest, b"=") {
        return read_set(alloc, text, line, first, behind);
    }
    if let Some(behind) = next(text, rest, b"<<") {
        return read_input(alloc, text, first, behind);
    }
    if let Some(behind) = next(text, rest, b">>") {
        return read_output(alloc, text, first, behind);
    }
    match bracketed(Bracket::Square, rest) {
        Some((inside, behind)) => read_set_at(alloc, text, line, first, inside, behind),
        None => read_keyword_line(alloc, text, line, first, rest, tokens),
    }
}

/// A line of a tasklet.
pub(crate) fn read_tasklet_line(
    alloc: Global,
    text: &[u8],
    line: u32,
    tokens: &[Piece],
) -> Result<Reading<Head>, NoMemory>
    requires { AreInside text.now tokens.now }
    ensures { IfOk result (λ r. reading_map head_tree r ≡ definition.tasklet_line text.now line tokens.now) }
{
    match tokens {
        [] => Ok(Reading::NoForm),
        [first, rest @ ..] => {
            if is_name(first.word) {
                read_named_line(alloc, text, line, *first, rest, tokens)
            } else {
                Ok(Reading::NoForm)
            }
        }
    }
}
