//! `while`, `if` and `elif`.
ghost use Rattle.std.specs.Prelude.{◌≡◌, IfOk};
ghost use Rattle.sd_lex.specs.PlainTree.{while_loop, branch, no_statement};
ghost use Rattle.sd_lex.specs.TreeFold.{expression_of};
ghost use Rattle.sd_line.specs.line.Condition as definition;
ghost use Rattle.sd_line.specs.line.Head.{statement_head, elif_head};
ghost use Rattle.sd_line.specs.line.HeadFold.{head_tree};
ghost use Rattle.sd_phrase.specs.Readings.{reading_map};
ghost use Rattle.sd_phrase.specs.Spans.{AreInside};

use crate::line::head::Head;
use sd_lex::{Expr, Statement};
use sd_list::NoMemory;
use sd_phrase::{LEVELS, Mark, Piece, Reading, at_mark, read_expression};
use std::alloc::Global;

/// An expression and a colon.
#[inline(never)]
pub(crate) fn read_condition(
    alloc: Global,
    text: &[u8],
    in_body: bool,
    tokens: &[Piece],
) -> Result<Reading<Expr>, NoMemory>
    requires { AreInside text.now tokens.now }
    ensures { IfOk result (λ r. reading_map expression_of r ≡ definition.condition text.now in_body tokens.now) }
{
    match at_mark(Mark::Colon, tokens) {
        Some((front, behind)) if behind.is_empty() => {
            read_expression(alloc, text, in_body, LEVELS, front)
        }
        _ => Ok(Reading::NoForm),
    }
}

fn while_of(alloc: Global, line: u32, when: Reading<Expr>) -> Reading<Head>
    ensures { reading_map head_tree result ≡ reading_map (λ when. statement_head (while_loop line when no_statement)) (reading_map expression_of when) }
{
    match when {
        Reading::NoForm => Reading::NoForm,
        Reading::TooDeep => Reading::TooDeep,
        Reading::Form(when) => Reading::Form(Head::Statement(Statement::While {
            line,
            when,
            body: Vec::new(alloc),
        })),
    }
}

/// `while E:`, behind its word.
pub(crate) fn read_while(
    alloc: Global,
    text: &[u8],
    line: u32,
    tokens: &[Piece],
) -> Result<Reading<Head>, NoMemory>
    requires { AreInside text.now tokens.now }
    ensures { IfOk result (λ r. reading_map head_tree r ≡ definition.while_line text.now line tokens.now) }
{
    let when = read_condition(alloc, text, true, tokens)?;
    Ok(while_of(alloc, line, when))
}

fn if_of(alloc: Global, line: u32, when: Reading<Expr>) -> Reading<Head>
    ensures { reading_map head_tree result ≡ reading_map (λ when. statement_head (branch line when no_statement no_statement)) (reading_map expression_of when) }
{
    match when {
        Reading::NoForm => Reading::NoForm,
        Reading::TooDeep => Reading::TooDeep,
        Reading::Form(when) => Reading::Form(Head::Statement(Statement::If {
            line,
            when,
            body: Vec::new(alloc),
            other: Vec::new(alloc),
        })),
    }
}

/// `if E:`, behind its word.
pub(crate) fn read_if(
    alloc: Global,
    text: &[u8],
    line: u32,
    tokens: &[Piece],
) -> Result<Reading<Head>, NoMemory>
    requires { AreInside text.now tokens.now }
    ensures { IfOk result (λ r. reading_map head_tree r ≡ definition.if_line text.now line tokens.now) }
{
    let when = read_condition(alloc, text, true, tokens)?;
    Ok(if_of(alloc, line, when))
}

fn elif_of(when: Reading<Expr>) -> Reading<Head>
    ensures { reading_map head_tree result ≡ reading_map elif_head (reading_map expression_of when) }
{
    match when {
        Reading::NoForm => Reading::NoForm,
        Reading::TooDeep => Reading::TooDeep,
        Reading::Form(when) => Reading::Form(Head::Elif(when)),
    }
}

/// `elif E:`, behind its word.
pub(crate) fn read_elif(
    alloc: Global,
    text: &[u8],
    in_body: bool,
    tokens: &[Piece],
) -> Result<Reading<Head>, NoMemory>
    requires { AreInside text.now tokens.now }
    ensures { IfOk result (λ r. reading_map head_tree r ≡ definition.elif_line text.now in_body tokens.now) }
{
    let when = read_condition(alloc, text, in_body, tokens)?;
    Ok(elif_of(when))
}
