//! `X[e] = E`, `X[e] += E` and `X[d] = Y[d]`.
ghost use Rattle.std.specs.Prelude.{◌≡◌, IfOk, map};
ghost use Rattle.sd_lex.specs.TreeFold.{expression_of, dimensions_of};
ghost use Rattle.sd_line.specs.line.ElementLine as definition;
ghost use Rattle.sd_line.specs.line.HeadFold.{head_tree};
ghost use Rattle.sd_phrase.specs.Readings.{reading_map, both};
ghost use Rattle.sd_phrase.specs.Spans.{AreInside, IsInside};
ghost use Rattle.sd_phrase.specs.Words.{spelling};

use crate::line::head::{BlockKind, Head};
use sd_lex::{Expr, Slot, Statement};
use sd_list::NoMemory;
use sd_phrase::{
    Bracket, LEVELS, Mark, Piece, Reading, at_mark, bracketed_whole, name_first, name_of, next,
    read_expression, read_list, read_slots,
};
use std::alloc::Global;

fn assign_of(
    alloc: Global,
    text: &[u8],
    line: u32,
    name: Piece,
    add: bool,
    at: Reading<Vec<Expr>>,
    value: Reading<Expr>,
) -> Result<Reading<Head>, NoMemory>
    requires { IsInside text.now name }
    ensures { IfOk result (λ r. reading_map head_tree r ≡ both (definition.assigned line (spelling text.now name) add) (reading_map (λ list. map expression_of list.items) at) (reading_map expression_of value)) }
{
    match at {
        Reading::NoForm => Ok(Reading::NoForm),
        Reading::TooDeep => match value {
            Reading::NoForm => Ok(Reading::NoForm),
            _ => Ok(Reading::TooDeep),
        },
        Reading::Form(at) => match value {
            Reading::NoForm => Ok(Reading::NoForm),
            Reading::TooDeep => Ok(Reading::TooDeep),
            Reading::Form(value) => {
                let name = name_of(alloc, text, name)?;
                Ok(Reading::Form(Head::Statement(Statement::Assign {
                    line,
                    name,
                    at,
                    add,
                    value,
                })))
            }
        },
    }
}

/// The value of an assignment: whether it is added, how deep it may be, and its tokens.
struct Assigned<'a> {
    add: bool,
    levels: u32,
    tokens: &'a [Piece],
}

/// An assignment: its subscripts and its value.
fn read_assign(
    alloc: Global,
    text: &[u8],
    line: u32,
    name: Piece,
    inside: &[Piece],
    value: Assigned<'_>,
) -> Result<Reading<Head>, NoMemory>
    requires name { IsInside text.now name }
    requires inside { AreInside text.now inside.now }
    requires value { AreInside text.now value.tokens.now }
    ensures { IfOk result (λ r. reading_map head_tree r ≡ definition.assign_line text.now line (spelling text.now name) value.entry.add value.entry.levels inside.now value.entry.tokens.now) }
{
    let Assigned {
        add,
        levels,
        tokens,
    } = value;
    let at = read_list(alloc, text, true, LEVELS, inside)?;
    let value = read_expression(alloc, text, true, levels, tokens)?;
    assign_of(alloc, text, line, name, add, at, value)
}

fn copy_of(
    alloc: Global,
    text: &[u8],
    line: u32,
    to: Piece,
    from: Piece,
    to_dims: Reading<Vec<Slot>>,
    from_dims: Reading<Vec<Slot>>,
) -> Result<Reading<Head>, NoMemory>
    requires to { IsInside text.now to }
    requires from { IsInside text.now from }
    ensures { IfOk result (λ r. reading_map head_tree r ≡ both (definition.copied line (spelling text.now to) (spelling text.now from)) (reading_map (λ list. dimensions_of list.items) to_dims) (reading_map (λ list. dimensions_of list.items) from_dims)) }
{
    match to_dims {
        Reading::NoForm => Ok(Reading::NoForm),
        Reading::TooDeep => match from_dims {
            Reading::NoForm => Ok(Reading::NoForm),
            _ => Ok(Reading::TooDeep),
        },
        Reading::Form(to_dims) => match from_dims {
            Reading::NoForm => Ok(Reading::NoForm),
            Reading::TooDeep => Ok(Reading::TooDeep),
            Reading::Form(from_dims) => {
                let to = name_of(alloc, text, to)?;
                let from = name_of(alloc, text, from)?;
                Ok(Reading::Form(Head::Statement(Statement::Copy {
                    line,
                    to,
                    to_dims,
                    from,
                    from_dims,
                })))
            }
        },
    }
}

/// A copy: the dimensions on its left, and the tokens behind its sign.
fn read_copy(
    alloc: Global,
    text: &[u8],
    line: u32,
    to: Piece,
    inside: &[Piece],
    tokens: &[Piece],
) -> Result<Reading<Head>, NoMemory>
    requires to { IsInside text.now to }
    requires inside { AreInside text.now inside.now }
    requires tokens { AreInside text.now tokens.now }
    ensures { IfOk result (λ r. reading_map head_tree r ≡ definition.copy_line text.now line (spelling text.now to) inside.now tokens.now) }
{
    let Some((from, rest)) = name_first(text, tokens) else {
        return Ok(Reading::NoForm);
    };
    match bracketed_whole(Bracket::Square, rest) {
        None => Ok(Reading::NoForm),
        Some(inner) => {
            let to_dims = read_slots(alloc, text, true, inside)?;
            let from_dims = read_slots(alloc, text, true, inner)?;
            copy_of(alloc, text, line, to, from, to_dims, from_dims)
        }
    }
}

/// How deep the value of a sum may be: outside scopes a sum is put round it.
fn levels_of_sum(kind: BlockKind) -> u32
    ensures { result ≡ definition.levels_of_sum kind }
{
    match kind {
        BlockKind::Program => LEVELS - 1,
        _ => LEVELS,
    }
}

/// A line that begins with an element: what is in its brackets, and what is behind them.
pub(crate) fn read_element_line(
    alloc: Global,
    text: &[u8],
    kind: BlockKind,
    line: u32,
    name: Piece,
    inside: &[Piece],
    behind: &[Piece],
) -> Result<Reading<Head>, NoMemory>
    requires name { IsInside text.now name }
    requires inside { AreInside text.now inside.now }
    requires behind { AreInside text.now behind.now }
    ensures { IfOk result (λ r. reading_map head_tree r ≡ definition.element_line text.now kind line (spelling text.now name) inside.now behind.now) }
{
    if at_mark(Mark::Colon, inside).is_some() {
        return match next(text, behind, b"=") {
            Some(rest) => read_copy(alloc, text, line, name, inside, rest),
            None => Ok(Reading::NoForm),
        };
    }
    match next(text, behind, b"=") {
        Some(tokens) => {
            let value = Assigned {
                add: false,
                levels: LEVELS,
                tokens,
            };
            read_assign(alloc, text, line, name, inside, value)
        }
        None => match next(text, behind, b"+=") {
            Some(tokens) => {
                let value = Assigned {
                    add: true,
                    levels: levels_of_sum(kind),
                    tokens,
                };
                read_assign(alloc, text, line, name, inside, value)
            }
            None => Ok(Reading::NoForm),
        },
    }
}
