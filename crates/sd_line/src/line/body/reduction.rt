//! `dace.reduce(lambda x, y: E, X, Y, axis=n, identity=c)`.
ghost use Rattle.std.specs.Prelude.{◌≡◌, Some, None, IfOk, IfSome, MatchOption};
ghost use Rattle.sd_line.specs.line.Reduction as definition;
ghost use Rattle.sd_line.specs.line.HeadFold.{head_tree};
ghost use Rattle.sd_phrase.specs.Memlet.{lambda_tree_of};
ghost use Rattle.sd_phrase.specs.Readings.{reading_map};
ghost use Rattle.sd_phrase.specs.Spans.{AreInside, IsInside};
ghost use Rattle.sd_phrase.specs.Words.{spelling};

use crate::line::head::Head;
use sd_list::NoMemory;
use sd_phrase::{
    LambdaNames, Mark, Piece, Reading, WrittenLambda, after, at_mark, lambda_names, lone_number,
    name_first, name_of, next, number_first, read_lambda_by,
};
use std::alloc::Global;

/// The number below zero that a minus makes.
fn opposite(value: Option<i64>) -> Option<i64>
    ensures { result ≡ definition.opposite value }
{
    match value {
        Some(value) if value >= 0 => Some(-value),
        _ => None,
    }
}

/// A number, also behind a minus.
fn minus_number(text: &[u8], tokens: &[Piece]) -> Option<i64>
    requires { AreInside text.now tokens.now }
    ensures { result ≡ definition.minus_number text.now tokens.now }
{
    match lone_number(tokens) {
        Some(value) => Some(value),
        None => match next(text, tokens, b"-") {
            Some(rest) => opposite(lone_number(rest)),
            None => None,
        },
    }
}

/// What stands behind the containers of a reduction.
#[derive(Clone, Copy)]
struct Options {
    axis: Option<i64>,
    identity: Option<i64>,
}

fn identity_of(text: &[u8], axis: Option<i64>, tokens: &[Piece]) -> Option<Options>
    requires { AreInside text.now tokens.now }
    ensures { result ≡ definition.identity_of text.now axis tokens.now }
{
    if tokens.is_empty() {
        return Some(Options {
            axis,
            identity: None,
        });
    }
    match after(text, tokens, &[",", "identity", "="]) {
        None => None,
        Some(rest) => match minus_number(text, rest) {
            None => None,
            Some(value) => Some(Options {
                axis,
                identity: Some(value),
            }),
        },
    }
}

fn options_of(text: &[u8], tokens: &[Piece]) -> Option<Options>
    requires { AreInside text.now tokens.now }
    ensures { result ≡ definition.options text.now tokens.now }
{
    match after(text, tokens, &[",", "axis", "="]) {
        None => identity_of(text, None, tokens),
        Some(rest) => match number_first(text, rest) {
            None => None,
            Some((axis, rest)) => identity_of(text, Some(axis), rest),
        },
    }
}

/// The containers of a reduction, and what stands behind them.
#[derive(Clone, Copy)]
struct Containers {
    from: Piece,
    to: Piece,
    options: Options,
}

fn containers_of(text: &[u8], tokens: &[Piece]) -> Option<Containers>
    requires { AreInside text.now tokens.now }
    ensures containers { MatchOption result (definition.containers text.now tokens.now ≡ None) (λ given. definition.containers text.now tokens.now ≡ Some (record { from = spelling text.now given.from; to = spelling text.now given.to; options = given.options })) }
    ensures inside { IfSome result (λ given. IsInside text.now given.from × IsInside text.now given.to) }
{
    let (from, rest) = name_first(text, tokens)?;
    let rest = next(text, rest, b",")?;
    let (to, rest) = name_first(text, rest)?;
    let options = options_of(text, rest)?;
    Some(Containers { from, to, options })
}

fn reduce_of(
    alloc: Global,
    text: &[u8],
    given: Containers,
    lambda: Reading<WrittenLambda>,
) -> Result<Reading<Head>, NoMemory>
    requires from { IsInside text.now given.from }
    requires to { IsInside text.now given.to }
    ensures { IfOk result (λ r. reading_map head_tree r ≡ definition.reduced (spelling text.now given.from) (spelling text.now given.to) given.options (reading_map lambda_tree_of lambda)) }
{
    match lambda {
        Reading::NoForm => Ok(Reading::NoForm),
        Reading::TooDeep => Ok(Reading::TooDeep),
        Reading::Form(lambda) => {
            let from = name_of(alloc, text, given.from)?;
            let to = name_of(alloc, text, given.to)?;
            Ok(Reading::Form(Head::Reduce {
                lambda,
                from,
                to,
                axis: given.options.axis,
                identity: given.options.identity,
            }))
        }
    }
}

/// A reduction, behind the two names of its lambda.
fn read_reduce_names(
    alloc: Global,
    text: &[u8],
    names: LambdaNames<'_>,
) -> Result<Reading<Head>, NoMemory>
    requires first { IsInside text.now names.first }
    requires second { IsInside text.now names.second }
    requires rest { AreInside text.now names.rest.now }
    ensures { IfOk result (λ r. reading_map head_tree r ≡ definition.reduce_names text.now (record { first = spelling text.now names.entry.first; second = spelling text.now names.entry.second; rest = names.entry.rest.now })) }
{
    match at_mark(Mark::Comma, names.rest) {
        None => Ok(Reading::NoForm),
        Some((body, behind)) => match containers_of(text, behind) {
            None => Ok(Reading::NoForm),
            Some(given) => {
                let lambda = read_lambda_by(alloc, text, names.first, names.second, body)?;
                reduce_of(alloc, text, given, lambda)
            }
        },
    }
}

/// What is in the round brackets of `dace.reduce(..)`.
pub(crate) fn read_reduce(
    alloc: Global,
    text: &[u8],
    inside: &[Piece],
) -> Result<Reading<Head>, NoMemory>
    requires { AreInside text.now inside.now }
    ensures { IfOk result (λ r. reading_map head_tree r ≡ definition.reduce_line text.now inside.now) }
{
    match next(text, inside, b"lambda") {
        None => Ok(Reading::NoForm),
        Some(rest) => match lambda_names(text, rest) {
            None => Ok(Reading::NoForm),
            Some(names) => read_reduce_names(alloc, text, names),
        },
    }
}
