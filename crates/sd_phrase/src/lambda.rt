//! Lambdas.
ghost use Rattle.std.specs.Prelude.{◌≡◌, Some, None, IfOk, IfSome, MatchOption, slice_get};
ghost use Rattle.sd_lex.specs.TreeFold.{expression_of};
ghost use Rattle.sd_phrase.specs.Memlet.{lambda_tree_of};
ghost use Rattle.sd_phrase.specs.LambdaReading as definition;
ghost use Rattle.sd_phrase.specs.Readings.{reading_map};
ghost use Rattle.sd_phrase.specs.Spans.{AreInside, IsInside};
ghost use Rattle.sd_phrase.specs.Words.{spelling};

use crate::expression::{LEVELS, name_of, read_expression};
use crate::phrase::{name_first, next};
use crate::reading::Reading;
use crate::word::{Piece, same};
use sd_lex::{Expr, Lambda, TwoSign};
use sd_list::NoMemory;
use std::alloc::Global;

/// `lambda first, second: ..` as it is written; `kind` is None where it is none of the eight kinds.
#[derive(Drop)]
pub struct WrittenLambda {
    pub first: String,
    pub second: String,
    pub kind: Option<Lambda>,
}

/// The kind of a sign between the two names of a lambda.
fn kind_of_sign(sign: TwoSign) -> Option<Lambda>
    ensures { result ≡ definition.kind_of_sign sign }
{
    match sign {
        TwoSign::Add => Some(Lambda::Sum),
        TwoSign::Mul => Some(Lambda::Product),
        TwoSign::Min => Some(Lambda::Min),
        TwoSign::Max => Some(Lambda::Max),
        TwoSign::BitAnd => Some(Lambda::And),
        TwoSign::BitOr => Some(Lambda::Or),
        TwoSign::BitXor => Some(Lambda::Xor),
        _ => None,
    }
}

/// Whether an expression is a name alone.
#[inline(never)]
fn is_name_alone(name: &[u8], body: &Expr) -> bool
    ensures { result ≡ definition.is_name_alone name.now (expression_of body.now) }
{
    match body {
        Expr::Name(other) => same(other.as_bytes(), name),
        _ => false,
    }
}

fn is_pair(first: &[u8], second: &[u8], left: &Expr, right: &Expr) -> bool
    ensures { result ≡ definition.is_pair first.now second.now (expression_of left.now) (expression_of right.now) }
{
    (is_name_alone(first, left) && is_name_alone(second, right))
        || (is_name_alone(second, left) && is_name_alone(first, right))
}

fn kind_of_body(first: &[u8], second: &[u8], body: &Expr) -> Option<Lambda>
    ensures { result ≡ definition.kind_of_body first.now second.now (expression_of body.now) }
{
    match body {
        Expr::Name(name) => {
            if same(name.as_bytes(), second) {
                Some(Lambda::Last)
            } else {
                None
            }
        }
        Expr::Two { sign, left, right } => {
            if is_pair(first, second, left, right) {
                kind_of_sign(*sign)
            } else {
                None
            }
        }
        _ => None,
    }
}

/// The kind of a lambda; one whose names are the same has none.
fn kind_of(first: &[u8], second: &[u8], body: &Expr) -> Option<Lambda>
    ensures { result ≡ definition.kind_of first.now second.now (expression_of body.now) }
{
    if same(first, second) {
        None
    } else {
        kind_of_body(first, second, body)
    }
}

/// What stands behind `lambda`: the two names, and what is behind their colon.
#[derive(Clone, Copy)]
pub struct LambdaNames<'a> {
    pub first: Piece,
    pub second: Piece,
    pub rest: &'a [Piece],
}

/// The names of a lambda.
pub fn lambda_names<'a>(text: &[u8], tokens: &'a [Piece]) -> Option<LambdaNames<'a>>
    requires { AreInside text.now tokens.now }
    ensures names { MatchOption result (definition.lambda_names text.now tokens.now ≡ None) (λ names. definition.lambda_names text.now tokens.now ≡ Some (record { first = spelling text.now names.first; second = spelling text.now names.second; rest = names.rest.now })) }
    ensures first { IfSome result (λ names. slice_get tokens.now 0 ≡ Some names.first) }
    ensures second { IfSome result (λ names. slice_get tokens.now 2 ≡ Some names.second) }
    ensures inside { IfSome result (λ names. IsInside text.now names.first × IsInside text.now names.second × AreInside text.now names.rest.now) }
{
    let (first, rest) = name_first(text, tokens)?;
    let rest = next(text, rest, b",")?;
    let (second, rest) = name_first(text, rest)?;
    let rest = next(text, rest, b":")?;
    Some(LambdaNames {
        first,
        second,
        rest,
    })
}

/// A lambda with its body.
pub fn read_lambda_by(
    alloc: Global,
    text: &[u8],
    first: Piece,
    second: Piece,
    body: &[Piece],
) -> Result<Reading<WrittenLambda>, NoMemory>
    requires first { IsInside text.now first }
    requires second { IsInside text.now second }
    requires body { AreInside text.now body.now }
    ensures { IfOk result (λ r. reading_map lambda_tree_of r ≡ definition.lambda_by text.now (spelling text.now first) (spelling text.now second) body.now) }
{
    match read_expression(alloc, text, false, LEVELS, body)? {
        Reading::NoForm => Ok(Reading::NoForm),
        Reading::TooDeep => Ok(Reading::TooDeep),
        Reading::Form(body) => {
            let first = name_of(alloc, text, first)?;
            let second = name_of(alloc, text, second)?;
            let kind = kind_of(first.as_bytes(), second.as_bytes(), &body);
            Ok(Reading::Form(WrittenLambda {
                first,
                second,
                kind,
            }))
        }
    }
}

/// A whole lambda.
pub(crate) fn read_lambda(
    alloc: Global,
    text: &[u8],
    tokens: &[Piece],
) -> Result<Reading<WrittenLambda>, NoMemory>
    requires { AreInside text.now tokens.now }
    ensures { IfOk result (λ r. reading_map lambda_tree_of r ≡ definition.lambda_whole text.now tokens.now) }
{
    let Some(rest) = next(text, tokens, b"lambda") else {
        return Ok(Reading::NoForm);
    };
    match lambda_names(text, rest) {
        None => Ok(Reading::NoForm),
        Some(names) => read_lambda_by(alloc, text, names.first, names.second, names.rest),
    }
}
