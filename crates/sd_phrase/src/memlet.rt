//! Memlets: what a connector line moves.
ghost use Rattle.std.specs.Prelude.{◌≡◌, Some, None, IfOk, IfSome, MatchOption, option_map};
ghost use Rattle.sd_lex.specs.TreeFold.{dimensions_of};
ghost use Rattle.sd_phrase.specs.Memlet.{lambda_tree_of, memlet_tree_of};
ghost use Rattle.sd_phrase.specs.MemletReading as definition;
ghost use Rattle.sd_phrase.specs.Readings.{reading_map, both};
ghost use Rattle.sd_phrase.specs.Spans.{AreInside, IsInside};
ghost use Rattle.sd_phrase.specs.Words.{spelling};

use crate::expression::name_of;
use crate::lambda::{WrittenLambda, read_lambda};
use crate::parts::bracketed;
use crate::phrase::{minus_one, name_first, next, number_first};
use crate::reading::Reading;
use crate::subset::read_subset;
use crate::word::{Bracket, Piece};
use sd_lex::Slot;
use sd_list::NoMemory;
use std::alloc::Global;

/// What a connector line moves, with the lambda as it is written.
#[derive(Drop)]
pub struct WrittenMemlet {
    pub name: String,
    pub volume: Option<i64>,
    pub lambda: Option<WrittenLambda>,
    pub dims: Vec<Slot>,
}

/// Behind the volume of a memlet: nothing, or a comma and a lambda.
fn read_resolution(
    alloc: Global,
    text: &[u8],
    tokens: &[Piece],
) -> Result<Reading<Option<WrittenLambda>>, NoMemory>
    requires { AreInside text.now tokens.now }
    ensures { IfOk result (λ r. reading_map (option_map lambda_tree_of) r ≡ definition.resolution text.now tokens.now) }
{
    if tokens.is_empty() {
        return Ok(Reading::Form(None));
    }
    match next(text, tokens, b",") {
        None => Ok(Reading::NoForm),
        Some(rest) => match read_lambda(alloc, text, rest)? {
            Reading::NoForm => Ok(Reading::NoForm),
            Reading::TooDeep => Ok(Reading::TooDeep),
            Reading::Form(lambda) => Ok(Reading::Form(Some(lambda))),
        },
    }
}

/// A number or -1 first, and what is behind it.
fn volume_first<'a>(text: &[u8], tokens: &'a [Piece]) -> Option<(i64, &'a [Piece])>
    requires { AreInside text.now tokens.now }
    ensures volume { MatchOption result (definition.volume_first text.now tokens.now ≡ None) (λ found. definition.volume_first text.now tokens.now ≡ Some (found.0, found.1.now)) }
    ensures inside { IfSome result (λ found. AreInside text.now found.1.now) }
{
    match number_first(text, tokens) {
        Some((value, rest)) => Some((value, rest)),
        None => match minus_one(text, tokens) {
            Some(rest) => Some((-1, rest)),
            None => None,
        },
    }
}

/// A memlet from its parts.
fn moved_of(
    alloc: Global,
    text: &[u8],
    name: Piece,
    volume: Option<i64>,
    lambda: Reading<Option<WrittenLambda>>,
    dims: Reading<Vec<Slot>>,
) -> Result<Reading<WrittenMemlet>, NoMemory>
    requires { IsInside text.now name }
    ensures { IfOk result (λ r. reading_map memlet_tree_of r ≡ both (definition.moved (spelling text.now name) volume) (reading_map (option_map lambda_tree_of) lambda) (reading_map (λ list. dimensions_of list.items) dims)) }
{
    match lambda {
        Reading::NoForm => Ok(Reading::NoForm),
        Reading::TooDeep => match dims {
            Reading::NoForm => Ok(Reading::NoForm),
            _ => Ok(Reading::TooDeep),
        },
        Reading::Form(lambda) => match dims {
            Reading::NoForm => Ok(Reading::NoForm),
            Reading::TooDeep => Ok(Reading::TooDeep),
            Reading::Form(dims) => {
                let name = name_of(alloc, text, name)?;
                Ok(Reading::Form(WrittenMemlet {
                    name,
                    volume,
                    lambda,
                    dims,
                }))
            }
        },
    }
}

/// A memlet with a volume: what is in its round brackets, and its subset.
fn read_sized(
    alloc: Global,
    text: &[u8],
    name: Piece,
    inside: &[Piece],
    behind: &[Piece],
) -> Result<Reading<WrittenMemlet>, NoMemory>
    requires name { IsInside text.now name }
    requires inside { AreInside text.now inside.now }
    requires behind { AreInside text.now behind.now }
    ensures { IfOk result (λ r. reading_map memlet_tree_of r ≡ definition.sized text.now (spelling text.now name) inside.now behind.now) }
{
    match volume_first(text, inside) {
        None => Ok(Reading::NoForm),
        Some((volume, rest)) => {
            let lambda = read_resolution(alloc, text, rest)?;
            let dims = read_subset(alloc, text, behind)?;
            moved_of(alloc, text, name, Some(volume), lambda, dims)
        }
    }
}

/// A memlet.
pub fn read_memlet(
    alloc: Global,
    text: &[u8],
    tokens: &[Piece],
) -> Result<Reading<WrittenMemlet>, NoMemory>
    requires { AreInside text.now tokens.now }
    ensures { IfOk result (λ r. reading_map memlet_tree_of r ≡ definition.memlet text.now tokens.now) }
{
    let Some((name, rest)) = name_first(text, tokens) else {
        return Ok(Reading::NoForm);
    };
    match bracketed(Bracket::Round, rest) {
        Some((inside, behind)) => read_sized(alloc, text, name, inside, behind),
        None => {
            let dims = read_subset(alloc, text, rest)?;
            moved_of(alloc, text, name, None, Reading::Form(None), dims)
        }
    }
}
