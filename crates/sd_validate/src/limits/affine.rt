//! The ends of loops, which are affine code.
ghost use Rattle.std.specs.Prelude.{◌≡◌, true, false, map, option_map, MatchOption, IfOk};
ghost use Rattle.std.specs.List.{list_all};
ghost use Rattle.sd_range.specs.Arithmetic.{affine_difference, affine_product, affine_zero};
ghost use Rattle.sd_graph.specs.TreeFold.{exit_tree, guard_tree, value_tree};
ghost use Rattle.sd_places.specs.ranks.ComparisonOf.{comparison_of};
ghost use Rattle.sd_validity.specs.rules.WithinLimits as limits;
ghost use Rattle.sd_validate.specs.limits.SmallAs.{IsSmallAs};

use crate::limits::size::is_small;
use sd_graph::{Exit, Guard, TwoSign, Value};
use sd_list::NoMemory;
use sd_places::{Comparison, compared, has_number, has_numbers_only, variable_at};
use sd_range::Affine;
use std::alloc::Global;

/// An expression, if it is within the limits.
fn if_small(a: Affine) -> Option<Affine>
    ensures { MatchOption result (limits.is_small a ≡ false) (λ same. (limits.is_small a ≡ true) × (same ≡ a)) }
{
    if is_small(&a) { Some(a) } else { None }
}

/// A small expression as many times as the constant of another.
fn product(alloc: Global, factor: &Affine, a: &Affine) -> Result<Affine, NoMemory>
    requires factor { limits.is_small factor.now ≡ true }
    requires a { limits.is_small a.now ≡ true }
    ensures { IfOk result (λ product. product ≡ affine_product factor.now.constant a.now) }
{
    a.times(alloc, factor.constant)
}

/// Two small expressions joined by a sign.
fn joined(
    alloc: Global,
    sign: TwoSign,
    is_left_constant: bool,
    left: &Affine,
    right: &Affine,
) -> Result<Affine, NoMemory>
    requires left { limits.is_small left.now ≡ true }
    requires right { limits.is_small right.now ≡ true }
    ensures { IfOk result (λ a. a ≡ limits.affine_joined sign is_left_constant left.now right.now) }
{
    match sign {
        TwoSign::Add => left.plus(alloc, right),
        TwoSign::Sub => left.minus(alloc, right),
        TwoSign::Mul => {
            if is_left_constant {
                product(alloc, left, right)
            } else {
                product(alloc, right, left)
            }
        }
        _ => Ok(Affine::constant(alloc, 0)),
    }
}

/// A small expression with the other sign.
#[tactic(auto, using(crate::proofs::limits_lemmas::SmallValues::negation_fits))]
fn negated(alloc: Global, a: &Affine) -> Result<Affine, NoMemory>
    requires { limits.is_small a.now ≡ true }
    ensures { IfOk result (λ negated. negated ≡ affine_difference affine_zero a.now) }
{
    Affine::constant(alloc, 0).minus(alloc, a)
}

/// An affine value as an expression, if that and each part of it are small.
#[cycle(values)]
#[tactic(auto, using(crate::proofs::limits_lemmas::SmallValues::small_is))]
fn small_value(alloc: Global, variables: &[u32], value: &Value) -> Result<Option<Affine>, NoMemory>
    ensures { IfOk result (λ a. IsSmallAs a variables.now (value_tree value.now)) }
{
    match value {
        Value::Number(number) => Ok(if_small(Affine::constant(alloc, *number as i128))),
        Value::Variable(place) => {
            let a = Affine::variable(alloc, variable_at(variables, *place))?;
            Ok(Some(a))
        }
        Value::One { of, .. } => {
            let Some(a) = small_value(alloc, variables, of)? else {
                return Ok(None);
            };
            Ok(Some(negated(alloc, &a)?))
        }
        Value::Two { sign, left, right } => {
            let is_constant = has_numbers_only(left);
            let Some(left) = small_value(alloc, variables, left)? else {
                return Ok(None);
            };
            let Some(right) = small_value(alloc, variables, right)? else {
                return Ok(None);
            };
            Ok(if_small(joined(alloc, *sign, is_constant, &left, &right)?))
        }
        Value::Local(_) | Value::Input { .. } | Value::Choice { .. } => {
            Ok(Some(Affine::constant(alloc, 0)))
        }
    }
}

/// Whether an affine value and each part of it are small.
fn is_value_small(alloc: Global, variables: &[u32], value: &Value) -> Result<bool, NoMemory>
    ensures { IfOk result (λ is. is ≡ limits.is_value_small variables.now (value_tree value.now)) }
{
    let a = small_value(alloc, variables, value)?;
    Ok(a.is_some())
}

/// Whether the end of a comparison is small, where that is of one of the variables that are begun.
fn is_end_small(
    alloc: Global,
    begun: &[u32],
    variables: &[u32],
    comparison: Option<Comparison<'_>>,
) -> Result<bool, NoMemory>
    ensures { IfOk result (λ is. is ≡ limits.is_end_small begun.now variables.now (option_map comparison_of comparison.entry)) }
{
    match comparison {
        None => Ok(true),
        Some(comparison) => {
            if !has_number(begun, variable_at(variables, comparison.place)) {
                return Ok(true);
            }
            is_value_small(alloc, variables, comparison.bound)
        }
    }
}

fn is_condition_small(alloc: Global, begun: &[u32], when: &Option<Guard>) -> Result<bool, NoMemory>
    ensures { IfOk result (λ is. is ≡ limits.is_condition_small begun.now (option_map guard_tree when.now)) }
{
    match when {
        None => Ok(true),
        Some(guard) => is_end_small(
            alloc,
            begun,
            guard.code.variables.as_slice(),
            compared(&guard.code.body),
        ),
    }
}

/// Whether the ends of loops in the conditions of transitions are small.
pub(crate) fn are_conditions_small(
    alloc: Global,
    begun: &[u32],
    exits: &[Exit],
) -> Result<bool, NoMemory>
    ensures { IfOk result (λ are. are ≡ list_all (λ exit. limits.is_condition_small begun.now exit.when) (map exit_tree exits.now)) }
{
    for exit in exits {
        if !is_condition_small(alloc, begun, &exit.when)? {
            return Ok(false);
        }
    }
    Ok(true)
}
