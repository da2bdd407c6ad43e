ghost use Rattle.std.specs.Prelude.{◌≡◌, pos, option_map, IfOk};
ghost use Rattle.sd_lex.specs.TreeFold.{expression_of, dimension_of, dimensions_of};
ghost use Rattle.sd_program.specs.Affines.{affine_number};
ghost use Rattle.sd_program.specs.Bounds.{IfWritten, EachEnd, EachDimension};
ghost use Rattle.sd_program.specs.Small.{IsSmall, IsWithinLimits};
ghost use Rattle.sd_range.specs.Arithmetic.{affine_difference};
ghost use Rattle.sd_task.specs.in_force.Ranges as definition;

use crate::in_force::expression::{affine, number};
use crate::in_force::scope::Scope;
use sd_lex::{Expr, Slot};
use sd_list::{NoMemory, Sequence};
use sd_range::{Affine, Range};
use std::alloc::Global;

/// The last value before an end.
fn one_less(alloc: Global, end: &Affine) -> Result<Affine, NoMemory>
    requires { IsWithinLimits end.now }
    ensures { IfOk result (λ last. last ≡ affine_difference end.now (affine_number (pos 1))) }
{
    end.minus(alloc, &number(alloc, 1))
}

/// The values from a begin on that are below an end.
pub(crate) fn range_between(
    alloc: Global,
    begin: Affine,
    end: &Affine,
    step: Option<i64>,
) -> Result<Range, NoMemory>
    requires { IsWithinLimits end.now }
    ensures { IfOk result (λ range. range ≡ definition.range_between begin end.now step) }
{
    let last = one_less(alloc, end)?;
    Ok(Range {
        begin,
        ends: Sequence::from(vec![in alloc; last]?),
        step: i128::from(step.unwrap_or(1)),
    })
}

/// An expression that may be left out, and another in its place.
pub fn affine_or(
    alloc: Global,
    other: &Affine,
    variables: &Scope,
    expression: &Option<Expr>,
) -> Result<Affine, NoMemory>
    requires small { IfWritten IsSmall (option_map expression_of expression.now) }
    requires within { IsWithinLimits other.now }
    ensures affine { IfOk result (λ affine. affine ≡ definition.affine_or other.now variables.now (option_map expression_of expression.now)) }
    ensures within { IfOk result (λ affine. IsWithinLimits affine) }
{
    match expression {
        None => other.copy_of(alloc),
        Some(expression) => affine(alloc, variables, expression),
    }
}

/// The range of a map's parameter.
#[tactic(auto, using(crate::proofs::in_force_lemmas::SmallLemmas::zero_within))]
fn range(alloc: Global, variables: &Scope, slot: &Slot) -> Result<Range, NoMemory>
    requires { EachEnd IsSmall (dimension_of slot.now) }
    ensures { IfOk result (λ range. range ≡ definition.range_of variables.now (dimension_of slot.now)) }
{
    match slot {
        Slot::Index(at) => Ok(Range {
            begin: affine(alloc, variables, at)?,
            ends: Sequence::from(vec![in alloc; affine(alloc, variables, at)?]?),
            step: 1,
        }),
        Slot::Span { begin, end, step } => {
            let zero = number(alloc, 0);
            let begin = affine_or(alloc, &zero, variables, begin)?;
            let end = affine_or(alloc, &zero, variables, end)?;
            range_between(alloc, begin, &end, *step)
        }
    }
}

/// The parameters of a map with their ranges: the first is the variable of this number.
pub fn parameters(
    alloc: Global,
    variables: &Scope,
    ranges: &[Slot],
    variable: u32,
) -> Result<Vec<(u32, Range)>, NoMemory>
    requires { EachDimension IsSmall (dimensions_of ranges.now) }
    ensures { IfOk result (λ parameters. parameters.items ≡ definition.parameters_of variables.now (dimensions_of ranges.now) variable) }
{
    let mut parameters = Vec::with_capacity(alloc, ranges.len())?;
    let mut next = variable;
    for slot in ranges {
        parameters.push((next, range(alloc, variables, slot)?))?;
        next = next.checked_add(1).ok_or(NoMemory)?;
    }
    Ok(parameters)
}
