//! Expressions where the variables have values, without asking whether they can be told.
//!
//! A number that does not fit 128 bits, on the way too, is answered by `NoMemory`.
ghost use Rattle.std.specs.Prelude.{◌≡◌, ◌+ℤ◌, ◌*ℤ◌, map, IfOk};
ghost use Rattle.std.specs.List.{All};
ghost use Rattle.sd_range.specs.Affine.{affine_value, variable_value, IsEvaluable};
ghost use Rattle.sd_range.specs.Range.{IsRange, IsEvaluableRange};
ghost use Rattle.sd_range.specs.Points.{ranges_of, opening};
ghost use Rattle.sd_range.specs.Subset.{IsDim};
ghost use Rattle.sd_range.specs.Variables.{with_variables};
ghost use Rattle.sd_subset.specs.elements.Way.{IsEvaluableDim};

use crate::scope::scope::set_variable;
use sd_graph::Exit;
use sd_list::NoMemory;
use sd_range::{Affine, Dim, Env, Points, Range};
use std::alloc::Global;

/// The value of an expression; a variable without a value counts as 0.
pub fn value_of(affine: &Affine, values: &[i128]) -> Result<i128, NoMemory>
    ensures { IfOk result (λ value. value ≡ affine_value values.now affine.now) }
{
    let mut sum = affine.constant;
    for (variable, coefficient) in affine.terms.as_slice() {
        sum = plus_product(sum, *coefficient, variable_of(values, *variable))?;
    }
    Ok(sum)
}

/// The value of a variable, 0 where it has none.
pub(crate) fn variable_of(values: &[i128], variable: u32) -> i128
    ensures { result ≡ variable_value values.now variable }
{
    match values.get(variable as usize) {
        Some(value) => *value,
        None => 0,
    }
}

/// A sum with a product more.
pub(crate) fn plus_product(sum: i128, factor: i128, number: i128) -> Result<i128, NoMemory>
    ensures { IfOk result (λ total. total ≡ sum +ℤ (factor *ℤ number)) }
{
    let product = product_of(factor, number)?;
    sum.checked_add(product).ok_or(NoMemory)
}

/// A product, which most often has the factor 1.
fn product_of(factor: i128, number: i128) -> Result<i128, NoMemory>
    ensures { IfOk result (λ product. product ≡ factor *ℤ number) }
{
    if factor == 1 {
        return Ok(number);
    }
    factor.checked_mul(number).ok_or(NoMemory)
}

/// Tests that each variable of an expression has a value, and that its value fits.
fn check_evaluable(affine: &Affine, values: &[i128]) -> Result<(), NoMemory>
    ensures { IfOk result (λ _. IsEvaluable values.now affine.now) }
{
    for (variable, _) in affine.terms.as_slice() {
        if *variable as usize >= values.len() {
            return Err(NoMemory);
        }
    }
    value_of(affine, values)?;
    Ok(())
}

/// The same of each of these expressions.
fn check_ends(ends: &[Affine], values: &[i128]) -> Result<(), NoMemory>
    ensures { IfOk result (λ _. All (IsEvaluable values.now) ends.now) }
{
    for end in ends {
        check_evaluable(end, values)?;
    }
    Ok(())
}

/// Tests that a range has one to four ends and a step of at least 1, and that its values can be told.
pub(crate) fn check_range(range: &Range, values: &[i128]) -> Result<(), NoMemory>
    ensures range { IfOk result (λ _. IsRange range.now) }
    ensures evaluable { IfOk result (λ _. IsEvaluableRange values.now range.now) }
{
    let ends = range.ends.as_slice();
    if ends.is_empty() || ends.len() > 4 || range.step < 1 {
        return Err(NoMemory);
    }
    check_evaluable(&range.begin, values)?;
    check_ends(ends, values)
}

/// The same of the range of each parameter.
fn check_ranges(params: &[(u32, Range)], values: &[i128]) -> Result<(), NoMemory>
    ensures ranges { IfOk result (λ _. All IsRange (ranges_of params.now)) }
    ensures evaluable { IfOk result (λ _. All (IsEvaluableRange values.now) (ranges_of params.now)) }
{
    for (_, range) in params {
        check_range(range, values)?;
    }
    Ok(())
}

/// The same of each dimension of a subset.
pub(crate) fn check_dims(dims: &[Dim], values: &[i128]) -> Result<(), NoMemory>
    ensures dims { IfOk result (λ _. All IsDim dims.now) }
    ensures evaluable { IfOk result (λ _. All (IsEvaluableDim values.now) dims.now) }
{
    for dim in dims {
        check_dim(dim, values)?;
    }
    Ok(())
}

/// Tests that the values of a dimension can be told.
fn check_dim(dim: &Dim, values: &[i128]) -> Result<(), NoMemory>
    ensures dim { IfOk result (λ _. IsDim dim.now) }
    ensures evaluable { IfOk result (λ _. IsEvaluableDim values.now dim.now) }
{
    match dim {
        Dim::Index(at) => check_evaluable(at, values),
        Dim::Span(range) => check_range(range, values),
    }
}

/// Stands before the first point of the ranges of parameters. `NoMemory` also where one of them has no end or more than
/// four, or a step below 1, or names a variable without a value.
pub fn checked_points(alloc: Global, params: &[(u32, Range)], env: &Env) -> Result<Points, NoMemory>
    ensures { IfOk result (λ points. points ≡ opening (ranges_of params.now) env.now.values) }
{
    check_ranges(params, env.values.as_slice())?;
    Points::of_parameters(alloc, params, env)
}

/// The values of the variables behind a transition, which takes each from the values before it.
pub fn values_behind(alloc: Global, exit: &Exit, values: &[i128]) -> Result<Vec<i128>, NoMemory>
    ensures { IfOk result (λ behind. behind.items ≡ with_variables (map (λ assignment. (assignment.0, affine_value values.now assignment.1)) exit.now.set) values.now) }
{
    let mut behind = values.to_vec(alloc)?;
    for (variable, expression) in exit.set.as_slice() {
        let value = value_of(expression, values)?;
        set_variable(&mut behind, *variable, value)?;
    }
    Ok(behind)
}
