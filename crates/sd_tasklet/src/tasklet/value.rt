ghost use Rattle.std.specs.Prelude.{◌≡◌, true, pos, IfOk, slice_index_or};
ghost use Rattle.sd_range.specs.Subset.{inside};
ghost use Rattle.sd_graph.specs.TreeFold.{value_tree, value_trees};
ghost use Rattle.sd_graph.specs.TaskletMeaning as meaning;
ghost use Rattle.sd_tasklet.specs.tasklet.Given.{given, told_inputs, IsWhole};
ghost use Rattle.sd_tasklet.specs.tasklet.Answer.{Answers};

use crate::tasklet::fault::TaskFault;
use crate::tasklet::inputs::Inputs;
use crate::tasklet::operator::{decides, holds, one_value, two_values};
use crate::tasklet::place::is_inside;
use sd_graph::Value;
use sd_list::Sequence;
use std::alloc::Global;

/// A value of a list; one that is not there counts as 0.
fn value_at(values: &[i64], place: u32) -> i64
    ensures { result ≡ slice_index_or values.now place (pos 0) }
{
    let place = place as usize;
    if place < values.len() {
        values[place]
    } else {
        0
    }
}

/// The value of an expression, from left to right.
#[cycle(values)]
pub fn value_of(
    alloc: Global,
    value: &Value,
    inputs: &Inputs,
    locals: &[i64],
) -> Result<i64, TaskFault>
    requires { IsWhole (given inputs.now) }
    ensures { (meant : meaning.Inputs) → told_inputs (given inputs.now) ≡ told_inputs meant → Answers result (meaning.value_of meant locals.now (value_tree value.now)) }
{
    match value {
        Value::Number(value) => Ok(*value),
        Value::Variable(place) => Ok(value_at(inputs.variables.as_slice(), *place)),
        Value::Local(number) => Ok(value_at(locals, *number)),
        Value::Input { connector, at } => {
            let at = place_of(alloc, *connector, at, inputs, locals)?;
            Ok(inputs.element(*connector, at.as_slice()))
        }
        Value::One { sign, of } => Ok(one_value(*sign, value_of(alloc, of, inputs, locals)?)),
        Value::Two { sign, left, right } => {
            let first = value_of(alloc, left, inputs, locals)?;
            if decides(*sign, first) {
                return Ok(first);
            }
            let second = value_of(alloc, right, inputs, locals)?;
            Ok(two_values(*sign, first, second)?)
        }
        Value::Choice { value, when, other } => {
            if holds(value_of(alloc, when, inputs, locals)?) {
                value_of(alloc, value, inputs, locals)
            } else {
                value_of(alloc, other, inputs, locals)
            }
        }
    }
}

/// The values of expressions, from left to right.
#[cycle(values)]
fn values_of(
    alloc: Global,
    values: &[Value],
    inputs: &Inputs,
    locals: &[i64],
) -> Result<Sequence<i64>, TaskFault>
    requires { IsWhole (given inputs.now) }
    ensures { (meant : meaning.Inputs) → told_inputs (given inputs.now) ≡ told_inputs meant → Answers result (meaning.values_of meant locals.now (value_trees values.now)) }
{
    let mut found = Vec::with_capacity(alloc, values.len())?;
    for value in values {
        found.push(value_of(alloc, value, inputs, locals)?)?;
    }
    Ok(Sequence::from(found))
}

/// A place in a connector: its subscripts, and then whether they are inside.
#[cycle(values)]
pub fn place_of(
    alloc: Global,
    connector: u32,
    at: &[Value],
    inputs: &Inputs,
    locals: &[i64],
) -> Result<Sequence<i64>, TaskFault>
    requires { IsWhole (given inputs.now) }
    ensures place { (meant : meaning.Inputs) → told_inputs (given inputs.now) ≡ told_inputs meant → Answers result (meaning.place_of meant connector (meaning.values_of meant locals.now (value_trees at.now))) }
    ensures inside { IfOk result (λ place. inside (meaning.extents_of_connector (given inputs.now) connector) place ≡ true) }
{
    let subscripts = values_of(alloc, at, inputs, locals)?;
    if !is_inside(inputs.extents_of(connector), subscripts.as_slice()) {
        return Err(TaskFault::Subscript);
    }
    Ok(subscripts)
}
