//! The names in the code of a tasklet or condition.
ghost use Rattle.std.specs.Prelude.{◌≡◌, [], slice_get, IfOk, OnOk};
ghost use Rattle.sd_graph.specs.TreeFold.{act_tree, act_trees, tasklet_tree, value_tree, value_trees};
ghost use Rattle.sd_validity.specs.rules.CodeNames as names;

use sd_graph::{Act, Port, Tasklet, Value};
use sd_list::NoMemory;
use sd_places::{given, has_number};
use std::alloc::Global;

/// Whether there is a connector at a place of a list, with so many dimensions.
fn has_dims(ports: &[Port], place: usize, count: usize) -> bool
    ensures { result ≡ names.has_dims (slice_get ports.now place) count }
{
    match ports.get(place) {
        Some(port) => port.dims as usize == count,
        None => false,
    }
}

/// Whether code has an input of a number, which is named with these subscripts.
#[tactic(auto, using(crate::proofs::Counted::values_counted))]
fn is_input(code: &Tasklet, connector: u32, at: &[Value]) -> bool
    ensures { result ≡ names.is_input (tasklet_tree code.now) connector (names.count_values (value_trees at.now)) }
{
    has_dims(code.ins.as_slice(), connector as usize, at.len())
}

/// Whether it has an output of a number; outputs have the numbers behind those of the inputs.
#[tactic(auto, using(crate::proofs::Counted::values_counted))]
fn is_output(code: &Tasklet, connector: u32, at: &[Value]) -> bool
    ensures { result ≡ names.is_output (tasklet_tree code.now) connector (names.count_values (value_trees at.now)) }
{
    match (connector as usize).checked_sub(code.ins.len()) {
        Some(place) => has_dims(code.outs.as_slice(), place, at.len()),
        None => false,
    }
}

/// Whether an expression names variables and inputs that the code has, and locals that are in force.
#[cycle(values)]
fn is_value_known(code: &Tasklet, locals: &[u32], value: &Value) -> bool
    ensures { result ≡ names.is_value_known (tasklet_tree code.now) locals.now (value_tree value.now) }
{
    match value {
        Value::Number(_) => true,
        Value::Variable(place) => (*place as usize) < code.variables.len(),
        Value::Local(number) => has_number(locals, *number),
        Value::Input { connector, at } => {
            is_input(code, *connector, at) && are_values_known(code, locals, at)
        }
        Value::One { of, .. } => is_value_known(code, locals, of),
        Value::Two { left, right, .. } => {
            is_value_known(code, locals, left) && is_value_known(code, locals, right)
        }
        Value::Choice { value, when, other } => {
            is_value_known(code, locals, value)
                && is_value_known(code, locals, when)
                && is_value_known(code, locals, other)
        }
    }
}

#[cycle(values)]
fn are_values_known(code: &Tasklet, locals: &[u32], all: &[Value]) -> bool
    ensures { result ≡ names.are_values_known (tasklet_tree code.now) locals.now (value_trees all.now) }
{
    for value in all {
        if !is_value_known(code, locals, value) {
            return false;
        }
    }
    true
}

/// Adds the local that a statement gives a value, if it is such a statement.
fn push_local(act: &Act, locals: &mut Vec<u32>) -> Result<(), NoMemory>
    ensures { OnOk result (locals.new.items ≡ names.locals_behind (act_tree act.now) locals.old.items) }
{
    match act {
        Act::Local { local, .. } => Ok(locals.push(*local)?),
        Act::Out { .. } | Act::When { .. } => Ok(()),
    }
}

/// Whether a statement names what the code has, and locals that are in force.
#[cycle(acts)]
fn is_act_known(alloc: Global, code: &Tasklet, locals: &[u32], act: &Act) -> Result<bool, NoMemory>
    ensures { IfOk result (λ is. is ≡ names.is_act_known (tasklet_tree code.now) locals.now (act_tree act.now)) }
{
    match act {
        Act::Local { local, value } => {
            Ok(*local < code.locals && is_value_known(code, locals, value))
        }
        Act::Out {
            connector,
            at,
            value,
        } => Ok(
            is_output(code, *connector, at)
                && are_values_known(code, locals, at)
                && is_value_known(code, locals, value),
        ),
        Act::When { when, body, other } => {
            if !is_value_known(code, locals, when) {
                return Ok(false);
            }
            if !are_acts_known(alloc, code, locals, body)? {
                return Ok(false);
            }
            are_acts_known(alloc, code, locals, other)
        }
    }
}

/// Whether the statements of a block do; a local is in force from its statement to the block's end.
#[cycle(acts)]
fn are_acts_known(
    alloc: Global,
    code: &Tasklet,
    locals: &[u32],
    acts: &[Act],
) -> Result<bool, NoMemory>
    ensures { IfOk result (λ are. are ≡ names.are_acts_known (tasklet_tree code.now) locals.now (act_trees acts.now)) }
{
    let mut in_force = locals.to_vec(alloc)?;
    for act in acts {
        if !is_act_known(alloc, code, in_force.as_slice(), act)? {
            return Ok(false);
        }
        push_local(act, &mut in_force)?;
    }
    Ok(true)
}

/// Whether code names what it has.
pub(crate) fn is_code_known(alloc: Global, code: &Tasklet) -> Result<bool, NoMemory>
    ensures { IfOk result (λ is. is ≡ names.is_code_known (tasklet_tree code.now)) }
{
    are_acts_known(alloc, code, &[], &code.body)
}

/// Whether code is one assignment to its one output, a scalar.
pub(crate) fn is_one_value(code: &Tasklet) -> bool
    ensures { result ≡ names.is_one_value (tasklet_tree code.now) }
{
    code.outs.len() == 1 && given(&code.body).is_some()
}
