ghost use Rattle.std.specs.Prelude.{◌≡◌, ◌≤◌, ◌<◌, true, length, slice_set, IfOk, OnOk};
ghost use Rattle.std.specs.List.{AllByRecursion};
ghost use Rattle.sd_range.specs.Subset.{inside};
ghost use Rattle.sd_graph.specs.TreeFold.{act_tree, act_trees, value_tree, value_trees};
ghost use Rattle.sd_graph.specs.TaskletMeaning as meaning;
ghost use Rattle.sd_tasklet.specs.tasklet.Given.{given, told_inputs, IsWhole};
ghost use Rattle.sd_tasklet.specs.tasklet.Kept.{IsFilled, told, come_to, assignment_of};
ghost use Rattle.sd_tasklet.specs.tasklet.Answer.{AnswersBy, AnswersWith};

use crate::tasklet::effect::Effect;
use crate::tasklet::fault::TaskFault;
use crate::tasklet::inputs::Inputs;
use crate::tasklet::operator::holds;
use crate::tasklet::place::filled;
use crate::tasklet::value::{place_of, value_of};
use sd_graph::{Act, Value};
use std::alloc::Global;

/// Sets a value of a list; one that is not there stays away.
fn set_at(values: &mut [i64], place: u32, value: i64)
    ensures { values.new ≡ slice_set values.old place value }
{
    let place = place as usize;
    if place < values.len() {
        values[place] = value;
    }
}

/// One assignment to an output connector.
fn assign(
    alloc: Global,
    connector: u32,
    at: &[Value],
    value: &Value,
    inputs: &Inputs,
    locals: &[i64],
) -> Result<Effect, TaskFault>
    requires { IsWhole (given inputs.now) }
    ensures meaning { (meant : meaning.Inputs) → told_inputs (given inputs.now) ≡ told_inputs meant → AnswersWith (told (given inputs.now)) result (assignment_of meant locals.now connector (value_trees at.now) (value_tree value.now)) }
    ensures filled { IfOk result (IsFilled (given inputs.now)) }
{
    let place = place_of(alloc, connector, at, inputs, locals)?;
    let value = value_of(alloc, value, inputs, locals)?;
    Ok(Effect {
        connector,
        at: filled(place.as_slice()),
        value,
    })
}

/// A statement: what the locals and the effects are after it.
#[cycle(acts)]
fn do_act(
    alloc: Global,
    act: &Act,
    inputs: &Inputs,
    locals: &mut [i64],
    effects: &mut Vec<Effect>,
) -> Result<(), TaskFault>
    requires { IsWhole (given inputs.now) }
    ensures meaning { (meant : meaning.Inputs) → told_inputs (given inputs.now) ≡ told_inputs meant
        → AnswersBy (come_to (given inputs.now) locals.new effects.new.items) result (meaning.act_of meant (act_tree act.now) (come_to (given inputs.now) locals.old effects.old.items)) }
    ensures filled { OnOk result (AllByRecursion (IsFilled (given inputs.now)) effects.old.items → AllByRecursion (IsFilled (given inputs.now)) effects.new.items) }
{
    match act {
        Act::Local { local, value } => {
            let value = value_of(alloc, value, inputs, locals)?;
            set_at(locals, *local, value);
            Ok(())
        }
        Act::Out {
            connector,
            at,
            value,
        } => {
            effects.push(assign(alloc, *connector, at, value, inputs, locals)?)?;
            Ok(())
        }
        Act::When { when, body, other } => {
            if holds(value_of(alloc, when, inputs, locals)?) {
                do_acts(alloc, body, inputs, locals, effects)
            } else {
                do_acts(alloc, other, inputs, locals, effects)
            }
        }
    }
}

/// Statements one after another.
#[cycle(acts)]
pub fn do_acts(
    alloc: Global,
    acts: &[Act],
    inputs: &Inputs,
    locals: &mut [i64],
    effects: &mut Vec<Effect>,
) -> Result<(), TaskFault>
    requires { IsWhole (given inputs.now) }
    ensures meaning { (meant : meaning.Inputs) → told_inputs (given inputs.now) ≡ told_inputs meant
        → AnswersBy (come_to (given inputs.now) locals.new effects.new.items) result (meaning.acts_of meant (act_trees acts.now) (come_to (given inputs.now) locals.old effects.old.items)) }
    ensures filled { OnOk result (AllByRecursion (IsFilled (given inputs.now)) effects.old.items → AllByRecursion (IsFilled (given inputs.now)) effects.new.items) }
{
    for act in acts {
        do_act(alloc, act, inputs, locals, effects)?;
    }
    Ok(())
}
