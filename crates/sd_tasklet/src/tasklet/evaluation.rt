ghost use Rattle.std.specs.Prelude.{◌≡◌, Ok, IfOk};
ghost use Rattle.std.specs.List.{AllByRecursion};
ghost use Rattle.sd_graph.specs.TreeFold.{tasklet_tree};
ghost use Rattle.sd_graph.specs.TaskletMeaning.{Inputs as InputsNow, meaning_of};
ghost use Rattle.sd_tasklet.specs.tasklet.Given.{given, told_inputs, IsWhole};
ghost use Rattle.sd_tasklet.specs.tasklet.Kept.{IsFilled, told_effects};
ghost use Rattle.sd_tasklet.specs.tasklet.Answer.{AnswersWith};

use crate::tasklet::effect::Effects;
use crate::tasklet::fault::TaskFault;
use crate::tasklet::inputs::Inputs;
use crate::tasklet::progress::do_acts;
use sd_graph::Tasklet;
use sd_list::Sequence;
use std::alloc::Global;

/// The effects of a tasklet in the order in which they are assigned, or its first fault.
///
/// A local is 0 until it is set. A variable, a connector or a local that the code names and that
/// is not there counts as 0, and a place in such a connector is that of a scalar. An extent above
/// 2^63 may be given as 2^63: the answer is what the code means with the extent itself.
pub fn eval(alloc: Global, code: &Tasklet, inputs: &Inputs) -> Result<Effects, TaskFault>
    requires { IsWhole (given inputs.now) }
    ensures meaning { (meant : InputsNow) → told_inputs (given inputs.now) ≡ told_inputs meant → AnswersWith (told_effects (given inputs.now)) result (meaning_of (tasklet_tree code.now) meant) }
    ensures filled { IfOk result (λ effects. AllByRecursion (IsFilled (given inputs.now)) effects.list) }
{
    let mut locals = vec![in alloc; 0i64; code.locals as usize]?;
    let mut effects = Vec::new(alloc);
    do_acts(alloc, &code.body, inputs, &mut locals, &mut effects)?;
    Ok(Effects {
        list: Sequence::from(effects),
    })
}
