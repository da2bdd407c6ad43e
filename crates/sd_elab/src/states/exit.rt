ghost use Rattle.std.specs.Prelude.{◌≡◌, [], ◌∷◌, IfOk};
ghost use Rattle.sd_graph.specs.TreeFold.{exit_tree, guard_tree};
ghost use Rattle.sd_elab.specs.states.Exits as definition;

use sd_graph::{Exit, Guard};
use sd_list::{NoMemory, Sequence};
use sd_range::Affine;
use std::alloc::Global;

/// A plain transition.
pub(crate) fn plainly(alloc: Global, to: u32) -> Exit
    ensures { exit_tree result ≡ definition.plainly to }
{
    Exit {
        to,
        back: false,
        when: None,
        set: Sequence::new(alloc),
    }
}

/// A transition that sets a variable.
pub(crate) fn setting(
    alloc: Global,
    to: u32,
    variable: u32,
    value: Affine,
) -> Result<Exit, NoMemory>
    ensures { IfOk result (λ exit. exit_tree exit ≡ definition.setting to variable value) }
{
    Ok(Exit {
        to,
        back: false,
        when: None,
        set: Sequence::from(vec![in alloc; (variable, value)]?),
    })
}

/// A transition where a condition holds.
pub(crate) fn if_holds(alloc: Global, guard: Guard, to: u32) -> Exit
    ensures { exit_tree result ≡ definition.if_holds (guard_tree guard) to }
{
    Exit {
        to,
        back: false,
        when: Some(guard),
        set: Sequence::new(alloc),
    }
}

/// A marked transition that sets nothing.
pub(crate) fn back_to(alloc: Global, to: u32) -> Exit
    ensures { exit_tree result ≡ definition.back_to to [] }
{
    Exit {
        to,
        back: true,
        when: None,
        set: Sequence::new(alloc),
    }
}

/// A loop variable plus its step.
fn stepped_on(alloc: Global, variable: u32, step: Option<i64>) -> Result<Affine, NoMemory>
    ensures { IfOk result (λ value. value ≡ definition.stepped_on variable step) }
{
    let mut value = Affine::variable(alloc, variable)?;
    value.constant = i128::from(step.unwrap_or(1));
    Ok(value)
}

/// A marked transition that steps a loop variable on.
pub(crate) fn step_back(
    alloc: Global,
    to: u32,
    variable: u32,
    step: Option<i64>,
) -> Result<Exit, NoMemory>
    ensures { IfOk result (λ exit. exit_tree exit ≡ definition.back_to to ((variable, definition.stepped_on variable step) ∷ [])) }
{
    let value = stepped_on(alloc, variable, step)?;
    Ok(Exit {
        to,
        back: true,
        when: None,
        set: Sequence::from(vec![in alloc; (variable, value)]?),
    })
}
