ghost use Rattle.std.specs.Prelude.{◌≡◌, ◌++◌, map, IfOk, OnOk};
ghost use Rattle.sd_num.specs.Wrapped.{wrapped};
ghost use Rattle.sd_range.specs.Affine.{variable_value};
ghost use Rattle.sd_graph.specs.PlainTree.{GraphTree};
ghost use Rattle.sd_graph.specs.TreeFold.{tasklet_tree};
ghost use Rattle.sd_graph.specs.TaskletMeaning.{Inputs as InputsNow, meaning_of};
ghost use Rattle.sd_graph.specs.Context.{link_extents};
ghost use Rattle.sd_tasklet.specs.tasklet.Given.{given, told_extent, told_inputs};
ghost use Rattle.sd_tasklet.specs.tasklet.Kept.{told_effects};
ghost use Rattle.sd_scope.specs.scope.Standing.{context_of};
ghost use Rattle.sd_scope.specs.declared.scope.base.Base.{Base as BaseNow};
ghost use Rattle.sd_leaves.specs.leaves.Given.{given_at, told_by};

use sd_graph::{FaultKind, Link, Tasklet};
use sd_list::{NoMemory, Sequence};
use sd_num::element_of;
use sd_range::Env;
use sd_scope::{Scope, connector_extents};
use sd_tasklet::{Effects, Inputs, TaskFault, eval};
use std::alloc::Global;

/// What code with these connectors is given where a scope stands: these elements of its inputs, the extents of its connectors
/// and the values of its variables. An extent above 2^63 is given as 2^63, which no subscript can tell apart.
pub fn inputs_of(
    alloc: Global,
    code: &Tasklet,
    ins: &[Link],
    outs: &[Link],
    scope: &Scope,
    read: Sequence<Sequence<i64>>,
) -> Result<Inputs, NoMemory>
    ensures { IfOk result (λ inputs. (tree : GraphTree) (base : BaseNow) → given inputs ≡ told_inputs (given_at (context_of tree base scope.now) (tasklet_tree code.now) ins.now outs.now read)) }
{
    let mut extents = Vec::with_capacity(alloc, ins.len())?;
    push_extents(alloc, ins, scope, &mut extents)?;
    push_extents(alloc, outs, scope, &mut extents)?;
    Ok(Inputs {
        values: read,
        extents: Sequence::from(extents),
        variables: values_of_variables(alloc, code.variables.as_slice(), &scope.values)?,
    })
}

/// Appends the extents of each connector, as code may be given them.
fn push_extents(
    alloc: Global,
    links: &[Link],
    scope: &Scope,
    extents: &mut Vec<Sequence<u64>>,
) -> Result<(), NoMemory>
    ensures { OnOk result ((tree : GraphTree) (base : BaseNow) → extents.new.items ≡ extents.old.items ++ map (λ link. map told_extent (link_extents (context_of tree base scope.now) link)) links.now) }
{
    for link in links {
        let of_link = connector_extents(alloc, scope, link)?;
        extents.push(told_extents(alloc, of_link.as_slice())?)?;
    }
    Ok(())
}

/// Extents as code may be given them.
fn told_extents(alloc: Global, extents: &[u128]) -> Result<Sequence<u64>, NoMemory>
    ensures { IfOk result (λ told. told ≡ map told_extent extents.now) }
{
    let mut told = Vec::with_capacity(alloc, extents.len())?;
    for extent in extents {
        told.push(told_extent(*extent))?;
    }
    Ok(Sequence::from(told))
}

/// An extent as code may be given it: one above 2^63 as 2^63.
fn told_extent(extent: u128) -> u64
    ensures { result ≡ told_extent extent }
{
    extent.min(1 << 63) as u64
}

/// The values of variables, as elements.
fn values_of_variables(
    alloc: Global,
    variables: &[u32],
    values: &Env,
) -> Result<Sequence<i64>, NoMemory>
    ensures { IfOk result (λ all. all ≡ map (λ variable. wrapped (variable_value values.now.values variable)) variables.now) }
{
    let mut all = Vec::with_capacity(alloc, variables.len())?;
    for variable in variables {
        all.push(value_of_variable(*variable, values))?;
    }
    Ok(Sequence::from(all))
}

/// The value of a variable, as an element; one that has none counts as 0.
fn value_of_variable(variable: u32, values: &Env) -> i64
    ensures { result ≡ wrapped (variable_value values.now.values variable) }
{
    match values.values.as_slice().get(variable as usize) {
        Some(value) => element_of(*value),
        None => 0,
    }
}

/// The effects of code, or its fault, also where extents of 2^63 stand for larger ones. `NoMemory` also where an input has not its
/// elements or a connector too many dimensions.
pub fn evaluated(
    alloc: Global,
    code: &Tasklet,
    inputs: &Inputs,
) -> Result<Result<Effects, FaultKind>, NoMemory>
    ensures { IfOk result (λ answer. (meant : InputsNow) → told_inputs (given inputs.now) ≡ told_inputs meant → meaning_of (tasklet_tree code.now) meant ≡ told_by (told_effects (given inputs.now)) answer) }
{
    if !inputs.is_whole() {
        return Err(NoMemory);
    }
    match eval(alloc, code, inputs) {
        Ok(effects) => Ok(Ok(effects)),
        Err(TaskFault::Division) => Ok(Err(FaultKind::Division)),
        Err(TaskFault::Subscript) => Ok(Err(FaultKind::Subscript)),
        Err(TaskFault::Memory) => Err(NoMemory),
    }
}
