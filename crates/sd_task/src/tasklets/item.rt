ghost use Rattle.std.specs.Prelude.{◌≡◌, IfOk};
ghost use Rattle.sd_graph.specs.TreeFold.{kind_tree, tasklet_tree};
ghost use Rattle.sd_lex.specs.TreeFold.{block_of};
ghost use Rattle.sd_program.specs.Bounds.{EachBound};
ghost use Rattle.sd_program.specs.Every.{EveryIn};
ghost use Rattle.sd_program.specs.Small.{IsSmall};
ghost use Rattle.sd_task.specs.in_force.SmallExtents.{HaveSmallExtents};
ghost use Rattle.sd_task.specs.task.TableOf.{table_of};
ghost use Rattle.sd_task.specs.tasklets.Item as definition;

use crate::in_force::Scope;
use crate::task::{Names, ports};
use crate::tasklet_names::{Connectors, Locals, used_variables};
use crate::tasklets::act::acts;
use crate::tasklets::link::{push_inputs, push_outputs};
use sd_graph::{ItemKind, Link, Tasklet};
use sd_lex::Statement;
use sd_list::NoMemory;
use std::alloc::Global;

/// The code of a tasklet with these links.
fn code(
    alloc: Global,
    variables: &Scope,
    ins: &[Link],
    outs: &[Link],
    body: &[Statement],
) -> Result<Tasklet, NoMemory>
    ensures { IfOk result (λ code. tasklet_tree code ≡ definition.code_with variables.now ins.now outs.now (block_of body.now)) }
{
    let connectors = Connectors::new(alloc, ins, outs)?;
    let used = used_variables(alloc, variables, &connectors, body)?;
    let mut locals = Locals::new(alloc);
    let body = acts(alloc, variables, &connectors, &mut locals, &used, body)?;
    Ok(Tasklet {
        ins: ports(alloc, ins)?,
        outs: ports(alloc, outs)?,
        variables: used.as_slice().to_vec(alloc)?,
        locals: locals.next,
        body,
    })
}

/// The item of a tasklet with these links.
pub fn task_with(
    alloc: Global,
    names: &Names,
    ins: Vec<Link>,
    outs: Vec<Link>,
    body: &[Statement],
) -> Result<ItemKind, NoMemory>
    ensures { IfOk result (λ kind. kind_tree kind ≡ definition.task_with (table_of names.now) ins.items outs.items (block_of body.now)) }
{
    let code = code(alloc, &names.variables, &ins, &outs, body)?;
    Ok(ItemKind::Task { code, ins, outs })
}

/// The item of `with dace.tasklet:` and its block.
pub fn tasklet_item(alloc: Global, names: &Names, body: &[Statement]) -> Result<ItemKind, NoMemory>
    requires extents { HaveSmallExtents (table_of names.now).all }
    requires small { EveryIn (EachBound IsSmall) (block_of body.now) }
    ensures { IfOk result (λ kind. kind_tree kind ≡ definition.tasklet_item (table_of names.now) (block_of body.now)) }
{
    let mut ins = Vec::new(alloc);
    push_inputs(alloc, names, &mut ins, body)?;
    let mut outs = Vec::new(alloc);
    push_outputs(alloc, names, &mut outs, body)?;
    task_with(alloc, names, ins, outs, body)
}
