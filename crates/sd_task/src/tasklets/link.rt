ghost use Rattle.std.specs.Prelude.{◌≡◌, ◌++◌, OnOk};
ghost use Rattle.sd_lex.specs.TreeFold.{block_of};
ghost use Rattle.sd_program.specs.Bounds.{EachBound};
ghost use Rattle.sd_program.specs.Every.{EveryIn};
ghost use Rattle.sd_program.specs.Small.{IsSmall};
ghost use Rattle.sd_task.specs.in_force.SmallExtents.{HaveSmallExtents};
ghost use Rattle.sd_task.specs.task.TableOf.{table_of};
ghost use Rattle.sd_task.specs.tasklets.Item as definition;

use crate::task::{Names, memlet_link};
use sd_graph::Link;
use sd_lex::Statement;
use sd_list::NoMemory;
use std::alloc::Global;

/// The links of a tasklet's inputs, behind others.
pub fn push_inputs(
    alloc: Global,
    names: &Names,
    links: &mut Vec<Link>,
    body: &[Statement],
) -> Result<(), NoMemory>
    requires extents { HaveSmallExtents (table_of names.now).all }
    requires small { EveryIn (EachBound IsSmall) (block_of body.now) }
    ensures { OnOk result (links.new.items ≡ links.old.items ++ definition.inputs_of (table_of names.now) (block_of body.now)) }
{
    for statement in body {
        if let Statement::Input {
            connector,
            memlet,
            ..
        } = statement
        {
            links.push(memlet_link(alloc, names, connector.as_str(), memlet)?)?;
        }
    }
    Ok(())
}

/// The links of a tasklet's outputs, behind others.
pub fn push_outputs(
    alloc: Global,
    names: &Names,
    links: &mut Vec<Link>,
    body: &[Statement],
) -> Result<(), NoMemory>
    requires extents { HaveSmallExtents (table_of names.now).all }
    requires small { EveryIn (EachBound IsSmall) (block_of body.now) }
    ensures { OnOk result (links.new.items ≡ links.old.items ++ definition.outputs_of (table_of names.now) (block_of body.now)) }
{
    for statement in body {
        if let Statement::Output {
            connector,
            memlet,
            ..
        } = statement
        {
            links.push(memlet_link(alloc, names, connector.as_str(), memlet)?)?;
        }
    }
    Ok(())
}
