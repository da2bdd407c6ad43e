//! What the items of statements are that are no scopes.
ghost use Rattle.std.specs.Prelude.{◌≡◌, option_map, IfOk};
ghost use Rattle.sd_lex.specs.TreeFold.{statement_of};
ghost use Rattle.sd_graph.specs.TreeFold.{kind_tree};
ghost use Rattle.sd_program.specs.Bounds.{EachBound};
ghost use Rattle.sd_program.specs.Every.{Every};
ghost use Rattle.sd_program.specs.Small.{IsSmall};
ghost use Rattle.sd_task.specs.in_force.SmallExtents.{HaveSmallExtents};
ghost use Rattle.sd_task.specs.task.TableOf.{table_of};
ghost use Rattle.sd_elab.specs.items.Graphs.{graph_named};
ghost use Rattle.sd_elab.specs.items.GraphsByNumber.{graphs_of};
ghost use Rattle.sd_elab.specs.items.Kinds as kinds;

use crate::items::call::call;
use crate::items::graphs::Graphs;
use crate::items::simple::{copy, reduction};
use sd_graph::ItemKind;
use sd_lex::Statement;
use sd_list::NoMemory;
use sd_task::{Names, element_task, tasklet_item};
use std::alloc::Global;

/// A copy or a reduction, if the statement is one.
fn moving_kind(
    alloc: Global,
    names: &Names,
    statement: &Statement,
) -> Result<Option<ItemKind>, NoMemory>
    requires extents { HaveSmallExtents (table_of names.now).all }
    requires small { Every (EachBound IsSmall) (statement_of statement.now) }
    ensures { IfOk result (λ kind. option_map kind_tree kind ≡ kinds.moving_kind (table_of names.now) (statement_of statement.now)) }
{
    let kind = match statement {
        Statement::Copy {
            to,
            to_dims,
            from,
            from_dims,
            ..
        } => copy(alloc, names, to.as_str(), to_dims, from.as_str(), from_dims)?,
        Statement::Reduce {
            lambda,
            from,
            to,
            axis,
            identity,
            ..
        } => reduction(
            alloc,
            names,
            *lambda,
            from.as_str(),
            to.as_str(),
            *axis,
            *identity,
        )?,
        _ => return Ok(None),
    };
    Ok(Some(kind))
}

/// What the item of a statement that is no scope is, if it has one.
pub(crate) fn leaf_kind(
    alloc: Global,
    graphs: &Graphs,
    names: &Names,
    in_scope: bool,
    statement: &Statement,
) -> Result<Option<ItemKind>, NoMemory>
    requires extents { HaveSmallExtents (table_of names.now).all }
    requires small { Every (EachBound IsSmall) (statement_of statement.now) }
    ensures { IfOk result (λ kind. option_map kind_tree kind ≡ kinds.leaf_kind (graph_named (graphs_of graphs.now)) (table_of names.now) in_scope (statement_of statement.now)) }
{
    match statement {
        Statement::Assign {
            name,
            at,
            add,
            value,
            ..
        } => Ok(Some(element_task(alloc, names, in_scope, name.as_str(), at, *add, value)?)),
        Statement::Tasklet { body, .. } => Ok(Some(tasklet_item(alloc, names, body)?)),
        Statement::Call {
            name,
            arguments,
            ..
        } => { Ok(Some(call(alloc, graphs, names, name.as_str(), arguments)?)) }
        _ => moving_kind(alloc, names, statement),
    }
}
