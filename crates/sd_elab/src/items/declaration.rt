//! What a block of a scope declares itself.
ghost use Rattle.std.specs.Prelude.{◌≡◌, IfOk, OnOk};
ghost use Rattle.sd_lex.specs.TreeFold.{statement_of, block_of};
ghost use Rattle.sd_elab.specs.items.NamesBehind.{own_of, table_behind};
ghost use Rattle.sd_task.specs.task.TableOf.{table_of};

use crate::items::count::containers_in;
use sd_lex::Statement;
use sd_list::NoMemory;
use sd_task::{Names, more};
use std::alloc::Global;

/// The name that a statement declares itself is in force, for the container of this number.
pub(crate) fn declare(
    alloc: Global,
    names: &mut Names,
    statement: &Statement,
    number: u32,
) -> Result<(), NoMemory>
    ensures { OnOk result (table_of names.new ≡ table_behind (statement_of statement.now) number (table_of names.old)) }
{
    match statement {
        Statement::Local { name, .. } | Statement::Stream { name, .. } => names
            .containers
            .push(String::from_str(alloc, name.as_str())?, number),
        _ => Ok(()),
    }
}

/// The numbers of the containers that a block declares itself, where its first one has this number.
pub(crate) fn own_containers(
    alloc: Global,
    body: &[Statement],
    first: u32,
) -> Result<Vec<u32>, NoMemory>
    ensures { IfOk result (λ own. own.items ≡ own_of (block_of body.now) first) }
{
    let mut own = Vec::new(alloc);
    let mut next = first;
    for statement in body {
        if let Statement::Local { .. } | Statement::Stream { .. } = statement {
            own.push(next)?;
        }
        next = more(next, containers_in(statement)?)?;
    }
    Ok(own)
}
