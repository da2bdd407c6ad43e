ghost use Rattle.std.specs.Prelude.{◌≡◌, map, string_bytes, IfOk, OnOk};
ghost use Rattle.sd_lex.specs.TreeFold.{statement_of, block_of, function_of};
ghost use Rattle.sd_program.specs.DeclaredNames as definition;

use crate::containers::name_list::push_name;
use sd_lex::{Function, Statement, has_connector};
use sd_list::NoMemory;
use std::alloc::Global;

/// Adds the names of the containers that a statement declares. The element of a consume scope
/// that is one tasklet is none of them.
#[cycle(declared)]
fn push_of_statement(
    alloc: Global,
    names: &mut Vec<String>,
    statement: &Statement,
) -> Result<(), NoMemory>
    ensures { OnOk result (map string_bytes names.new.items ≡ definition.declared_names (statement_of statement.now) (map string_bytes names.old.items)) }
{
    match statement {
        Statement::Argument { name, .. }
        | Statement::Local { name, .. }
        | Statement::Stream { name, .. } => push_name(alloc, names, name.as_str()),
        Statement::Consume { element, body, .. } => {
            if has_connector(body) {
                return Ok(());
            }
            push_name(alloc, names, element.as_str())?;
            push_of_block(alloc, names, body)
        }
        Statement::Map { body, .. } | Statement::For { body, .. } | Statement::While { body, .. } =>
            push_of_block(alloc, names, body),
        Statement::If { body, other, .. } => {
            push_of_block(alloc, names, body)?;
            push_of_block(alloc, names, other)
        }
        _ => Ok(()),
    }
}

/// Adds the names of the containers that a block declares.
#[cycle(declared)]
fn push_of_block(alloc: Global, names: &mut Vec<String>, body: &[Statement]) -> Result<(), NoMemory>
    ensures { OnOk result (map string_bytes names.new.items ≡ definition.declared_names_all (block_of body.now) (map string_bytes names.old.items)) }
{
    for statement in body {
        push_of_statement(alloc, names, statement)?;
    }
    Ok(())
}

/// The names of the containers that a function declares, those of its arguments first.
pub(crate) fn container_names(alloc: Global, function: &Function) -> Result<Vec<String>, NoMemory>
    ensures { IfOk result (λ names. map string_bytes names.items ≡ definition.container_names (function_of function.now)) }
{
    let mut names = Vec::new(alloc);
    push_of_block(alloc, &mut names, &function.arguments)?;
    push_of_block(alloc, &mut names, &function.body)?;
    Ok(names)
}
