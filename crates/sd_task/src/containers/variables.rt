ghost use Rattle.std.specs.Prelude.{◌≡◌, map, string_bytes, IfOk, OnOk};
ghost use Rattle.sd_lex.specs.TreeFold.{statement_of, block_of};
ghost use Rattle.sd_task.specs.containers.Declarations as definition;

use crate::containers::name_list::{push_name, push_names};
use sd_lex::Statement;
use sd_list::NoMemory;
use std::alloc::Global;

/// Adds the names of a statement's variables, in the order of the text.
#[cycle(names)]
fn push_of_statement(
    alloc: Global,
    names: &mut Vec<String>,
    statement: &Statement,
) -> Result<(), NoMemory>
    ensures { OnOk result (map string_bytes names.new.items ≡ definition.variable_names (statement_of statement.now) (map string_bytes names.old.items)) }
{
    match statement {
        Statement::Map { params, body, .. } => {
            push_names(alloc, names, params)?;
            push_of_block(alloc, names, body)
        }
        Statement::For { name, body, .. } => {
            push_name(alloc, names, name.as_str())?;
            push_of_block(alloc, names, body)
        }
        Statement::Consume { body, .. } | Statement::While { body, .. } => {
            push_of_block(alloc, names, body)
        }
        Statement::If { body, other, .. } => {
            push_of_block(alloc, names, body)?;
            push_of_block(alloc, names, other)
        }
        _ => Ok(()),
    }
}

/// Adds the names of a block's variables.
#[cycle(names)]
fn push_of_block(alloc: Global, names: &mut Vec<String>, body: &[Statement]) -> Result<(), NoMemory>
    ensures { OnOk result (map string_bytes names.new.items ≡ definition.variable_names_all (block_of body.now) (map string_bytes names.old.items)) }
{
    for statement in body {
        push_of_statement(alloc, names, statement)?;
    }
    Ok(())
}

/// The names of a program's variables by number: its size symbols, and then those of its body.
pub fn variable_names(
    alloc: Global,
    symbols: &[String],
    body: &[Statement],
) -> Result<Vec<String>, NoMemory>
    ensures { IfOk result (λ names. map string_bytes names.items ≡ definition.variable_names_all (block_of body.now) (map string_bytes symbols.now)) }
{
    let mut names = Vec::new(alloc);
    push_names(alloc, &mut names, symbols)?;
    push_of_block(alloc, &mut names, body)?;
    Ok(names)
}
