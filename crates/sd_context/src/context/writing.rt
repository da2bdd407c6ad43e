//! Which containers a line writes.
ghost use Rattle.std.specs.Prelude.{◌≡◌, OnOk, map};
ghost use Rattle.sd_lex.specs.TreeFold.{statement_of, call_argument_of};
ghost use Rattle.sd_line.specs.line.HeadFold.{head_tree};
ghost use Rattle.sd_names.specs.Names.{signature_by, meaning_of};
ghost use Rattle.sd_context.specs.context.Writing as definition;

use sd_lex::{Slot, Statement};
use sd_line::Head;
use sd_list::NoMemory;
use sd_names::{NameSet, Names, Parameter};
use std::alloc::Global;

/// Notes the arguments that stand for parameters which are written.
fn note_arguments(
    alloc: Global,
    written: &mut NameSet,
    arguments: &[(String, Vec<Slot>)],
    parameters: &[Parameter],
) -> Result<(), NoMemory>
    ensures { OnOk result (written.new ≡ definition.noted_all written.old (definition.written_arguments (map call_argument_of arguments.now) parameters.now)) }
{
    let mut left = parameters;
    for (name, dimensions) in arguments {
        match left {
            [parameter, rest @ ..] => {
                if parameter.is_written {
                    written.note(alloc, name)?;
                }
                left = rest;
            }
            [] => return Ok(()),
        }
    }
    Ok(())
}

/// Notes the containers that a call of the program writes.
fn note_call(
    alloc: Global,
    names: &Names,
    written: &mut NameSet,
    name: &str,
    arguments: &[(String, Vec<Slot>)],
) -> Result<(), NoMemory>
    ensures { OnOk result (written.new ≡ definition.noted_all written.old (definition.written_by_call (map call_argument_of arguments.now) (signature_by (meaning_of names.now name.now)))) }
{
    match names.signature(name) {
        Some(signature) => note_arguments(
            alloc,
            written,
            arguments,
            signature.parameters.as_slice(),
        ),
        None => Ok(()),
    }
}

fn note_statement(
    alloc: Global,
    names: &Names,
    written: &mut NameSet,
    statement: &Statement,
) -> Result<(), NoMemory>
    ensures { OnOk result (written.new ≡ definition.noted_all written.old (definition.statement_writes names.now (statement_of statement.now))) }
{
    match statement {
        Statement::Assign { name, .. } => written.note(alloc, name),
        Statement::Copy { to, .. } => written.note(alloc, to),
        Statement::Call {
            name,
            arguments,
            ..
        } => note_call(alloc, names, written, name, arguments),
        _ => Ok(()),
    }
}

/// Notes what a line writes; where a program begins, nothing is written.
pub fn note_written(
    alloc: Global,
    names: &Names,
    written: &mut NameSet,
    head: &Head,
) -> Result<(), NoMemory>
    ensures { OnOk result (written.new ≡ definition.written_behind names.now written.old (head_tree head.now)) }
{
    match head {
        Head::Program { .. } => {
            *written = NameSet::new(alloc);
            Ok(())
        }
        Head::Statement(statement) => note_statement(alloc, names, written, statement),
        Head::Reduce { to, .. } => written.note(alloc, to),
        Head::Output { memlet, .. } => written.note(alloc, &memlet.name),
        _ => Ok(()),
    }
}
