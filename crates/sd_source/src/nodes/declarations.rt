ghost use Rattle.std.specs.Prelude.{◌≡◌, [], IfOk, OnOk};
ghost use Rattle.sd_lex.specs.TreeFold.{statement_of, block_of};
ghost use Rattle.sd_source.specs.nodes.Names.{noted};
ghost use Rattle.sd_source.specs.nodes.SourceItems.{declared_by, with_locals};
ghost use Rattle.sd_source.specs.nodes.SourceNodes.{with_declared, with_all_declared};

use crate::nodes::name_set::NameSet;
use sd_lex::Statement;
use sd_list::NoMemory;
use std::alloc::Global;

/// The containers that a scope's body declares.
pub fn locals_of(alloc: Global, body: &[Statement]) -> Result<NameSet, NoMemory>
    ensures { IfOk result (λ names. names ≡ with_locals [] (block_of body.now)) }
{
    let mut names = NameSet::new(alloc);
    for statement in body {
        note_declaration(alloc, statement, &mut names)?;
    }
    Ok(names)
}

/// Notes the containers that are declared, in loops and branches too, those of scopes aside.
#[cycle(declared)]
pub fn note_all_declared(
    alloc: Global,
    body: &[Statement],
    names: &mut NameSet,
) -> Result<(), NoMemory>
    ensures { OnOk result (names.new ≡ with_all_declared names.old (block_of body.now)) }
{
    for statement in body {
        note_declared(alloc, statement, names)?;
    }
    Ok(())
}

#[cycle(declared)]
fn note_declared(alloc: Global, statement: &Statement, names: &mut NameSet) -> Result<(), NoMemory>
    ensures { OnOk result (names.new ≡ with_declared names.old (statement_of statement.now)) }
{
    match statement {
        Statement::For { body, .. } | Statement::While { body, .. } => {
            note_all_declared(alloc, body, names)
        }
        Statement::If { body, other, .. } => {
            note_all_declared(alloc, body, names)?;
            note_all_declared(alloc, other, names)
        }
        Statement::Argument { .. }
        | Statement::Local { .. }
        | Statement::Stream { .. }
        | Statement::Assign { .. }
        | Statement::Copy { .. }
        | Statement::Reduce { .. }
        | Statement::Map { .. }
        | Statement::Tasklet { .. }
        | Statement::Consume { .. }
        | Statement::Call { .. }
        | Statement::Input { .. }
        | Statement::Output { .. }
        | Statement::Set { .. }
        | Statement::SetAt { .. }
        | Statement::When { .. } => note_declaration(alloc, statement, names),
    }
}

/// Notes the container that a statement declares.
fn note_declaration(
    alloc: Global,
    statement: &Statement,
    names: &mut NameSet,
) -> Result<(), NoMemory>
    ensures { OnOk result (names.new ≡ noted names.old (declared_by (statement_of statement.now))) }
{
    match statement {
        Statement::Argument { name, .. }
        | Statement::Local { name, .. }
        | Statement::Stream { name, .. } => names.note(alloc, name),
        Statement::Assign { .. }
        | Statement::Copy { .. }
        | Statement::Reduce { .. }
        | Statement::Map { .. }
        | Statement::Tasklet { .. }
        | Statement::Consume { .. }
        | Statement::Call { .. }
        | Statement::For { .. }
        | Statement::While { .. }
        | Statement::If { .. }
        | Statement::Input { .. }
        | Statement::Output { .. }
        | Statement::Set { .. }
        | Statement::SetAt { .. }
        | Statement::When { .. } => Ok(()),
    }
}
