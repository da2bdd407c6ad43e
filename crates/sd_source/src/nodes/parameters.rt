ghost use Rattle.std.specs.Prelude.{◌≡◌, ◌++◌, [], map, IfOk, OnOk};
ghost use Rattle.sd_lex.specs.TreeFold.{statement_of, block_of, function_of};
ghost use Rattle.sd_source.specs.nodes.SourceItems.{declared_by};
ghost use Rattle.sd_source.specs.nodes.SourceNodes as source;

use crate::nodes::access::Access;
use crate::nodes::declarations::note_all_declared;
use crate::nodes::name_set::NameSet;
use crate::nodes::table::ParameterTable;
use crate::nodes::used::note_all_used;
use sd_lex::{Function, Statement};
use sd_list::{NoMemory, Sequence};
use std::alloc::Global;

/// What a function does with each of its parameters.
pub fn parameters_of(
    alloc: Global,
    functions: &ParameterTable,
    function: &Function,
) -> Result<Sequence<Option<Access>>, NoMemory>
    ensures { IfOk result (λ parameters. parameters ≡ source.parameters_of functions.now (function_of function.now)) }
{
    let mut own = NameSet::new(alloc);
    note_all_declared(alloc, &function.arguments, &mut own)?;
    let mut reads = NameSet::new(alloc);
    note_all_used(
        alloc,
        functions,
        &own,
        Access::Read,
        &function.body,
        &mut reads,
    )?;
    let mut writes = NameSet::new(alloc);
    note_all_used(
        alloc,
        functions,
        &own,
        Access::Write,
        &function.body,
        &mut writes,
    )?;
    access_to_each(alloc, &reads, &writes, &function.arguments)
}

/// What is done with each of these arguments.
fn access_to_each(
    alloc: Global,
    reads: &NameSet,
    writes: &NameSet,
    arguments: &[Statement],
) -> Result<Sequence<Option<Access>>, NoMemory>
    ensures { IfOk result (λ parameters. parameters ≡ source.access_to_each reads.now writes.now (block_of arguments.now)) }
{
    let mut parameters = Vec::new(alloc);
    for argument in arguments {
        add_parameter(reads, writes, argument, &mut parameters)?;
    }
    Ok(Sequence::from(parameters))
}

/// Adds what is done with the container that a statement declares.
fn add_parameter(
    reads: &NameSet,
    writes: &NameSet,
    statement: &Statement,
    parameters: &mut Vec<Option<Access>>,
) -> Result<(), NoMemory>
    ensures { OnOk result (parameters.new.items ≡ parameters.old.items ++ map (source.access_to reads.now writes.now) (declared_by (statement_of statement.now))) }
{
    match statement {
        Statement::Argument { name, .. }
        | Statement::Local { name, .. }
        | Statement::Stream { name, .. } => parameters.push(access_to(reads, writes, name))?,
        Statement::Assign { .. }
        | Statement::Copy { .. }
        | Statement::Reduce { .. }
        | Statement::Map { .. }
        | Statement::Tasklet { .. }
        | Statement::Consume { .. }
        | Statement::Call { .. }
        | Statement::For { .. }
        | Statement::While { .. }
        | Statement::If { .. }
        | Statement::Input { .. }
        | Statement::Output { .. }
        | Statement::Set { .. }
        | Statement::SetAt { .. }
        | Statement::When { .. } => {}
    }
    Ok(())
}

/// What is done with a container: it is written, else read, else not used.
fn access_to(reads: &NameSet, writes: &NameSet, name: &str) -> Option<Access>
    ensures { result ≡ source.access_to reads.now writes.now name.now }
{
    if writes.contains(name) {
        Some(Access::Write)
    } else if reads.contains(name) {
        Some(Access::Read)
    } else {
        None
    }
}
