ghost use Rattle.std.specs.Prelude.{◌≡◌, ◌∷◌, [], ◌++◌, true, OnOk};
ghost use Rattle.sd_lex.specs.TreeFold.{expression_of, statement_of, block_of};
ghost use Rattle.sd_source.specs.nodes.Names.{noted_own};
ghost use Rattle.sd_source.specs.nodes.Nodes.{chosen, with_mentioned, with_all_mentioned};
ghost use Rattle.sd_source.specs.nodes.SourceItems.{summed, elements_in, item_of, items_of};

use crate::nodes::access::Access;
use crate::nodes::call::note_call;
use crate::nodes::connectors::note_connected;
use crate::nodes::elements::note_elements;
use crate::nodes::name_set::NameSet;
use crate::nodes::table::ParameterTable;
use sd_lex::{Expr, Statement, has_connector};
use sd_list::NoMemory;
use std::alloc::Global;

/// Notes the containers that a statement's item reads or writes, itself or in the scopes in it.
#[cycle(mentioned)]
pub fn note_mentioned(
    alloc: Global,
    functions: &ParameterTable,
    own: &NameSet,
    access: Access,
    in_scope: bool,
    statement: &Statement,
    names: &mut NameSet,
) -> Result<(), NoMemory>
    ensures { OnOk result (names.new ≡ with_mentioned own.now access names.old (item_of functions.now in_scope (statement_of statement.now))) }
{
    match statement {
        Statement::Assign {
            name,
            add,
            value,
            ..
        } => note_assigned(alloc, own, access, *add && !in_scope, name, value, names),
        Statement::Copy { to, from, .. } | Statement::Reduce { to, from, .. } => {
            note_moved(alloc, own, access, from, to, names)
        }
        Statement::Map { body, .. } => {
            note_all_mentioned(alloc, functions, own, access, body, names)
        }
        Statement::Tasklet { body, .. } => note_connected(alloc, own, access, body, names),
        Statement::Consume { stream, body, .. } => {
            note_taken(alloc, own, access, stream, names)?;
            if has_connector(body) {
                note_connected(alloc, own, access, body, names)
            } else {
                note_all_mentioned(alloc, functions, own, access, body, names)
            }
        }
        Statement::Call {
            name,
            arguments,
            ..
        } => note_call(alloc, functions, own, access, name, arguments, names),
        Statement::Argument { .. }
        | Statement::Local { .. }
        | Statement::Stream { .. }
        | Statement::For { .. }
        | Statement::While { .. }
        | Statement::If { .. }
        | Statement::Input { .. }
        | Statement::Output { .. }
        | Statement::Set { .. }
        | Statement::SetAt { .. }
        | Statement::When { .. } => Ok(()),
    }
}

/// Notes the containers that the items of a scope's body read or write.
#[cycle(mentioned)]
fn note_all_mentioned(
    alloc: Global,
    functions: &ParameterTable,
    own: &NameSet,
    access: Access,
    body: &[Statement],
    names: &mut NameSet,
) -> Result<(), NoMemory>
    ensures { OnOk result (names.new ≡ with_all_mentioned own.now access names.old (items_of functions.now (block_of body.now))) }
{
    for statement in body {
        note_mentioned(alloc, functions, own, access, true, statement, names)?;
    }
    Ok(())
}

/// Notes what an element statement reads, with its target where that is read, or its target, which
/// it writes.
#[tactic(auto, using(crate::proofs::nodes_lemmas::AccessLemmas::with_elements_is, crate::proofs::nodes_lemmas::NameLemmas::own_both))]
fn note_assigned(
    alloc: Global,
    own: &NameSet,
    access: Access,
    reads_target: bool,
    target: &str,
    value: &Expr,
    names: &mut NameSet,
) -> Result<(), NoMemory>
    ensures { OnOk result (names.new ≡ noted_own own.now names.old (chosen access (summed reads_target target.now ++ elements_in (expression_of value.now)) (target.now ∷ []))) }
{
    match access {
        Access::Read => {
            if reads_target {
                names.note_own(alloc, own, target)?;
            }
            note_elements(alloc, own, value, names)
        }
        Access::Write => names.note_own(alloc, own, target),
    }
}

/// Notes the container from which a copy or a reduction reads, or the one to which it writes.
fn note_moved(
    alloc: Global,
    own: &NameSet,
    access: Access,
    from: &str,
    to: &str,
    names: &mut NameSet,
) -> Result<(), NoMemory>
    ensures { OnOk result (names.new ≡ noted_own own.now names.old (chosen access (from.now ∷ []) (to.now ∷ []))) }
{
    match access {
        Access::Read => names.note_own(alloc, own, from),
        Access::Write => names.note_own(alloc, own, to),
    }
}

/// Notes the stream of a consume scope, which takes from it.
fn note_taken(
    alloc: Global,
    own: &NameSet,
    access: Access,
    stream: &str,
    names: &mut NameSet,
) -> Result<(), NoMemory>
    ensures { OnOk result (names.new ≡ noted_own own.now names.old (chosen access (stream.now ∷ []) [])) }
{
    match access {
        Access::Read => names.note_own(alloc, own, stream),
        Access::Write => Ok(()),
    }
}
