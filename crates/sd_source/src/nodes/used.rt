ghost use Rattle.std.specs.Prelude.{◌≡◌, [], OnOk};
ghost use Rattle.sd_lex.specs.TreeFold.{expression_of, statement_of, block_of};
ghost use Rattle.sd_source.specs.nodes.Names.{noted_own};
ghost use Rattle.sd_source.specs.nodes.Nodes.{chosen};
ghost use Rattle.sd_source.specs.nodes.SourceItems.{elements_in};
ghost use Rattle.sd_source.specs.nodes.SourceNodes.{with_used, with_all_used};

use crate::nodes::access::Access;
use crate::nodes::elements::note_elements;
use crate::nodes::mentioned::note_mentioned;
use crate::nodes::name_set::NameSet;
use crate::nodes::table::ParameterTable;
use sd_lex::{Expr, Statement};
use sd_list::NoMemory;
use std::alloc::Global;

/// Notes the containers that a graph reads, in items and conditions, or writes.
#[cycle(used)]
pub fn note_all_used(
    alloc: Global,
    functions: &ParameterTable,
    own: &NameSet,
    access: Access,
    body: &[Statement],
    names: &mut NameSet,
) -> Result<(), NoMemory>
    ensures { OnOk result (names.new ≡ with_all_used functions.now own.now access names.old (block_of body.now)) }
{
    for statement in body {
        note_used(alloc, functions, own, access, statement, names)?;
    }
    Ok(())
}

#[cycle(used)]
fn note_used(
    alloc: Global,
    functions: &ParameterTable,
    own: &NameSet,
    access: Access,
    statement: &Statement,
    names: &mut NameSet,
) -> Result<(), NoMemory>
    ensures { OnOk result (names.new ≡ with_used functions.now own.now access names.old (statement_of statement.now)) }
{
    match statement {
        Statement::For { body, .. } => note_all_used(alloc, functions, own, access, body, names),
        Statement::While { when, body, .. } => {
            note_tested(alloc, own, access, when, names)?;
            note_all_used(alloc, functions, own, access, body, names)
        }
        Statement::If {
            when,
            body,
            other,
            ..
        } => {
            note_tested(alloc, own, access, when, names)?;
            note_all_used(alloc, functions, own, access, body, names)?;
            note_all_used(alloc, functions, own, access, other, names)
        }
        Statement::Argument { .. }
        | Statement::Local { .. }
        | Statement::Stream { .. }
        | Statement::Assign { .. }
        | Statement::Copy { .. }
        | Statement::Reduce { .. }
        | Statement::Map { .. }
        | Statement::Tasklet { .. }
        | Statement::Consume { .. }
        | Statement::Call { .. }
        | Statement::Input { .. }
        | Statement::Output { .. }
        | Statement::Set { .. }
        | Statement::SetAt { .. }
        | Statement::When { .. } => {
            note_mentioned(alloc, functions, own, access, false, statement, names)
        }
    }
}

/// Notes what a condition reads.
#[tactic(auto, using(crate::proofs::nodes_lemmas::AccessLemmas::with_elements_is))]
fn note_tested(
    alloc: Global,
    own: &NameSet,
    access: Access,
    when: &Expr,
    names: &mut NameSet,
) -> Result<(), NoMemory>
    ensures { OnOk result (names.new ≡ noted_own own.now names.old (chosen access (elements_in (expression_of when.now)) [])) }
{
    match access {
        Access::Read => note_elements(alloc, own, when, names),
        Access::Write => Ok(()),
    }
}
