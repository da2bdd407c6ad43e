ghost use Rattle.std.specs.Prelude.{◌≡◌, [], IfOk, OnOk};
ghost use Rattle.sd_lex.specs.TreeFold.{statement_of, block_of};
ghost use Rattle.sd_task.specs.tasklet_names.UsedNames as definition;

use crate::in_force::Scope;
use crate::tasklet_names::expression::{push_all_used, push_used};
use crate::tasklet_names::names::{Connectors, Locals};
use indexmap::IndexSet;
use sd_lex::Statement;
use sd_list::NoMemory;
use std::alloc::Global;

/// Adds the variables that a line of a tasklet uses, and declares its local.
#[cycle(lines)]
fn push_used_line(
    alloc: Global,
    variables: &Scope,
    connectors: &Connectors,
    locals: &mut Locals,
    used: &mut IndexSet<u32>,
    statement: &Statement,
) -> Result<(), NoMemory>
    ensures used { OnOk result (used.new.keys ≡ definition.used_acts variables.now connectors.now.ins connectors.now.outs (statement_of statement.now) locals.old.names locals.old.next used.old.keys) }
    ensures locals { OnOk result (locals.new.names ≡ definition.locals_behind variables.now connectors.now.ins connectors.now.outs (statement_of statement.now) locals.old.names locals.old.next) }
    ensures next { OnOk result (locals.new.next ≡ definition.next_behind variables.now connectors.now.ins connectors.now.outs (statement_of statement.now) locals.old.names locals.old.next) }
{
    match statement {
        Statement::Set { name, value, .. } => {
            push_used(variables, connectors, &locals.names, used, value)?;
            locals.assign(alloc, connectors, name.as_str())
        }
        Statement::SetAt { at, value, .. } => {
            push_all_used(variables, connectors, &locals.names, used, at)?;
            push_used(variables, connectors, &locals.names, used, value)
        }
        Statement::When {
            when,
            body,
            other,
            ..
        } => {
            push_used(variables, connectors, &locals.names, used, when)?;
            push_used_block(alloc, variables, connectors, locals, used, body)?;
            push_used_block(alloc, variables, connectors, locals, used, other)
        }
        _ => Ok(()),
    }
}

/// Adds the variables that a block of a tasklet uses; its locals are in force in it alone.
#[cycle(lines)]
#[tactic(auto, using(crate::proofs::tasklet_names_lemmas::LocalLemmas::oldest_all, crate::proofs::tasklet_names_lemmas::LocalLemmas::behind_keeps, crate::proofs::tasklet_names_lemmas::LocalLemmas::behind_longer))]
fn push_used_block(
    alloc: Global,
    variables: &Scope,
    connectors: &Connectors,
    locals: &mut Locals,
    used: &mut IndexSet<u32>,
    body: &[Statement],
) -> Result<(), NoMemory>
    ensures used { OnOk result (used.new.keys ≡ definition.used_acts_all variables.now connectors.now.ins connectors.now.outs (block_of body.now) locals.old.names locals.old.next used.old.keys) }
    ensures locals { OnOk result (locals.new.names ≡ locals.old.names) }
    ensures next { OnOk result (locals.new.next ≡ definition.next_behind_all variables.now connectors.now.ins connectors.now.outs (block_of body.now) locals.old.names locals.old.next) }
{
    let mark = locals.names.len();
    for statement in body {
        push_used_line(alloc, variables, connectors, locals, used, statement)?;
    }
    locals.names.truncate(mark);
    Ok(())
}

/// The variables that a tasklet's code uses.
pub fn used_variables(
    alloc: Global,
    variables: &Scope,
    connectors: &Connectors,
    body: &[Statement],
) -> Result<IndexSet<u32>, NoMemory>
    ensures { IfOk result (λ used. used.keys ≡ definition.used_acts_all variables.now connectors.now.ins connectors.now.outs (block_of body.now) [] 0 []) }
{
    let mut used = IndexSet::new(alloc);
    let mut locals = Locals::new(alloc);
    push_used_block(alloc, variables, connectors, &mut locals, &mut used, body)?;
    Ok(used)
}
