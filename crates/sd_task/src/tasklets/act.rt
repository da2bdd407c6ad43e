ghost use Rattle.std.specs.Prelude.{◌≡◌, ◌+◌, [], ◌∷◌, cond, option_map, IfOk, OnOk};
ghost use Rattle.sd_graph.specs.TreeFold.{act_tree, act_trees, value_tree};
ghost use Rattle.sd_lex.specs.TreeFold.{expression_of, statement_of, block_of};
ghost use Rattle.sd_program.specs.Names.{in_force};
ghost use Rattle.sd_task.specs.in_force.Names.{number_or};
ghost use Rattle.sd_task.specs.tasklets.Code as definition;
ghost use Rattle.sd_task.specs.tasklet_names.UsedNames as names;

use crate::in_force::Scope;
use crate::tasklet_names::{Connectors, Locals};
use crate::tasklets::value::{value, values};
use indexmap::IndexSet;
use sd_graph::{Act, Value};
use sd_lex::{Expr, Statement};
use sd_list::NoMemory;
use std::alloc::Global;

/// What is assigned to an output connector, or else to a local.
fn assigned(alloc: Global, connector: Option<u32>, local: u32, value: Value) -> Act
    ensures { act_tree result ≡ definition.assigned connector local (value_tree value) }
{
    match connector {
        Some(connector) => Act::Out {
            connector,
            at: Vec::new(alloc),
            value,
        },
        None => Act::Local { local, value },
    }
}

/// The code of a line that assigns to a name; declares its local.
fn assignment(
    alloc: Global,
    variables: &Scope,
    connectors: &Connectors,
    locals: &mut Locals,
    used: &IndexSet<u32>,
    name: &str,
    given: &Expr,
) -> Result<Act, NoMemory>
    ensures act { IfOk result (λ act. act_tree act ≡ definition.assigned (in_force connectors.now.outs name.now) (number_or locals.old.next locals.old.names name.now) (definition.task_value variables.now connectors.now.ins connectors.now.outs used.now.keys locals.old.names (expression_of given.now))) }
    ensures locals { OnOk result (locals.new.names ≡ cond (names.is_assigned [] connectors.now.ins connectors.now.outs locals.old.names name.now) locals.old.names ((name.now, locals.old.next) ∷ locals.old.names)) }
    ensures next { OnOk result (locals.new.next ≡ cond (names.is_assigned [] connectors.now.ins connectors.now.outs locals.old.names name.now) locals.old.next (locals.old.next + 1)) }
{
    let given = value(alloc, variables, connectors, &locals.names, used, given)?;
    let local = locals.names.number_or(locals.next, name);
    locals.assign(alloc, connectors, name)?;
    Ok(assigned(alloc, connectors.outs.find(name), local, given))
}

/// The code of a line, if it has any; declares its local.
#[cycle(acts)]
fn act(
    alloc: Global,
    variables: &Scope,
    connectors: &Connectors,
    locals: &mut Locals,
    used: &IndexSet<u32>,
    statement: &Statement,
) -> Result<Option<Act>, NoMemory>
    ensures act { IfOk result (λ act. option_map act_tree act ≡ definition.act_of variables.now connectors.now.ins connectors.now.outs used.now.keys (statement_of statement.now) locals.old.names locals.old.next) }
    ensures locals { OnOk result (locals.new.names ≡ names.locals_behind variables.now connectors.now.ins connectors.now.outs (statement_of statement.now) locals.old.names locals.old.next) }
    ensures next { OnOk result (locals.new.next ≡ names.next_behind variables.now connectors.now.ins connectors.now.outs (statement_of statement.now) locals.old.names locals.old.next) }
{
    match statement {
        Statement::Set { name, value, .. } => {
            let act = assignment(alloc, variables, connectors, locals, used, name, value)?;
            Ok(Some(act))
        }
        Statement::SetAt {
            name,
            at,
            value: given,
            ..
        } => Ok(Some(Act::Out {
            connector: connectors.outs.number_or(0, name.as_str()),
            at: values(alloc, variables, connectors, &locals.names, used, at)?,
            value: value(alloc, variables, connectors, &locals.names, used, given)?,
        })),
        Statement::When {
            when,
            body,
            other,
            ..
        } => Ok(Some(Act::When {
            when: value(alloc, variables, connectors, &locals.names, used, when)?,
            body: acts(alloc, variables, connectors, locals, used, body)?,
            other: acts(alloc, variables, connectors, locals, used, other)?,
        })),
        _ => Ok(None),
    }
}

/// The code of a block; its locals are in force in it alone.
#[cycle(acts)]
pub(crate) fn acts(
    alloc: Global,
    variables: &Scope,
    connectors: &Connectors,
    locals: &mut Locals,
    used: &IndexSet<u32>,
    body: &[Statement],
) -> Result<Vec<Act>, NoMemory>
    ensures acts { IfOk result (λ acts. act_trees acts.items ≡ definition.acts_of variables.now connectors.now.ins connectors.now.outs used.now.keys (block_of body.now) locals.old.names locals.old.next) }
    ensures locals { OnOk result (locals.new.names ≡ locals.old.names) }
    ensures next { OnOk result (locals.new.next ≡ names.next_behind_all variables.now connectors.now.ins connectors.now.outs (block_of body.now) locals.old.names locals.old.next) }
{
    let mark = locals.names.len();
    let mut acts = Vec::new(alloc);
    for statement in body {
        if let Some(act) = act(alloc, variables, connectors, locals, used, statement)? {
            acts.push(act)?;
        }
    }
    locals.names.truncate(mark);
    Ok(acts)
}
