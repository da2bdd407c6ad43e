ghost use Rattle.std.specs.Prelude.{◌≡◌, OnOk};
ghost use Rattle.sd_lex.specs.TreeFold.{expression_of, expressions_of};
ghost use Rattle.sd_program.specs.Names.{in_force};
ghost use Rattle.sd_task.specs.tasklet_names.UsedNames as definition;

use crate::in_force::Scope;
use crate::task::push_variable;
use crate::tasklet_names::names::Connectors;
use indexmap::IndexSet;
use sd_lex::Expr;
use sd_list::NoMemory;

/// Adds the variable for which a name stands, if it stands for one.
fn push_used_name(
    variables: &Scope,
    connectors: &Connectors,
    locals: &Scope,
    used: &mut IndexSet<u32>,
    name: &str,
) -> Result<(), NoMemory>
    ensures { OnOk result (used.new.keys ≡ definition.named_variable (in_force connectors.now.ins name.now) (in_force locals.now name.now) (in_force variables.now name.now) used.old.keys) }
{
    if connectors.ins.find(name).is_some() || locals.find(name).is_some() {
        return Ok(());
    }
    push_variable(used, variables.find(name))
}

/// Adds the variables that an expression uses.
#[cycle(used)]
pub(crate) fn push_used(
    variables: &Scope,
    connectors: &Connectors,
    locals: &Scope,
    used: &mut IndexSet<u32>,
    expression: &Expr,
) -> Result<(), NoMemory>
    ensures { OnOk result (used.new.keys ≡ definition.used_value variables.now connectors.now.ins connectors.now.outs locals.now (expression_of expression.now) used.old.keys) }
{
    match expression {
        Expr::Number(_) => Ok(()),
        Expr::Name(name) => push_used_name(variables, connectors, locals, used, name.as_str()),
        Expr::Element { at, .. } => push_all_used(variables, connectors, locals, used, at),
        Expr::One { of, .. } => push_used(variables, connectors, locals, used, of),
        Expr::Two { left, right, .. } => {
            push_used(variables, connectors, locals, used, left)?;
            push_used(variables, connectors, locals, used, right)
        }
        Expr::Choice { value, when, other } => {
            push_used(variables, connectors, locals, used, value)?;
            push_used(variables, connectors, locals, used, when)?;
            push_used(variables, connectors, locals, used, other)
        }
    }
}

/// Adds the variables that several expressions use.
#[cycle(used)]
pub(crate) fn push_all_used(
    variables: &Scope,
    connectors: &Connectors,
    locals: &Scope,
    used: &mut IndexSet<u32>,
    expressions: &[Expr],
) -> Result<(), NoMemory>
    ensures { OnOk result (used.new.keys ≡ definition.used_values variables.now connectors.now.ins connectors.now.outs locals.now (expressions_of expressions.now) used.old.keys) }
{
    for expression in expressions {
        push_used(variables, connectors, locals, used, expression)?;
    }
    Ok(())
}
