ghost use Rattle.std.specs.Prelude.{◌≡◌, IfOk};
ghost use Rattle.sd_graph.specs.TreeFold.{value_tree, value_trees};
ghost use Rattle.sd_lex.specs.TreeFold.{expression_of, expressions_of};
ghost use Rattle.sd_program.specs.Names.{in_force};
ghost use Rattle.sd_task.specs.tasklets.Code as definition;
ghost use Rattle.sd_task.specs.task.UsedVariables.{variable_value};

use crate::in_force::Scope;
use crate::task::{one_sign, two_sign, variable_value};
use crate::tasklet_names::Connectors;
use indexmap::IndexSet;
use sd_graph::Value;
use sd_lex::Expr;
use sd_list::NoMemory;
use std::alloc::Global;

/// What a name stands for: an input connector, else a local, else a variable.
fn named_value(
    alloc: Global,
    variables: &Scope,
    connectors: &Connectors,
    locals: &Scope,
    used: &IndexSet<u32>,
    name: &str,
) -> Result<Value, NoMemory>
    ensures { IfOk result (λ value. value_tree value ≡ definition.named_value (in_force connectors.now.ins name.now) (in_force locals.now name.now) (variable_value used.now.keys (in_force variables.now name.now))) }
{
    if let Some(connector) = connectors.ins.find(name) {
        return Ok(Value::Input {
            connector,
            at: Vec::new(alloc),
        });
    }
    match locals.find(name) {
        Some(number) => Ok(Value::Local(number)),
        None => variable_value(used, variables.find(name)),
    }
}

/// The code of an expression.
#[cycle(values)]
pub(crate) fn value(
    alloc: Global,
    variables: &Scope,
    connectors: &Connectors,
    locals: &Scope,
    used: &IndexSet<u32>,
    expression: &Expr,
) -> Result<Value, NoMemory>
    ensures { IfOk result (λ value. value_tree value ≡ definition.task_value variables.now connectors.now.ins connectors.now.outs used.now.keys locals.now (expression_of expression.now)) }
{
    match expression {
        Expr::Number(value) => Ok(Value::Number(*value)),
        Expr::Name(name) => named_value(alloc, variables, connectors, locals, used, name.as_str()),
        Expr::Element { name, at } => Ok(Value::Input {
            connector: connectors.ins.number_or(0, name.as_str()),
            at: values(alloc, variables, connectors, locals, used, at)?,
        }),
        Expr::One { sign, of } => Ok(Value::One {
            sign: one_sign(*sign),
            of: boxed(alloc, variables, connectors, locals, used, of)?,
        }),
        Expr::Two { sign, left, right } => Ok(Value::Two {
            sign: two_sign(*sign),
            left: boxed(alloc, variables, connectors, locals, used, left)?,
            right: boxed(alloc, variables, connectors, locals, used, right)?,
        }),
        Expr::Choice {
            value: first,
            when,
            other,
        } => Ok(Value::Choice {
            value: boxed(alloc, variables, connectors, locals, used, first)?,
            when: boxed(alloc, variables, connectors, locals, used, when)?,
            other: boxed(alloc, variables, connectors, locals, used, other)?,
        }),
    }
}

/// The code of an expression that is a part of another.
#[cycle(values)]
fn boxed(
    alloc: Global,
    variables: &Scope,
    connectors: &Connectors,
    locals: &Scope,
    used: &IndexSet<u32>,
    expression: &Expr,
) -> Result<Box<Value>, NoMemory>
    ensures { IfOk result (λ part. value_tree part.value ≡ definition.task_value variables.now connectors.now.ins connectors.now.outs used.now.keys locals.now (expression_of expression.now)) }
{
    Ok(Box::new(
        alloc,
        value(alloc, variables, connectors, locals, used, expression)?,
    )?)
}

/// The code of several expressions.
#[cycle(values)]
pub(crate) fn values(
    alloc: Global,
    variables: &Scope,
    connectors: &Connectors,
    locals: &Scope,
    used: &IndexSet<u32>,
    expressions: &[Expr],
) -> Result<Vec<Value>, NoMemory>
    ensures { IfOk result (λ values. value_trees values.items ≡ definition.task_values variables.now connectors.now.ins connectors.now.outs used.now.keys locals.now (expressions_of expressions.now)) }
{
    let mut values = Vec::with_capacity(alloc, expressions.len())?;
    for expression in expressions {
        values.push(value(alloc, variables, connectors, locals, used, expression)?)?;
    }
    Ok(values)
}
