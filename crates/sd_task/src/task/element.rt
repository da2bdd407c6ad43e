ghost use Rattle.std.specs.Prelude.{◌≡◌, ◌+◌, string_bytes, IfOk, OnOk};
ghost use Rattle.sd_graph.specs.PlainTree.{input, no_value};
ghost use Rattle.sd_graph.specs.TreeFold.{value_tree};
ghost use Rattle.sd_lex.specs.TreeFold.{expression_of};
ghost use Rattle.sd_task.specs.task.ElementCode as definition;
ghost use Rattle.sd_program.specs.Bounds.{EachSubscript};
ghost use Rattle.sd_program.specs.Small.{IsSmall};
ghost use Rattle.sd_task.specs.task.TableOf.{table_of};

use crate::in_force::Scope;
use crate::task::link::element_link;
use crate::task::names::Names;
use crate::task::operator::{one_sign, two_sign};
use crate::task::used::{push_variable, variable_value};
use indexmap::IndexSet;
use sd_graph::{Link, Value};
use sd_lex::Expr;
use sd_list::NoMemory;
use std::alloc::Global;

/// `_in0`, `_in1` and so on.
pub(crate) fn input_name(alloc: Global, connector: usize) -> Result<String, NoMemory>
    ensures { IfOk result (λ name. string_bytes name ≡ definition.input_name connector) }
{
    Ok(format!(in alloc; "_in{connector}")?)
}

/// Adds the links of an expression's elements, from left to right.
pub(crate) fn push_links(
    alloc: Global,
    names: &Names,
    links: &mut Vec<Link>,
    expression: &Expr,
) -> Result<(), NoMemory>
    requires { EachSubscript IsSmall (expression_of expression.now) }
    ensures { OnOk result (links.new.items ≡ definition.links_with (table_of names.now) links.old.items (expression_of expression.now)) }
{
    match expression {
        Expr::Number(_) | Expr::Name(_) => Ok(()),
        Expr::Element { name, at } => {
            let connector = input_name(alloc, links.len())?;
            links.push(element_link(alloc, names, connector, name.as_str(), at, None)?)?;
            Ok(())
        }
        Expr::One { of, .. } => push_links(alloc, names, links, of),
        Expr::Two { left, right, .. } => {
            push_links(alloc, names, links, left)?;
            push_links(alloc, names, links, right)
        }
        Expr::Choice { value, when, other } => {
            push_links(alloc, names, links, value)?;
            push_links(alloc, names, links, when)?;
            push_links(alloc, names, links, other)
        }
    }
}

/// Adds the variables that an expression uses outside of its elements' subscripts.
pub(crate) fn push_used(
    variables: &Scope,
    used: &mut IndexSet<u32>,
    expression: &Expr,
) -> Result<(), NoMemory>
    ensures { OnOk result (used.new.keys ≡ definition.used_with variables.now used.old.keys (expression_of expression.now)) }
{
    match expression {
        Expr::Number(_) | Expr::Element { .. } => Ok(()),
        Expr::Name(name) => push_variable(used, variables.find(name.as_str())),
        Expr::One { of, .. } => push_used(variables, used, of),
        Expr::Two { left, right, .. } => {
            push_used(variables, used, left)?;
            push_used(variables, used, right)
        }
        Expr::Choice { value, when, other } => {
            push_used(variables, used, value)?;
            push_used(variables, used, when)?;
            push_used(variables, used, other)
        }
    }
}

/// The input of the next element, which is a scalar.
fn next_input(alloc: Global, next: &mut u32) -> Result<Value, NoMemory>
    ensures value { IfOk result (λ value. value_tree value ≡ input next.old no_value) }
    ensures next { OnOk result (next.new ≡ next.old + 1) }
{
    let connector = *next;
    *next = connector.checked_add(1).ok_or(NoMemory)?;
    Ok(Value::Input {
        connector,
        at: Vec::new(alloc),
    })
}

/// The code of an expression; `next` is the number of its first element, and then the number
/// behind its last one.
pub(crate) fn code(
    alloc: Global,
    variables: &Scope,
    used: &IndexSet<u32>,
    next: &mut u32,
    expression: &Expr,
) -> Result<Value, NoMemory>
    ensures value { IfOk result (λ value. value_tree value ≡ definition.code_of variables.now used.now.keys next.old (expression_of expression.now)) }
    ensures next { OnOk result (next.new ≡ next.old + definition.elements_in (expression_of expression.now)) }
{
    match expression {
        Expr::Number(value) => Ok(Value::Number(*value)),
        Expr::Name(name) => variable_value(used, variables.find(name.as_str())),
        Expr::Element { .. } => next_input(alloc, next),
        Expr::One { sign, of } => Ok(Value::One {
            sign: one_sign(*sign),
            of: Box::new(alloc, code(alloc, variables, used, next, of)?)?,
        }),
        Expr::Two { sign, left, right } => {
            let left = code(alloc, variables, used, next, left)?;
            let right = code(alloc, variables, used, next, right)?;
            Ok(Value::Two {
                sign: two_sign(*sign),
                left: Box::new(alloc, left)?,
                right: Box::new(alloc, right)?,
            })
        }
        Expr::Choice { value, when, other } => {
            let value = code(alloc, variables, used, next, value)?;
            let when = code(alloc, variables, used, next, when)?;
            let other = code(alloc, variables, used, next, other)?;
            Ok(Value::Choice {
                value: Box::new(alloc, value)?,
                when: Box::new(alloc, when)?,
                other: Box::new(alloc, other)?,
            })
        }
    }
}
