ghost use Rattle.std.specs.Prelude.{◌≡◌, None, string_bytes, IfOk};
ghost use Rattle.sd_lex.specs.PlainTree.{two, element_at, named};
ghost use Rattle.sd_lex.specs.TreeFold.{expression_of, expressions_of};
ghost use Rattle.sd_graph.specs.TreeFold.{guard_tree, kind_tree, tasklet_tree, value_tree};
ghost use Rattle.sd_program.specs.Bounds.{EachExpression, EachSubscript};
ghost use Rattle.sd_program.specs.Small.{IsSmall};
ghost use Rattle.sd_task.specs.task.ElementCode as definition;
ghost use Rattle.sd_task.specs.task.TableOf.{table_of};

use crate::in_force::Scope;
use crate::task::element::{code, input_name, push_links, push_used};
use crate::task::link::{element_link, ports};
use crate::task::names::Names;
use crate::task::operator::two_sign;
use crate::task::used::{push_variable, variable_value};
use indexmap::IndexSet;
use sd_graph::{Act, Guard, ItemKind, Link, Port, Tasklet, Value};
use sd_lex::{Expr, TwoSign};
use sd_list::{NoMemory, Sequence, Text};
use sd_num::Resolution;
use std::alloc::Global;

/// Code that gives a value to the one output `_out`.
fn given_out(
    alloc: Global,
    links: &[Link],
    used: &IndexSet<u32>,
    value: Value,
) -> Result<Tasklet, NoMemory>
    ensures { IfOk result (λ code. tasklet_tree code ≡ definition.given_out links.now used.now.keys (value_tree value)) }
{
    let connector = u32::try_from(links.len()).map_err(|_| NoMemory)?;
    Ok(Tasklet {
        ins: ports(alloc, links)?,
        outs: vec![in alloc;
            Port {
                connector: Text::from(String::from_str(alloc, "_out")?),
                dims: 0,
            },
        ]?,
        variables: used.as_slice().to_vec(alloc)?,
        locals: 0,
        body: vec![in alloc;
            Act::Out {
                connector,
                at: Vec::new(alloc),
                value,
            },
        ]?,
    })
}

/// The code that gives an expression's value to `_out`.
fn value_code(
    alloc: Global,
    variables: &Scope,
    links: &[Link],
    expression: &Expr,
) -> Result<Tasklet, NoMemory>
    ensures { IfOk result (λ code. tasklet_tree code ≡ definition.value_code variables.now links.now (expression_of expression.now)) }
{
    let mut used = IndexSet::new(alloc);
    push_used(variables, &mut used, expression)?;
    let mut next = 0;
    let value = code(alloc, variables, &used, &mut next, expression)?;
    given_out(alloc, links, &used, value)
}

/// The condition that an expression is not 0.
pub fn guard(alloc: Global, names: &Names, line: u32, expression: &Expr) -> Result<Guard, NoMemory>
    requires { EachSubscript IsSmall (expression_of expression.now) }
    ensures { IfOk result (λ guard. guard_tree guard ≡ definition.guard_of (table_of names.now) line (expression_of expression.now)) }
{
    let mut links = Vec::new(alloc);
    push_links(alloc, names, &mut links, expression)?;
    let code = value_code(alloc, &names.variables, &links, expression)?;
    Ok(Guard {
        line,
        reads: Sequence::from(links),
        code,
    })
}

/// The code that compares a variable with an expression, and gives whether it is below.
fn below_code(
    alloc: Global,
    variables: &Scope,
    links: &[Link],
    name: &str,
    end: &Expr,
) -> Result<Tasklet, NoMemory>
    ensures { IfOk result (λ code. tasklet_tree code ≡ definition.value_code variables.now links.now (two TwoSign.Less (named name.now) (expression_of end.now))) }
{
    let variable = variables.find(name);
    let mut used = IndexSet::new(alloc);
    push_variable(&mut used, variable)?;
    push_used(variables, &mut used, end)?;
    let mut next = 0;
    let end = code(alloc, variables, &used, &mut next, end)?;
    let test = Value::Two {
        sign: two_sign(TwoSign::Less),
        left: Box::new(alloc, variable_value(&used, variable)?)?,
        right: Box::new(alloc, end)?,
    };
    given_out(alloc, links, &used, test)
}

/// The condition that a variable is below an expression.
pub fn guard_below(
    alloc: Global,
    names: &Names,
    line: u32,
    name: &str,
    end: &Expr,
) -> Result<Guard, NoMemory>
    requires { EachSubscript IsSmall (expression_of end.now) }
    ensures { IfOk result (λ guard. guard_tree guard ≡ definition.below (table_of names.now) line name.now (expression_of end.now)) }
{
    let mut links = Vec::new(alloc);
    push_links(alloc, names, &mut links, end)?;
    let code = below_code(alloc, &names.variables, &links, name, end)?;
    Ok(Guard {
        line,
        reads: Sequence::from(links),
        code,
    })
}

/// The value of an expression, written to an element.
fn assignment(
    alloc: Global,
    names: &Names,
    name: &str,
    at: &[Expr],
    resolution: Option<Resolution>,
    value: &Expr,
) -> Result<ItemKind, NoMemory>
    requires at { EachExpression IsSmall (expressions_of at.now) }
    requires value { EachSubscript IsSmall (expression_of value.now) }
    ensures { IfOk result (λ kind. kind_tree kind ≡ definition.assignment (table_of names.now) name.now (expressions_of at.now) resolution (expression_of value.now)) }
{
    let mut ins = Vec::new(alloc);
    push_links(alloc, names, &mut ins, value)?;
    let code = value_code(alloc, &names.variables, &ins, value)?;
    let connector = String::from_str(alloc, "_out")?;
    let out = element_link(alloc, names, connector, name, at, resolution)?;
    Ok(ItemKind::Task {
        code,
        ins,
        outs: vec![in alloc; out]?,
    })
}

/// The sum of an element and an expression, written to the element.
fn sum_assignment(
    alloc: Global,
    names: &Names,
    name: &str,
    at: &[Expr],
    value: &Expr,
) -> Result<ItemKind, NoMemory>
    requires at { EachExpression IsSmall (expressions_of at.now) }
    requires value { EachSubscript IsSmall (expression_of value.now) }
    ensures { IfOk result (λ kind. kind_tree kind ≡ definition.assignment (table_of names.now) name.now (expressions_of at.now) None (two TwoSign.Add (element_at name.now (expressions_of at.now)) (expression_of value.now))) }
{
    let mut ins = Vec::new(alloc);
    ins.push(element_link(alloc, names, input_name(alloc, 0)?, name, at, None)?)?;
    push_links(alloc, names, &mut ins, value)?;
    let mut used = IndexSet::new(alloc);
    push_used(&names.variables, &mut used, value)?;
    let mut next = 1;
    let added = code(alloc, &names.variables, &used, &mut next, value)?;
    let old = Value::Input {
        connector: 0,
        at: Vec::new(alloc),
    };
    let sum = Value::Two {
        sign: two_sign(TwoSign::Add),
        left: Box::new(alloc, old)?,
        right: Box::new(alloc, added)?,
    };
    let code = given_out(alloc, &ins, &used, sum)?;
    let connector = String::from_str(alloc, "_out")?;
    let out = element_link(alloc, names, connector, name, at, None)?;
    Ok(ItemKind::Task {
        code,
        ins,
        outs: vec![in alloc; out]?,
    })
}

/// The item of an element statement.
pub fn element_task(
    alloc: Global,
    names: &Names,
    in_scope: bool,
    name: &str,
    at: &[Expr],
    add: bool,
    value: &Expr,
) -> Result<ItemKind, NoMemory>
    requires at { EachExpression IsSmall (expressions_of at.now) }
    requires value { EachSubscript IsSmall (expression_of value.now) }
    ensures { IfOk result (λ kind. kind_tree kind ≡ definition.element_task (table_of names.now) in_scope name.now (expressions_of at.now) add (expression_of value.now)) }
{
    if add && in_scope {
        assignment(alloc, names, name, at, Some(Resolution::Sum), value)
    } else if add {
        sum_assignment(alloc, names, name, at, value)
    } else {
        assignment(alloc, names, name, at, None, value)
    }
}
