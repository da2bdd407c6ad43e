//! Code of tasklets and conditions with sizes in the place of the size symbols.
ghost use Rattle.std.specs.Prelude.{◌≡◌, IfOk};
ghost use Rattle.sd_graph.specs.TreeFold.{act_tree, act_trees, tasklet_tree, value_tree, value_trees};
ghost use Rattle.sd_valid.specs.BoundCode.{names_symbol, bound_variable, bound_value, bound_values, bound_act, bound_acts, bound_tasklet};

use crate::expression::size_at;
use sd_graph::{Act, Port, Tasklet, Value};
use sd_list::NoMemory;
use std::alloc::Global;

pub(crate) fn tasklet(alloc: Global, sizes: &[i64], code: &Tasklet) -> Result<Tasklet, NoMemory>
    ensures { IfOk result (λ bound. tasklet_tree bound ≡ bound_tasklet sizes.now (tasklet_tree code.now)) }
{
    Ok(Tasklet {
        ins: ports(alloc, &code.ins)?,
        outs: ports(alloc, &code.outs)?,
        variables: code.variables.as_slice().to_vec(alloc)?,
        locals: code.locals,
        body: acts(alloc, sizes, code.variables.as_slice(), &code.body)?,
    })
}

/// The same connectors once more.
fn ports(alloc: Global, all: &[Port]) -> Result<Vec<Port>, NoMemory>
    ensures { IfOk result (λ copy. copy.items ≡ all.now) }
{
    let mut copy = Vec::with_capacity(alloc, all.len())?;
    for port in all {
        copy.push(port.copy_of(alloc)?)?;
    }
    Ok(copy)
}

#[cycle(acts)]
fn acts(alloc: Global, sizes: &[i64], variables: &[u32], all: &[Act]) -> Result<Vec<Act>, NoMemory>
    ensures { IfOk result (λ bound. act_trees bound.items ≡ bound_acts sizes.now variables.now (act_trees all.now)) }
{
    let mut bound = Vec::with_capacity(alloc, all.len())?;
    for one in all {
        bound.push(act(alloc, sizes, variables, one)?)?;
    }
    Ok(bound)
}

#[cycle(acts)]
fn act(alloc: Global, sizes: &[i64], variables: &[u32], act: &Act) -> Result<Act, NoMemory>
    ensures { IfOk result (λ bound. act_tree bound ≡ bound_act sizes.now variables.now (act_tree act.now)) }
{
    match act {
        Act::Local { local, value: of } => Ok(Act::Local {
            local: *local,
            value: value(alloc, sizes, variables, of)?,
        }),
        Act::Out {
            connector,
            at,
            value: of,
        } => Ok(Act::Out {
            connector: *connector,
            at: values(alloc, sizes, variables, at)?,
            value: value(alloc, sizes, variables, of)?,
        }),
        Act::When { when, body, other } => Ok(Act::When {
            when: value(alloc, sizes, variables, when)?,
            body: acts(alloc, sizes, variables, body)?,
            other: acts(alloc, sizes, variables, other)?,
        }),
    }
}

/// Whether the variable at a place is one of so many size symbols.
fn is_symbol(symbols: usize, variables: &[u32], place: u32) -> bool
    ensures { result ≡ names_symbol symbols variables.now place }
{
    let place = place as usize;
    place < variables.len() && (variables[place] as usize) < symbols
}

/// A variable by its place among those of the code; a size symbol is its size.
fn variable(sizes: &[i64], variables: &[u32], place: u32) -> Value
    ensures { value_tree result ≡ bound_variable sizes.now variables.now place }
{
    if is_symbol(sizes.len(), variables, place) {
        Value::Number(size_at(sizes, variables[place as usize]))
    } else {
        Value::Variable(place)
    }
}

#[cycle(values)]
fn value(alloc: Global, sizes: &[i64], variables: &[u32], value: &Value) -> Result<Value, NoMemory>
    ensures { IfOk result (λ bound. value_tree bound ≡ bound_value sizes.now variables.now (value_tree value.now)) }
{
    match value {
        Value::Number(number) => Ok(Value::Number(*number)),
        Value::Variable(place) => Ok(variable(sizes, variables, *place)),
        Value::Local(number) => Ok(Value::Local(*number)),
        Value::Input { connector, at } => Ok(Value::Input {
            connector: *connector,
            at: values(alloc, sizes, variables, at)?,
        }),
        Value::One { sign, of } => Ok(Value::One {
            sign: *sign,
            of: boxed(alloc, sizes, variables, of)?,
        }),
        Value::Two { sign, left, right } => Ok(Value::Two {
            sign: *sign,
            left: boxed(alloc, sizes, variables, left)?,
            right: boxed(alloc, sizes, variables, right)?,
        }),
        Value::Choice {
            value: chosen,
            when,
            other,
        } => Ok(Value::Choice {
            value: boxed(alloc, sizes, variables, chosen)?,
            when: boxed(alloc, sizes, variables, when)?,
            other: boxed(alloc, sizes, variables, other)?,
        }),
    }
}

#[cycle(values)]
fn boxed(
    alloc: Global,
    sizes: &[i64],
    variables: &[u32],
    of: &Value,
) -> Result<Box<Value>, NoMemory>
    ensures { IfOk result (λ bound. value_tree bound.value ≡ bound_value sizes.now variables.now (value_tree of.now)) }
{
    Ok(Box::new(alloc, value(alloc, sizes, variables, of)?)?)
}

#[cycle(values)]
fn values(
    alloc: Global,
    sizes: &[i64],
    variables: &[u32],
    all: &[Value],
) -> Result<Vec<Value>, NoMemory>
    ensures { IfOk result (λ bound. value_trees bound.items ≡ bound_values sizes.now variables.now (value_trees all.now)) }
{
    let mut bound = Vec::with_capacity(alloc, all.len())?;
    for one in all {
        bound.push(value(alloc, sizes, variables, one)?)?;
    }
    Ok(bound)
}
