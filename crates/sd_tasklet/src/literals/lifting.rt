ghost use Rattle.std.specs.Prelude.{◌≡◌, ◌++◌, length, replicate, IfOk};
ghost use Rattle.std.specs.List.{position};
ghost use Rattle.std.specs.Ordering.{int_eq};
ghost use Rattle.sd_graph.specs.TreeFold.{act_tree, act_trees, tasklet_tree, value_tree, value_trees};
ghost use Rattle.sd_tasklet.specs.literals.Literals as literals;
ghost use Rattle.sd_tasklet.specs.literals.Literals.{lifted_act, lifted_acts, lifted_tasklet, lifted_value, lifted_values, number_in, own_variable};

use crate::literals::numbers::add_acts;
use sd_graph::{Act, Port, Tasklet, Value};
use sd_list::NoMemory;
use std::alloc::Global;

/// Code whose numbers stand in variables behind its own, in this order.
#[derive(Drop)]
pub struct Lifted {
    pub tasklet: Tasklet,
    pub numbers: Vec<i64>,
}

impl Lifted {
    /// That of a tasklet.
    pub fn of(alloc: Global, code: &Tasklet) -> Result<Lifted, NoMemory>
        ensures { IfOk result (λ lifted. tasklet_tree lifted.tasklet ≡ lifted_tasklet lifted.numbers.items (tasklet_tree code.now)) }
    {
        let mut numbers = Vec::new(alloc);
        add_acts(&mut numbers, &code.body)?;
        let tasklet = lift(alloc, numbers.as_slice(), code)?;
        Ok(Lifted { tasklet, numbers })
    }
}

/// The code with these numbers in variables behind its own.
fn lift(alloc: Global, numbers: &[i64], code: &Tasklet) -> Result<Tasklet, NoMemory>
    ensures { IfOk result (λ lifted. tasklet_tree lifted ≡ lifted_tasklet numbers.now (tasklet_tree code.now)) }
{
    let own = code.variables.len();
    Ok(Tasklet {
        ins: ports(alloc, &code.ins)?,
        outs: ports(alloc, &code.outs)?,
        variables: variables(alloc, code.variables.as_slice(), numbers)?,
        locals: code.locals,
        body: acts(alloc, numbers, own, &code.body)?,
    })
}

/// The variables of the code, and one more for each number; which one does not matter.
fn variables(alloc: Global, own: &[u32], numbers: &[i64]) -> Result<Vec<u32>, NoMemory>
    ensures { IfOk result (λ all. all.items ≡ own.now ++ replicate (length numbers.now) 0) }
{
    let mut all = own.to_vec(alloc)?;
    let more = vec![in alloc; 0u32; numbers.len()]?;
    all.extend_from_slice(more.as_slice())?;
    Ok(all)
}

/// The same connectors once more.
fn ports(alloc: Global, all: &[Port]) -> Result<Vec<Port>, NoMemory>
    ensures { IfOk result (λ copy. copy.items ≡ all.now) }
{
    let mut copy = Vec::with_capacity(alloc, all.len())?;
    for port in all {
        copy.push(port.copy_of(alloc)?)?;
    }
    Ok(copy)
}

#[cycle(acts)]
fn acts(alloc: Global, numbers: &[i64], own: usize, all: &[Act]) -> Result<Vec<Act>, NoMemory>
    ensures { IfOk result (λ lifted. act_trees lifted.items ≡ lifted_acts numbers.now own (act_trees all.now)) }
{
    let mut lifted = Vec::with_capacity(alloc, all.len())?;
    for one in all {
        lifted.push(act(alloc, numbers, own, one)?)?;
    }
    Ok(lifted)
}

#[cycle(acts)]
fn act(alloc: Global, numbers: &[i64], own: usize, act: &Act) -> Result<Act, NoMemory>
    ensures { IfOk result (λ lifted. act_tree lifted ≡ lifted_act numbers.now own (act_tree act.now)) }
{
    match act {
        Act::Local { local, value: of } => Ok(Act::Local {
            local: *local,
            value: value(alloc, numbers, own, of)?,
        }),
        Act::Out {
            connector,
            at,
            value: of,
        } => Ok(Act::Out {
            connector: *connector,
            at: values(alloc, numbers, own, at)?,
            value: value(alloc, numbers, own, of)?,
        }),
        Act::When { when, body, other } => Ok(Act::When {
            when: value(alloc, numbers, own, when)?,
            body: acts(alloc, numbers, own, body)?,
            other: acts(alloc, numbers, own, other)?,
        }),
    }
}

/// The place of a number among others.
fn place_of(numbers: &[i64], number: i64) -> Option<usize>
    ensures { result ≡ position (int_eq number) numbers.now }
{
    numbers.iter().position(|other| number == *other)
}

/// The variable of a number. There is no room for 2^32 of them.
fn variable_of(numbers: &[i64], own: usize, number: i64) -> Result<Option<u32>, NoMemory>
    ensures { IfOk result (λ place. place ≡ literals.variable_of numbers.now own number) }
{
    let Some(place) = place_of(numbers, number) else {
        return Ok(None);
    };
    let variable = own.checked_add(place).ok_or(NoMemory)?;
    match u32::try_from(variable) {
        Ok(variable) => Ok(Some(variable)),
        Err(_) => Err(NoMemory),
    }
}

/// A number, by its variable where it has one.
fn number(numbers: &[i64], own: usize, number: i64) -> Result<Value, NoMemory>
    ensures { IfOk result (λ value. value_tree value ≡ number_in number (literals.variable_of numbers.now own number)) }
{
    match variable_of(numbers, own, number)? {
        None => Ok(Value::Number(number)),
        Some(place) => Ok(Value::Variable(place)),
    }
}

/// A variable of the code; one that is not there is 0.
fn variable(own: usize, place: u32) -> Value
    ensures { value_tree result ≡ own_variable own place }
{
    if (place as usize) < own {
        Value::Variable(place)
    } else {
        Value::Number(0)
    }
}

#[cycle(values)]
fn value(alloc: Global, numbers: &[i64], own: usize, value: &Value) -> Result<Value, NoMemory>
    ensures { IfOk result (λ lifted. value_tree lifted ≡ lifted_value numbers.now own (value_tree value.now)) }
{
    match value {
        Value::Number(of) => number(numbers, own, *of),
        Value::Variable(place) => Ok(variable(own, *place)),
        Value::Local(local) => Ok(Value::Local(*local)),
        Value::Input { connector, at } => Ok(Value::Input {
            connector: *connector,
            at: values(alloc, numbers, own, at)?,
        }),
        Value::One { sign, of } => Ok(Value::One {
            sign: *sign,
            of: boxed(alloc, numbers, own, of)?,
        }),
        Value::Two { sign, left, right } => Ok(Value::Two {
            sign: *sign,
            left: boxed(alloc, numbers, own, left)?,
            right: boxed(alloc, numbers, own, right)?,
        }),
        Value::Choice {
            value: chosen,
            when,
            other,
        } => Ok(Value::Choice {
            value: boxed(alloc, numbers, own, chosen)?,
            when: boxed(alloc, numbers, own, when)?,
            other: boxed(alloc, numbers, own, other)?,
        }),
    }
}

#[cycle(values)]
fn boxed(alloc: Global, numbers: &[i64], own: usize, of: &Value) -> Result<Box<Value>, NoMemory>
    ensures { IfOk result (λ lifted. value_tree lifted.value ≡ lifted_value numbers.now own (value_tree of.now)) }
{
    Ok(Box::new(alloc, value(alloc, numbers, own, of)?)?)
}

#[cycle(values)]
fn values(alloc: Global, numbers: &[i64], own: usize, all: &[Value]) -> Result<Vec<Value>, NoMemory>
    ensures { IfOk result (λ lifted. value_trees lifted.items ≡ lifted_values numbers.now own (value_trees all.now)) }
{
    let mut lifted = Vec::with_capacity(alloc, all.len())?;
    for one in all {
        lifted.push(value(alloc, numbers, own, one)?)?;
    }
    Ok(lifted)
}
