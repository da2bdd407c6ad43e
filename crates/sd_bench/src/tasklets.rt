use sd_graph::{Act, Port, Tasklet, TwoSign, Value};
use sd_list::{NoMemory, Text};
use std::alloc::Global;

/// A scalar input.
fn input(alloc: Global, connector: u32) -> Value {
    Value::Input {
        connector,
        at: Vec::new(alloc),
    }
}

fn two(alloc: Global, sign: TwoSign, left: Value, right: Value) -> Result<Value, NoMemory> {
    Ok(Value::Two {
        sign,
        left: Box::new(alloc, left)?,
        right: Box::new(alloc, right)?,
    })
}

/// The output gets a value.
fn stored(alloc: Global, value: Value) -> Act {
    Act::Out {
        connector: 3,
        at: Vec::new(alloc),
        value,
    }
}

fn scalar(alloc: Global, name: &str) -> Result<Port, NoMemory> {
    Ok(Port {
        connector: Text::from(name.to_string(alloc)?),
        dims: 0,
    })
}

/// A tasklet with the inputs `a`, `b` and `c` and the output `o`.
fn tasklet(alloc: Global, act: Act) -> Result<Tasklet, NoMemory> {
    Ok(Tasklet {
        ins: vec![in alloc;
            scalar(alloc, "a")?,
            scalar(alloc, "b")?,
            scalar(alloc, "c")?,
        ]?,
        outs: vec![in alloc; scalar(alloc, "o")?]?,
        variables: Vec::new(alloc),
        locals: 0,
        body: vec![in alloc; act]?,
    })
}

/// `o = a * b + c`
fn product_and_sum(alloc: Global) -> Result<Tasklet, NoMemory> {
    let product = two(alloc, TwoSign::Mul, input(alloc, 0), input(alloc, 1))?;
    let value = two(alloc, TwoSign::Add, product, input(alloc, 2))?;
    tasklet(alloc, stored(alloc, value))
}

/// `o = (a + b + c) // 3`
fn stencil(alloc: Global) -> Result<Tasklet, NoMemory> {
    let sum = two(alloc, TwoSign::Add, input(alloc, 0), input(alloc, 1))?;
    let sum = two(alloc, TwoSign::Add, sum, input(alloc, 2))?;
    let value = two(alloc, TwoSign::FloorDiv, sum, Value::Number(3))?;
    tasklet(alloc, stored(alloc, value))
}

/// `o = a - b` where `a > b`, else `o = c`
fn branch(alloc: Global) -> Result<Tasklet, NoMemory> {
    let when = two(alloc, TwoSign::Greater, input(alloc, 0), input(alloc, 1))?;
    let value = two(alloc, TwoSign::Sub, input(alloc, 0), input(alloc, 1))?;
    let act = Act::When {
        when,
        body: vec![in alloc; stored(alloc, value)]?,
        other: vec![in alloc; stored(alloc, input(alloc, 2))]?,
    };
    tasklet(alloc, act)
}

/// The tasklet of this name, the first one for a name that is none.
pub(crate) fn named(alloc: Global, name: &str) -> Result<Tasklet, NoMemory> {
    match name {
        "stencil" => stencil(alloc),
        "branch" => branch(alloc),
        _ => product_and_sum(alloc),
    }
}
