ghost use Rattle.std.specs.Prelude.{◌≡◌, IfOk};
ghost use Rattle.sd_graph.specs.TreeFold.{act_tree, act_trees, tasklet_tree, value_tree, value_trees};

use crate::operator::{OneSign, TwoSign};
use sd_list::{NoMemory, Text};
use std::alloc::Global;

/// The code of a tasklet or of a condition, with its connectors.
///
/// Connectors are numbered with the inputs first and then the outputs. `variables` has the
/// graph's numbers of the variables that the code uses; a `Value::Variable` goes by the place in
/// this list. `locals` is the number of locals, which are numbered from 0.
#[derive(Drop)]
pub struct Tasklet {
    pub ins: Vec<Port>,
    pub outs: Vec<Port>,
    pub variables: Vec<u32>,
    pub locals: u32,
    pub body: Vec<Act>,
}

impl Tasklet {
    /// The same code once more.
    pub fn copy_of(&self, alloc: Global) -> Result<Tasklet, NoMemory>
        ensures { IfOk result (λ copy. tasklet_tree copy ≡ tasklet_tree self.now) }
    {
        Ok(Tasklet {
            ins: copied_ports(alloc, &self.ins)?,
            outs: copied_ports(alloc, &self.outs)?,
            variables: self.variables.as_slice().to_vec(alloc)?,
            locals: self.locals,
            body: copied_acts(alloc, &self.body)?,
        })
    }
}

/// A connector. `dims` is 0 where it is a scalar, and an `at` of it is then empty.
#[derive(Drop)]
pub struct Port {
    pub connector: Text,
    pub dims: u32,
}

impl Port {
    /// The same connector once more.
    pub fn copy_of(&self, alloc: Global) -> Result<Port, NoMemory>
        ensures { IfOk result (λ copy. copy ≡ self.now) }
    {
        Ok(Port {
            connector: self.connector.copy_of(alloc)?,
            dims: self.dims,
        })
    }
}

/// The same connectors once more.
fn copied_ports(alloc: Global, ports: &[Port]) -> Result<Vec<Port>, NoMemory>
    ensures { IfOk result (λ copy. copy.items ≡ ports.now) }
{
    let mut copy = Vec::with_capacity(alloc, ports.len())?;
    for port in ports {
        copy.push(port.copy_of(alloc)?)?;
    }
    Ok(copy)
}

/// A statement of a tasklet.
#[derive(Drop)]
pub enum Act {
    /// `x = value`, a local.
    Local {
        local: u32,
        value: Value,
    },
    /// `c = value` or `c[x, y] = value`, an output connector.
    Out {
        connector: u32,
        at: Vec<Value>,
        value: Value,
    },
    /// `if when:` with its two blocks.
    When {
        when: Value,
        body: Vec<Act>,
        other: Vec<Act>,
    },
}

impl Act {
    /// The same statement once more.
    #[cycle(acts)]
    pub fn copy_of(&self, alloc: Global) -> Result<Act, NoMemory>
        ensures { IfOk result (λ copy. act_tree copy ≡ act_tree self.now) }
    {
        match self {
            Act::Local { local, value } => Ok(Act::Local {
                local: *local,
                value: value.copy_of(alloc)?,
            }),
            Act::Out {
                connector,
                at,
                value,
            } => Ok(Act::Out {
                connector: *connector,
                at: copied_values(alloc, at)?,
                value: value.copy_of(alloc)?,
            }),
            Act::When { when, body, other } => Ok(Act::When {
                when: when.copy_of(alloc)?,
                body: copied_acts(alloc, body)?,
                other: copied_acts(alloc, other)?,
            }),
        }
    }
}

/// The same statements once more.
#[cycle(acts)]
fn copied_acts(alloc: Global, acts: &[Act]) -> Result<Vec<Act>, NoMemory>
    ensures { IfOk result (λ copy. act_trees copy.items ≡ act_trees acts.now) }
{
    let mut copy = Vec::with_capacity(alloc, acts.len())?;
    for act in acts {
        copy.push(act.copy_of(alloc)?)?;
    }
    Ok(copy)
}

/// An expression of a tasklet.
#[derive(Drop)]
pub enum Value {
    Number(i64),
    /// By its place in the tasklet's `variables`.
    Variable(u32),
    Local(u32),
    /// `c` or `c[x, y]`, an input connector.
    Input {
        connector: u32,
        at: Vec<Value>,
    },
    One {
        sign: OneSign,
        of: Box<Value>,
    },
    Two {
        sign: TwoSign,
        left: Box<Value>,
        right: Box<Value>,
    },
    /// `value if when else other`
    Choice {
        value: Box<Value>,
        when: Box<Value>,
        other: Box<Value>,
    },
}

impl Value {
    /// The same expression once more.
    #[cycle(values)]
    pub fn copy_of(&self, alloc: Global) -> Result<Value, NoMemory>
        ensures { IfOk result (λ copy. value_tree copy ≡ value_tree self.now) }
    {
        match self {
            Value::Number(value) => Ok(Value::Number(*value)),
            Value::Variable(place) => Ok(Value::Variable(*place)),
            Value::Local(number) => Ok(Value::Local(*number)),
            Value::Input { connector, at } => Ok(Value::Input {
                connector: *connector,
                at: copied_values(alloc, at)?,
            }),
            Value::One { sign, of } => Ok(Value::One {
                sign: *sign,
                of: Box::new(alloc, of.copy_of(alloc)?)?,
            }),
            Value::Two { sign, left, right } => Ok(Value::Two {
                sign: *sign,
                left: Box::new(alloc, left.copy_of(alloc)?)?,
                right: Box::new(alloc, right.copy_of(alloc)?)?,
            }),
            Value::Choice { value, when, other } => Ok(Value::Choice {
                value: Box::new(alloc, value.copy_of(alloc)?)?,
                when: Box::new(alloc, when.copy_of(alloc)?)?,
                other: Box::new(alloc, other.copy_of(alloc)?)?,
            }),
        }
    }
}

/// The same expressions once more.
#[cycle(values)]
fn copied_values(alloc: Global, values: &[Value]) -> Result<Vec<Value>, NoMemory>
    ensures { IfOk result (λ copy. value_trees copy.items ≡ value_trees values.now) }
{
    let mut copy = Vec::with_capacity(alloc, values.len())?;
    for value in values {
        copy.push(value.copy_of(alloc)?)?;
    }
    Ok(copy)
}
