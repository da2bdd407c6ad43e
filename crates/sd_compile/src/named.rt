ghost use Rattle.std.specs.Prelude.{◌≡◌, ◌≤◌, ℕ, IsTrue};
ghost use Rattle.std.specs.List.{AllByRecursion};
ghost use Rattle.sd_graph.specs.PlainTree.{assign};
ghost use Rattle.sd_graph.specs.TreeFold.{act_tree, act_trees, tasklet_tree, value_tree, value_trees};
ghost use Rattle.sd_tcode.specs.tcode.Named.{count_of, dimensions_of, NamesOf, AllNamesOf, SetsOf, AllSetsOf, IsNamed};

use sd_graph::{Act, Port, Tasklet, Value};

/// How many dimensions a connector has. One that is not there has none.
fn dimensions(code: &Tasklet, connector: u32) -> u32
    ensures { result ≡ dimensions_of (tasklet_tree code.now) connector }
{
    let place = connector as usize;
    let count = code.ins.len();
    if place < count {
        return code.ins[place].dims;
    }
    if place - count < code.outs.len() {
        return code.outs[place - count].dims;
    }
    0
}

/// How many expressions there are.
#[tactic(auto, using(crate::proofs::Values::count_by_length))]
fn count(values: &[Value]) -> usize
    ensures { result ≡ count_of (value_trees values.now) }
{
    values.len()
}

/// An expression names only what the code has.
#[cycle(names)]
fn has_names(code: &Tasklet, value: &Value) -> bool
    ensures { IsTrue result → NamesOf (tasklet_tree code.now) (value_tree value.now) }
{
    match value {
        Value::Number(_) => true,
        Value::Variable(place) => (*place as usize) < code.variables.len(),
        Value::Local(number) => *number < code.locals,
        Value::Input { connector, at } => {
            if *connector as usize >= code.ins.len() {
                return false;
            }
            if count(at) != dimensions(code, *connector) as usize {
                return false;
            }
            have_names(code, at)
        }
        Value::One { of, .. } => has_names(code, of),
        Value::Two { left, right, .. } => has_names(code, left) && has_names(code, right),
        Value::Choice { value, when, other } => {
            has_names(code, value) && has_names(code, when) && has_names(code, other)
        }
    }
}

/// Expressions name only what the code has.
#[cycle(names)]
fn have_names(code: &Tasklet, values: &[Value]) -> bool
    ensures { IsTrue result → AllNamesOf (tasklet_tree code.now) (value_trees values.now) }
{
    for value in values {
        if !has_names(code, value) {
            return false;
        }
    }
    true
}

/// A statement sets only what the code has.
#[cycle(sets)]
fn sets_names(code: &Tasklet, act: &Act) -> bool
    ensures { IsTrue result → SetsOf (tasklet_tree code.now) (act_tree act.now) }
{
    match act {
        Act::Local { local, value } => *local < code.locals && has_names(code, value),
        Act::Out {
            connector,
            at,
            value,
        } => is_assignment(code, *connector, at, value),
        Act::When { when, body, other } => {
            has_names(code, when) && set_names(code, body) && set_names(code, other)
        }
    }
}

/// An assignment names only what the code has.
fn is_assignment(code: &Tasklet, connector: u32, at: &[Value], value: &Value) -> bool
    ensures { IsTrue result → SetsOf (tasklet_tree code.now) (assign connector (value_trees at.now) (value_tree value.now)) }
{
    let place = connector as usize;
    if place < code.ins.len() || place - code.ins.len() >= code.outs.len() {
        return false;
    }
    if count(at) != dimensions(code, connector) as usize {
        return false;
    }
    have_names(code, at) && has_names(code, value)
}

/// Statements set only what the code has.
#[cycle(sets)]
fn set_names(code: &Tasklet, acts: &[Act]) -> bool
    ensures { IsTrue result → AllSetsOf (tasklet_tree code.now) (act_trees acts.now) }
{
    for act in acts {
        if !sets_names(code, act) {
            return false;
        }
    }
    true
}

/// None of these connectors has more than four dimensions.
fn have_few_dimensions(ports: &[Port]) -> bool
    ensures { IsTrue result → AllByRecursion (λ port. port.dims ≤ 4) ports.now }
{
    for port in ports {
        if port.dims > 4 {
            return false;
        }
    }
    true
}

/// No connector of the code has more than four dimensions.
#[tactic(auto, using(crate::proofs::FewDimensions::few_dimensions))]
fn has_few_dimensions(code: &Tasklet) -> bool
    ensures { IsTrue result → (connector : ℕ) → dimensions_of (tasklet_tree code.now) connector ≤ 4 }
{
    have_few_dimensions(&code.ins) && have_few_dimensions(&code.outs)
}

/// Code that may be compiled: it names only variables, locals and connectors that it has, each
/// connector with a subscript for each of its dimensions, and no connector has more than four.
pub fn is_named(code: &Tasklet) -> bool
    ensures { IsTrue result → IsNamed (tasklet_tree code.now) }
{
    has_few_dimensions(code) && set_names(code, &code.body)
}
