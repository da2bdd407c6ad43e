//! Variables, with those that their ranges, begins or ends name.
ghost use Rattle.std.specs.List.{filter};
ghost use Rattle.sd_places.specs.ranks.Listed.{listed};
ghost use Rattle.std.specs.Prelude.{◌≡◌, ◌++◌, ◌∷◌, [], map, option_map, IfOk, OnOk};
ghost use Rattle.sd_graph.specs.TreeFold.{act_trees, exit_tree, guard_tree, item_trees, kind_tree, state_trees, value_tree};
ghost use Rattle.sd_graph.specs.PlainTree.{StateTrees};
ghost use Rattle.sd_validity.specs.rules.Ranks as ranks;
ghost use Rattle.sd_validity.specs.rules.Shapes.{variables_in};

use crate::ranks::comparison::compared;
use crate::ranks::numbers::{has_number, variable_at};
use sd_graph::{Exit, Guard, Item, ItemKind, State, Value};
use sd_list::NoMemory;
use sd_range::{Affine, Range};
use std::alloc::Global;
use std::marker::Model;

/// A variable, with variables that its range, its begin or its end names.
#[derive(Drop)]
pub struct Naming {
    variable: u32,
    named: Vec<u32>,
}

impl Model for Naming {
    ghost use Rattle.sd_validity.specs.rules.Ranks as plain;

    ghost Value = { plain.Naming };

    ghost view = { λ n. record { variable = n.variable; named = n.named.items } };
}

impl Naming {
    fn new(variable: u32, named: Vec<u32>) -> Naming
        ensures { result ≡ record { variable = variable; named = named.items } }
    {
        Naming { variable, named }
    }

    pub(crate) fn variable(&self) -> u32
        ensures { result ≡ self.now.variable }
    {
        self.variable
    }

    pub(crate) fn named(&self) -> &[u32]
        ensures { result.now ≡ self.now.named }
    {
        self.named.as_slice()
    }
}

/// Adds the variables of an expression.
fn push_variables(a: &Affine, named: &mut Vec<u32>) -> Result<(), NoMemory>
    ensures { OnOk result (named.new.items ≡ named.old.items ++ variables_in a.now) }
{
    for (variable, _) in a.terms.as_slice() {
        named.push(*variable)?;
    }
    Ok(())
}

/// The variables that a range names.
fn range_variables(alloc: Global, range: &Range) -> Result<Vec<u32>, NoMemory>
    ensures { IfOk result (λ named. named.items ≡ ranks.range_variables range.now) }
{
    let mut named = Vec::new(alloc);
    push_variables(&range.begin, &mut named)?;
    for end in range.ends.as_slice() {
        push_variables(end, &mut named)?;
    }
    Ok(named)
}

/// Adds those that the ranges of a map's parameters name.
fn push_params(
    alloc: Global,
    params: &[(u32, Range)],
    all: &mut Vec<Naming>,
) -> Result<(), NoMemory>
    ensures { OnOk result (all.new.items ≡ all.old.items ++ ranks.param_namings params.now) }
{
    for (variable, range) in params {
        all.push(Naming::new(*variable, range_variables(alloc, range)?))?;
    }
    Ok(())
}

/// Adds those that values given to variables name.
fn push_assignments(
    alloc: Global,
    set: &[(u32, Affine)],
    all: &mut Vec<Naming>,
) -> Result<(), NoMemory>
    ensures { OnOk result (all.new.items ≡ all.old.items ++ map ranks.begin_naming set.now) }
{
    for (variable, value) in set {
        let mut named = Vec::new(alloc);
        push_variables(value, &mut named)?;
        all.push(Naming::new(*variable, named))?;
    }
    Ok(())
}

/// Adds those that the begins of loops name.
fn push_begins(alloc: Global, exits: &[Exit], all: &mut Vec<Naming>) -> Result<(), NoMemory>
    ensures { OnOk result (all.new.items ≡ all.old.items ++ ranks.begin_namings (map exit_tree exits.now)) }
{
    for exit in exits {
        if !exit.back {
            push_assignments(alloc, exit.set.as_slice(), all)?;
        }
    }
    Ok(())
}

/// Adds the variables of an affine value of code.
#[cycle(values)]
fn push_value(variables: &[u32], value: &Value, named: &mut Vec<u32>) -> Result<(), NoMemory>
    ensures { OnOk result (named.new.items ≡ named.old.items ++ ranks.value_variables variables.now (value_tree value.now)) }
{
    match value {
        Value::Variable(place) => Ok(named.push(variable_at(variables, *place))?),
        Value::One { of, .. } => push_value(variables, of, named),
        Value::Two { left, right, .. } => {
            push_value(variables, left, named)?;
            push_value(variables, right, named)
        }
        Value::Number(_) | Value::Local(_) | Value::Input { .. } | Value::Choice { .. } => Ok(()),
    }
}

/// What the condition of a transition compares with an end.
fn condition_naming(alloc: Global, when: &Option<Guard>) -> Result<Option<Naming>, NoMemory>
    ensures { IfOk result (λ naming. listed naming ≡ ranks.condition_naming (option_map guard_tree when.now)) }
{
    let Some(guard) = when else {
        return Ok(None);
    };
    let Some(comparison) = compared(&guard.code.body) else {
        return Ok(None);
    };
    let variables = guard.code.variables.as_slice();
    let mut named = Vec::new(alloc);
    push_value(variables, comparison.bound, &mut named)?;
    Ok(Some(Naming::new(variable_at(variables, comparison.place), named)))
}

/// Adds those that the ends of loops name, of the loops whose variables are begun.
fn push_ends(
    alloc: Global,
    begun: &[u32],
    exits: &[Exit],
    all: &mut Vec<Naming>,
) -> Result<(), NoMemory>
    ensures { OnOk result (all.new.items ≡ all.old.items ++ ranks.end_namings begun.now (map exit_tree exits.now)) }
{
    for exit in exits {
        if let Some(naming) = condition_naming(alloc, &exit.when)? {
            push_begun(begun, naming, all)?;
        }
    }
    Ok(())
}

/// Adds one of a variable that is begun.
fn push_begun(begun: &[u32], naming: Naming, all: &mut Vec<Naming>) -> Result<(), NoMemory>
    ensures { OnOk result (all.new.items ≡ all.old.items ++ filter (ranks.is_begun begun.now) (naming ∷ [])) }
{
    if has_number(begun, naming.variable()) {
        all.push(naming)?;
    }
    Ok(())
}

/// Adds those of an item.
#[cycle(namings)]
fn push_kind(alloc: Global, kind: &ItemKind, all: &mut Vec<Naming>) -> Result<(), NoMemory>
    ensures { OnOk result (all.new.items ≡ all.old.items ++ ranks.kind_namings (kind_tree kind.now)) }
{
    match kind {
        ItemKind::Map { params, body, .. } => {
            push_params(alloc, params, all)?;
            push_items(alloc, body, all)
        }
        ItemKind::Consume { body, .. } => push_items(alloc, body, all),
        ItemKind::Task { .. }
        | ItemKind::Nested { .. }
        | ItemKind::Reduce { .. }
        | ItemKind::Copy { .. } => Ok(()),
    }
}

/// Adds those of items.
#[cycle(namings)]
fn push_items(alloc: Global, items: &[Item], all: &mut Vec<Naming>) -> Result<(), NoMemory>
    ensures { OnOk result (all.new.items ≡ all.old.items ++ ranks.item_namings (item_trees items.now)) }
{
    for item in items {
        push_kind(alloc, &item.kind, all)?;
    }
    Ok(())
}

/// Adds the variables that a transition sets, if it leads to a state.
fn push_set_by(exit: &Exit, state: u32, begun: &mut Vec<u32>) -> Result<(), NoMemory>
    ensures { OnOk result (begun.new.items ≡ begun.old.items ++ ranks.set_by state (exit_tree exit.now)) }
{
    if exit.to == state {
        push_assigned(exit.set.as_slice(), begun)?;
    }
    Ok(())
}

/// Adds those of transitions.
fn push_set(exits: &[Exit], state: u32, begun: &mut Vec<u32>) -> Result<(), NoMemory>
    ensures { OnOk result (begun.new.items ≡ begun.old.items ++ ranks.set_to state (map exit_tree exits.now)) }
{
    for exit in exits {
        push_set_by(exit, state, begun)?;
    }
    Ok(())
}

/// Adds the variables of assignments.
pub fn push_assigned(set: &[(u32, Affine)], assigned: &mut Vec<u32>) -> Result<(), NoMemory>
    ensures { OnOk result (assigned.new.items ≡ assigned.old.items ++ map (λ assignment. assignment.0) set.now) }
{
    for (variable, _) in set {
        assigned.push(*variable)?;
    }
    Ok(())
}

/// The variables of the loops that begin at a state.
pub fn begun_at(alloc: Global, states: &[State], state: u32) -> Result<Vec<u32>, NoMemory>
    ensures { IfOk result (λ begun. begun.items ≡ ranks.begun_at (state_trees states.now) state) }
{
    let mut begun = Vec::new(alloc);
    for from in states {
        push_set(&from.exits, state, &mut begun)?;
    }
    Ok(begun)
}

/// All of the states of a graph.
pub(crate) fn namings(alloc: Global, states: &[State]) -> Result<Vec<Naming>, NoMemory>
    ensures { IfOk result (λ all. all.items ≡ ranks.namings (state_trees states.now)) }
{
    let mut all = Vec::new(alloc);
    let mut number = 0_u32;
    for state in states {
        let begun = begun_at(alloc, states, number)?;
        push_begins(alloc, &state.exits, &mut all)?;
        push_ends(alloc, &begun, &state.exits, &mut all)?;
        push_items(alloc, &state.items, &mut all)?;
        number = number.checked_add(1).ok_or(NoMemory)?;
    }
    Ok(all)
}
