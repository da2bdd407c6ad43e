//! Names that a graph does not use.
ghost use Rattle.std.specs.Prelude.{◌≡◌, ◌++◌, map, string_bytes, IfOk, OnOk};
ghost use Rattle.sd_graph.specs.TreeFold.{exit_tree, graph_tree, item_trees, kind_tree, state_trees};
ghost use Rattle.sd_validity.specs.rules.Places.{param_numbers};
ghost use Rattle.sd_mapx.specs.FreshNames as definition;

use crate::copies;
use sd_graph::{Exit, Item, ItemKind, Sdfg, State};
use sd_list::NoMemory;
use sd_range::{Affine, Range};
use std::alloc::Global;

/// Adds the variables of parameters.
fn push_numbers(params: &[(u32, Range)], variables: &mut Vec<u32>) -> Result<(), NoMemory>
    ensures { OnOk result (variables.new.items ≡ variables.old.items ++ param_numbers params.now) }
{
    for (variable, _) in params {
        variables.push(*variable)?;
    }
    Ok(())
}

/// Adds the variables that are a parameter of an item or of one in it; a nested graph has variables of its own.
#[cycle(params)]
fn push_params_in(kind: &ItemKind, variables: &mut Vec<u32>) -> Result<(), NoMemory>
    ensures { OnOk result (variables.new.items ≡ variables.old.items ++ definition.params_in (kind_tree kind.now)) }
{
    match kind {
        ItemKind::Map { params, body, .. } => {
            push_numbers(params, variables)?;
            push_params_among(body, variables)
        }
        ItemKind::Consume { body, .. } => push_params_among(body, variables),
        ItemKind::Task { .. }
        | ItemKind::Nested { .. }
        | ItemKind::Reduce { .. }
        | ItemKind::Copy { .. } => Ok(()),
    }
}

/// Adds those of items.
#[cycle(params)]
fn push_params_among(items: &[Item], variables: &mut Vec<u32>) -> Result<(), NoMemory>
    ensures { OnOk result (variables.new.items ≡ variables.old.items ++ definition.params_among (item_trees items.now)) }
{
    for item in items {
        push_params_in(&item.kind, variables)?;
    }
    Ok(())
}

/// Adds the variables that a transition sets.
fn push_set(set: &[(u32, Affine)], variables: &mut Vec<u32>) -> Result<(), NoMemory>
    ensures { OnOk result (variables.new.items ≡ variables.old.items ++ map (λ assignment. assignment.0) set.now) }
{
    for (variable, _) in set {
        variables.push(*variable)?;
    }
    Ok(())
}

/// Adds the variables that transitions set.
fn push_set_by(exits: &[Exit], variables: &mut Vec<u32>) -> Result<(), NoMemory>
    ensures { OnOk result (variables.new.items ≡ variables.old.items ++ definition.set_by (map exit_tree exits.now)) }
{
    for exit in exits {
        push_set(exit.set.as_slice(), variables)?;
    }
    Ok(())
}

/// The variables that are a parameter or are set by a transition.
fn variables_used(alloc: Global, states: &[State]) -> Result<Vec<u32>, NoMemory>
    ensures { IfOk result (λ variables. variables.items ≡ definition.variables_used (state_trees states.now)) }
{
    let mut variables = Vec::new(alloc);
    for state in states {
        push_params_among(&state.items, &mut variables)?;
        push_set_by(&state.exits, &mut variables)?;
    }
    Ok(variables)
}

/// The name of a variable.
fn name_of(variables: &[String], variable: u32) -> &str
    ensures { result.now ≡ definition.name_of (map string_bytes variables.now) variable }
{
    match variables.get(variable as usize) {
        Some(name) => name.as_str(),
        None => "",
    }
}

/// Adds the names of variables.
fn push_names_of(
    alloc: Global,
    variables: &[String],
    numbers: &[u32],
    names: &mut Vec<String>,
) -> Result<(), NoMemory>
    ensures { OnOk result (map string_bytes names.new.items ≡ map string_bytes names.old.items ++ map (definition.name_of (map string_bytes variables.now)) numbers.now) }
{
    for variable in numbers {
        names.push(name_of(variables, *variable).to_string(alloc)?)?;
    }
    Ok(())
}

/// The names in use: of a graph's containers, and of the variables that are a parameter or are set by a transition.
pub(crate) fn names_in_use(alloc: Global, graph: &Sdfg) -> Result<Vec<String>, NoMemory>
    ensures { IfOk result (λ names. map string_bytes names.items ≡ definition.names_in_use (graph_tree graph.now)) }
{
    let variables = variables_used(alloc, &graph.states)?;
    let mut names = copies::container_names(alloc, &graph.containers)?;
    push_names_of(alloc, &graph.variables, variables.as_slice(), &mut names)?;
    Ok(names)
}

fn is_used(used: &[String], name: &str) -> bool
    ensures { result ≡ definition.is_used (map string_bytes used.now) name.now }
{
    for other in used {
        if name == other.as_str() {
            return true;
        }
    }
    false
}

/// A name, the sign `$` and a number.
fn numbered(alloc: Global, name: &str, number: usize) -> Result<String, NoMemory>
    ensures { IfOk result (λ text. string_bytes text ≡ definition.numbered name.now number) }
{
    Ok(format!(in alloc; "{name}${number}")?)
}

/// The name with the least number from 1 on that is not used.
fn fresh_name(alloc: Global, used: &[String], name: &str) -> Result<String, NoMemory>
    ensures { IfOk result (λ fresh. string_bytes fresh ≡ definition.fresh_name (map string_bytes used.now) name.now) }
{
    let last = used.len() + 1;
    for number in 1..last {
        let fresh = numbered(alloc, name, number)?;
        if !is_used(used, fresh.as_str()) {
            return Ok(fresh);
        }
    }
    numbered(alloc, name, last)
}

/// A fresh name for each of these parameters, used from then on.
pub(crate) fn fresh_names(
    alloc: Global,
    mut used: Vec<String>,
    variables: &[String],
    params: &[(u32, Range)],
) -> Result<Vec<String>, NoMemory>
    ensures { IfOk result (λ fresh. map string_bytes fresh.items ≡ definition.fresh_names (map string_bytes used.items) (map (λ param. definition.name_of (map string_bytes variables.now) param.0) params.now)) }
{
    let mut fresh = Vec::with_capacity(alloc, params.len())?;
    for (variable, _) in params {
        let name = fresh_name(alloc, used.as_slice(), name_of(variables, *variable))?;
        used.push(name.as_str().to_string(alloc)?)?;
        fresh.push(name)?;
    }
    Ok(fresh)
}
