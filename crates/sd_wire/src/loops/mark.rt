//! Marked transitions.
ghost use Rattle.std.specs.Prelude.{◌≡◌, ◌++◌, map, nat_eq, IfOk, OnOk};
ghost use Rattle.std.specs.List.{flat_map, list_any};
ghost use Rattle.sd_graph.specs.LoopScope as definition;
ghost use Rattle.sd_graph.specs.TreeFold.{exit_tree, state_trees};
ghost use Rattle.sd_wire.specs.loops.Marks.{closing_variables, is_any_marked, returns_to, variables_set};

use sd_graph::{Exit, State};
use sd_list::NoMemory;
use sd_range::Affine;
use std::alloc::Global;

/// Whether one of the transitions is marked.
fn has_marked(exits: &[Exit]) -> bool
    ensures { result ≡ list_any (λ exit. exit.back) (map exit_tree exits.now) }
{
    for exit in exits {
        if exit.back {
            return true;
        }
    }
    false
}

/// Whether a transition of one of the states is marked.
pub(crate) fn is_any_marked(states: &[State]) -> bool
    ensures { result ≡ is_any_marked (state_trees states.now) }
{
    for state in states {
        if has_marked(state.exits.as_slice()) {
            return true;
        }
    }
    false
}

/// Whether one of the transitions is marked and leads to this state.
pub(crate) fn has_return(exits: &[Exit], begin: usize) -> bool
    ensures { result ≡ list_any (returns_to begin) (map exit_tree exits.now) }
{
    for exit in exits {
        if exit.back && exit.to as usize == begin {
            return true;
        }
    }
    false
}

/// Whether one of the assignments is to this variable.
fn sets(assignments: &[(u32, Affine)], variable: u32) -> bool
    ensures { result ≡ list_any (λ assignment. nat_eq assignment.0 variable) assignments.now }
{
    for (assigned, _) in assignments {
        if *assigned == variable {
            return true;
        }
    }
    false
}

/// Whether a transition closes a loop with this begin and variable.
fn closes_loop(exit: &Exit, begin: usize, variable: u32) -> bool
    ensures { result ≡ definition.closes_loop begin variable (exit_tree exit.now) }
{
    exit.back && exit.to as usize == begin && sets(exit.set.as_slice(), variable)
}

/// Whether one of the transitions does.
pub(crate) fn close_loop(exits: &[Exit], begin: usize, variable: u32) -> bool
    ensures { result ≡ list_any (definition.closes_loop begin variable) (map exit_tree exits.now) }
{
    for exit in exits {
        if closes_loop(exit, begin, variable) {
            return true;
        }
    }
    false
}

/// Adds the variables of assignments.
fn push_assigned(assignments: &[(u32, Affine)], found: &mut Vec<u32>) -> Result<(), NoMemory>
    ensures { OnOk result (found.new.items ≡ found.old.items ++ map (λ assignment. assignment.0) assignments.now) }
{
    for (variable, _) in assignments {
        found.push(*variable)?;
    }
    Ok(())
}

/// Adds the variables that a transition sets, where it is marked and leads to this state.
fn push_set(exit: &Exit, begin: usize, found: &mut Vec<u32>) -> Result<(), NoMemory>
    ensures { OnOk result (found.new.items ≡ found.old.items ++ variables_set begin (exit_tree exit.now)) }
{
    if exit.back && exit.to as usize == begin {
        return push_assigned(exit.set.as_slice(), found);
    }
    Ok(())
}

/// Adds those of transitions.
fn push_all_set(exits: &[Exit], begin: usize, found: &mut Vec<u32>) -> Result<(), NoMemory>
    ensures { OnOk result (found.new.items ≡ found.old.items ++ flat_map (variables_set begin) (map exit_tree exits.now)) }
{
    for exit in exits {
        push_set(exit, begin, found)?;
    }
    Ok(())
}

/// The variables that marked transitions set which lead to this state.
pub(crate) fn closing_variables(
    alloc: Global,
    states: &[State],
    begin: usize,
) -> Result<Vec<u32>, NoMemory>
    ensures { IfOk result (λ found. found.items ≡ closing_variables begin (state_trees states.now)) }
{
    let mut found = Vec::new(alloc);
    for state in states {
        push_all_set(state.exits.as_slice(), begin, &mut found)?;
    }
    Ok(found)
}
