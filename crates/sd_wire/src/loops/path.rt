//! Which states lead to one.
ghost use Rattle.std.specs.Prelude.{◌≡◌, ℕ, map, IfOk, IsTrue};
ghost use Rattle.sd_graph.specs.LoopScope as definition;
ghost use Rattle.sd_graph.specs.TreeFold.{exit_tree, state_trees};
ghost use Rattle.sd_wire.specs.loops.Table as tables;

use sd_graph::{Exit, State};
use sd_list::NoMemory;
use std::alloc::Global;

/// Whether a state leads to one, by a table.
pub(crate) fn looked(table: &[bool], to: usize, from: usize) -> bool
    ensures { result ≡ tables.looked table.now to from }
{
    if from < table.len() {
        table[from]
    } else {
        from == to
    }
}

/// Whether a state is the one, or one of its transitions leads to it, by a table.
fn leads_on(table: &[bool], avoided: usize, to: usize, from: usize, exits: &[Exit]) -> bool
    ensures { result ≡ tables.leads_on table.now avoided to from (map exit_tree exits.now) }
{
    if from == to {
        return true;
    }
    for exit in exits {
        let next = exit.to as usize;
        if next != avoided && looked(table, to, next) {
            return true;
        }
    }
    false
}

/// The table for one transition more.
fn raised(
    alloc: Global,
    states: &[State],
    table: &[bool],
    avoided: usize,
    to: usize,
) -> Result<Vec<bool>, NoMemory>
    ensures { IfOk result (λ next. next.items ≡ tables.raised table.now avoided to 0 (state_trees states.now)) }
{
    let mut next = Vec::with_capacity(alloc, states.len())?;
    for (from, state) in states.iter().enumerate() {
        next.push(leads_on(table, avoided, to, from, state.exits.as_slice()))?;
    }
    Ok(next)
}

/// Whether both tables are the same.
pub(crate) fn are_same(a: &[bool], b: &[bool]) -> bool
    ensures { IsTrue result → a.now ≡ b.now }
{
    a == b
}

/// The table of the states that lead to one, without coming to the state that is avoided.
pub(crate) fn leading_to(
    alloc: Global,
    states: &[State],
    avoided: usize,
    to: usize,
) -> Result<Vec<bool>, NoMemory>
    ensures { IfOk result (λ table. (from : ℕ) → tables.looked table.items to from ≡ definition.leads_to (state_trees states.now) avoided from to) }
{
    let mut table = Vec::new(alloc);
    for round in 0..states.len() {
        let next = raised(alloc, states, table.as_slice(), avoided, to)?;
        if are_same(next.as_slice(), table.as_slice()) {
            return Ok(table);
        }
        table = next;
    }
    Ok(table)
}

/// Whether a path leads from one state to another, without coming to the state that is avoided.
pub fn leads_to(
    alloc: Global,
    states: &[State],
    avoided: usize,
    from: usize,
    to: usize,
) -> Result<bool, NoMemory>
    ensures { IfOk result (λ leads. leads ≡ definition.leads_to (state_trees states.now) avoided from to) }
{
    let table = leading_to(alloc, states, avoided, to)?;
    Ok(looked(table.as_slice(), to, from))
}
