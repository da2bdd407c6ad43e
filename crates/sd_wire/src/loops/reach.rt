//! Which states one leads to.
ghost use Rattle.std.specs.Prelude.{◌≡◌, ℕ, ◌<◌, false, true, length, map, replicate, slice_index_or, slice_set, IfOk, IsTrue, OnOk};
ghost use Rattle.sd_graph.specs.LoopScope as definition;
ghost use Rattle.sd_graph.specs.TreeFold.{exit_tree, state_trees};
ghost use Rattle.sd_wire.specs.loops.Spread as spreads;

use crate::loops::path::are_same;
use sd_graph::{Exit, State};
use sd_list::NoMemory;
use std::alloc::Global;

/// Whether a table has a state; it has none beyond its end.
pub(crate) fn has_state(table: &[bool], state: usize) -> bool
    ensures { result ≡ slice_index_or table.now state false }
{
    match table.get(state) {
        Some(is) => *is,
        None => false,
    }
}

/// Adds a state to a table, where there is such a state.
fn add_state(state: usize, table: &mut Vec<bool>)
    ensures { table.new.items ≡ slice_set table.old.items state true }
{
    if state < table.len() {
        table[state] = true;
    }
}

/// Adds the states to which transitions lead, the one that is avoided aside.
fn add_next(exits: &[Exit], avoided: usize, table: &mut Vec<bool>)
    ensures { table.new.items ≡ spreads.with_next avoided (map exit_tree exits.now) table.old.items }
{
    for exit in exits {
        let next = exit.to as usize;
        if next != avoided {
            add_state(next, table);
        }
    }
}

/// Adds the states to which those of a table lead, state by state.
fn spread(states: &[State], avoided: usize, table: &mut Vec<bool>)
    ensures { table.new.items ≡ spreads.spread avoided 0 (state_trees states.now) table.old.items }
{
    for (from, state) in states.iter().enumerate() {
        if has_state(table.as_slice(), from) {
            add_next(state.exits.as_slice(), avoided, table);
        }
    }
}

/// The same, and whether the table stays as it was.
fn spread_on(
    alloc: Global,
    states: &[State],
    avoided: usize,
    table: &mut Vec<bool>,
) -> Result<bool, NoMemory>
    ensures grows { OnOk result (table.new.items ≡ spreads.spread avoided 0 (state_trees states.now) table.old.items) }
    ensures stays { IfOk result (λ same. IsTrue same → table.new.items ≡ table.old.items) }
{
    let before = table.as_slice().to_vec(alloc)?;
    spread(states, avoided, table);
    Ok(are_same(table.as_slice(), before.as_slice()))
}

/// A table of so many states with one of them.
fn table_of(alloc: Global, count: usize, state: usize) -> Result<Vec<bool>, NoMemory>
    ensures begun { IfOk result (λ table. table.items ≡ slice_set (replicate count false) state true) }
    ensures room { IfOk result (λ table. length table.items ≡ count) }
{
    let mut table = vec![in alloc; false; count]?;
    add_state(state, &mut table);
    Ok(table)
}

/// The table of the states to which one leads, without coming to it again.
pub(crate) fn led_from(alloc: Global, states: &[State], begin: usize) -> Result<Vec<bool>, NoMemory>
    ensures { IfOk result (λ table. (to : ℕ) → to < length states.now → slice_index_or table.items to false ≡ definition.leads_to (state_trees states.now) begin begin to) }
{
    let mut table = table_of(alloc, states.len(), begin)?;
    for round in 0..states.len() {
        if spread_on(alloc, states, begin, &mut table)? {
            return Ok(table);
        }
    }
    Ok(table)
}
