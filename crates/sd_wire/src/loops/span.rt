//! The states in which the variables of loops are in force.
ghost use Rattle.std.specs.Prelude.{◌≡◌, ℕ, [], ◌∷◌, ◌++◌, map, ◌&&◌, ◌||◌, false, slice_index_or, IfOk, OnOk};
ghost use Rattle.std.specs.List.{filter, list_any};
ghost use Rattle.sd_graph.specs.LoopScope as definition;
ghost use Rattle.sd_graph.specs.LoopScope.{numbers_below};
ghost use Rattle.sd_graph.specs.TreeFold.{exit_tree, state_trees};
ghost use Rattle.sd_graph.specs.TreeParts.{count_states};
ghost use Rattle.sd_wire.specs.loops.Marks as marks;
ghost use Rattle.sd_wire.specs.loops.Spans as spans_of;

use crate::loops::mark::{close_loop, closing_variables, is_any_marked};
use crate::loops::path::{leading_to, looked};
use crate::loops::reach::{has_state, led_from};
use crate::wiring::has_number;
use sd_graph::{Exit, State};
use sd_list::NoMemory;
use std::alloc::Global;

/// The variable of a loop, and whether it is in force in each state.
#[derive(Drop)]
pub struct LoopSpan {
    variable: u32,
    states: Vec<bool>,
}

/// The end of a loop, and the table of the states that lead to it.
#[derive(Drop)]
pub(crate) struct LoopEnd {
    number: usize,
    leading: Vec<bool>,
}

/// Whether a state leads to one of the ends.
fn leads_to_end(ends: &[LoopEnd], state: usize) -> bool
    ensures { result ≡ list_any (spans_of.leads_to_end state) ends.now }
{
    for end in ends {
        if looked(end.leading.as_slice(), end.number, state) {
            return true;
        }
    }
    false
}

/// Adds a state that is the end of loops with this begin and variable, where it is one by its transitions.
fn push_end(
    alloc: Global,
    states: &[State],
    begin: usize,
    variable: u32,
    number: usize,
    exits: &[Exit],
    ends: &mut Vec<LoopEnd>,
) -> Result<(), NoMemory>
    ensures { OnOk result ((state : ℕ) → list_any (spans_of.leads_to_end state) ends.new.items ≡ (list_any (spans_of.leads_to_end state) ends.old.items || (list_any (definition.closes_loop begin variable) (map exit_tree exits.now) && definition.leads_to (state_trees states.now) begin state number))) }
{
    if !close_loop(exits, begin, variable) {
        return Ok(());
    }
    let leading = leading_to(alloc, states, begin, number)?;
    ends.push(LoopEnd { number, leading })?;
    Ok(())
}

/// The ends of the loops with this begin and variable.
fn loop_ends(
    alloc: Global,
    states: &[State],
    begin: usize,
    variable: u32,
) -> Result<Vec<LoopEnd>, NoMemory>
    ensures { IfOk result (λ ends. (state : ℕ) → list_any (spans_of.leads_to_end state) ends.items ≡ list_any (spans_of.is_before_end (state_trees states.now) begin variable state) (numbers_below (count_states (state_trees states.now)))) }
{
    let mut ends = Vec::new(alloc);
    for (number, last) in states.iter().enumerate() {
        let exits = last.exits.as_slice();
        push_end(alloc, states, begin, variable, number, exits, &mut ends)?;
    }
    Ok(ends)
}

/// Adds to a table whether a state stands in another one and leads to one of the ends.
fn push_state(
    led: &[bool],
    ends: &[LoopEnd],
    state: usize,
    table: &mut Vec<bool>,
) -> Result<(), NoMemory>
    ensures { OnOk result (table.new.items ≡ table.old.items ++ (slice_index_or led.now state false && list_any (spans_of.leads_to_end state) ends.now) ∷ []) }
{
    table.push(has_state(led, state) && leads_to_end(ends, state))?;
    Ok(())
}

/// The table of the states in which the variable of the loops with this begin is in force.
fn states_in_force(
    alloc: Global,
    states: &[State],
    begin: usize,
    variable: u32,
) -> Result<Vec<bool>, NoMemory>
    ensures { IfOk result (λ table. (state : ℕ) → slice_index_or table.items state false ≡ definition.is_in_force (state_trees states.now) state begin variable) }
{
    let reached = led_from(alloc, states, begin)?;
    let led = reached.as_slice();
    let found = loop_ends(alloc, states, begin, variable)?;
    let ends = found.as_slice();
    let mut table = Vec::with_capacity(alloc, states.len())?;
    for state in 0..states.len() {
        push_state(led, ends, state, &mut table)?;
    }
    Ok(table)
}

/// Adds the variable of loops with this begin, where it is among those that close such loops.
fn push_span(
    alloc: Global,
    states: &[State],
    begin: usize,
    closing: &[u32],
    variable: u32,
    spans: &mut Vec<LoopSpan>,
) -> Result<(), NoMemory>
    requires { closing.now ≡ marks.closing_variables begin (state_trees states.now) }
    ensures { OnOk result ((state : ℕ) → spans_of.variables_in spans.new.items state ≡ spans_of.variables_in spans.old.items state ++ filter (definition.is_in_force (state_trees states.now) state begin) (variable ∷ [])) }
{
    if !has_number(closing, variable) {
        return Ok(());
    }
    let states = states_in_force(alloc, states, begin, variable)?;
    spans.push(LoopSpan { variable, states })?;
    Ok(())
}

/// Adds the variables of the loops with this begin, of so many variables.
fn push_spans(
    alloc: Global,
    states: &[State],
    begin: usize,
    variables: u32,
    spans: &mut Vec<LoopSpan>,
) -> Result<(), NoMemory>
    ensures { OnOk result ((state : ℕ) → spans_of.variables_in spans.new.items state ≡ spans_of.variables_in spans.old.items state ++ filter (definition.is_in_force (state_trees states.now) state begin) (numbers_below variables)) }
{
    let closing = closing_variables(alloc, states, begin)?;
    if closing.is_empty() {
        return Ok(());
    }
    for variable in 0..variables {
        push_span(alloc, states, begin, closing.as_slice(), variable, spans)?;
    }
    Ok(())
}

/// The variables of a graph's loops, each with the states in which it is in force. There are as many
/// variables as told.
pub fn loop_spans(
    alloc: Global,
    states: &[State],
    variables: u32,
) -> Result<Vec<LoopSpan>, NoMemory>
    ensures { IfOk result (λ spans. (state : ℕ) → spans_of.variables_in spans.items state ≡ definition.loops_in_force (state_trees states.now) variables state) }
{
    let mut spans = Vec::new(alloc);
    if !is_any_marked(states) {
        return Ok(spans);
    }
    for begin in 0..states.len() {
        push_spans(alloc, states, begin, variables, &mut spans)?;
    }
    Ok(spans)
}

/// Those in force in a state, the outermost first.
pub fn variables_in(alloc: Global, spans: &[LoopSpan], state: u32) -> Result<Vec<u32>, NoMemory>
    ensures { IfOk result (λ found. found.items ≡ spans_of.variables_in spans.now state) }
{
    let mut found = Vec::new(alloc);
    for span in spans {
        if has_state(span.states.as_slice(), state as usize) {
            found.push(span.variable)?;
        }
    }
    Ok(found)
}
