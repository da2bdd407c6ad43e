//! Rule 3: where transitions lead, and the variables that they set.
ghost use Rattle.std.specs.Prelude.{◌≡◌, ◌++◌, map, option_map, slice_get, IfOk, OnOk};
ghost use Rattle.std.specs.List.{list_all};
ghost use Rattle.sd_graph.specs.TreeFold.{exit_tree, guard_tree, state_trees};
ghost use Rattle.sd_graph.specs.TreeParts as tree;
ghost use Rattle.sd_places.specs.ranks.ComparisonOf.{comparison_of};
ghost use Rattle.sd_places.specs.places.PlaceOf.{place_of, thing_of};
ghost use Rattle.sd_validity.specs.rules.Transitions as transitions;

use sd_graph::{Exit, Guard, State};
use sd_list::NoMemory;
use sd_places::{Comparison, Place, Rule, Thing, compared, is_affine_value};
use sd_range::Affine;
use sd_wire::leads_to;
use std::alloc::Global;

/// The transitions out of a state; none where there is no such state.
fn exits_at(states: &[State], number: u32) -> &[Exit]
    ensures { map exit_tree result.now ≡ tree.exits_at (state_trees states.now) number }
{
    let at = number as usize;
    if at < states.len() {
        states[at].exits.as_slice()
    } else {
        &[]
    }
}

/// How many states there are.
fn state_count(states: &[State]) -> usize
    ensures { result ≡ tree.count_states (state_trees states.now) }
{
    states.len()
}

/// Whether a transition leads to one of so many states: a higher one, or, marked, not a higher one.
fn leads_right(count: usize, state: u32, exit: &Exit) -> bool
    ensures { result ≡ transitions.leads_right count state (exit_tree exit.now) }
{
    if exit.to as usize >= count {
        return false;
    }
    if exit.back {
        exit.to <= state
    } else {
        state < exit.to
    }
}

/// Whether the variable at a place among those of code is this one.
fn is_number(variables: &[u32], place: u32, number: u32) -> bool
    ensures { result ≡ transitions.is_number (slice_get variables.now place) number }
{
    match variables.get(place as usize) {
        Some(variable) => *variable == number,
        None => false,
    }
}

/// Whether what is compared is whether a variable is below an affine value.
fn is_below(variables: &[u32], number: u32, comparison: Option<Comparison<'_>>) -> bool
    ensures { result ≡ transitions.is_below variables.now number (option_map comparison_of comparison.entry) }
{
    match comparison {
        None => false,
        Some(comparison) => {
            is_number(variables, comparison.place, number) && is_affine_value(comparison.bound)
        }
    }
}

/// Whether a condition reads nothing, and says that a variable is below an affine value.
fn is_condition_below(number: u32, when: &Option<Guard>) -> bool
    ensures { result ≡ transitions.is_condition_below number (option_map guard_tree when.now) }
{
    match when {
        None => false,
        Some(guard) => {
            guard.reads.is_empty()
                && is_below(
                    guard.code.variables.as_slice(),
                    number,
                    compared(&guard.code.body),
                )
        }
    }
}

/// Whether these are the transitions of a loop's begin.
fn begins_loop(number: u32, exits: &[Exit]) -> bool
    ensures { result ≡ transitions.begins_loop number (map exit_tree exits.now) }
{
    let [first, second] = exits else {
        return false;
    };
    is_condition_below(number, &first.when) && second.when.is_none()
}

/// Whether an expression is a variable plus a step of at least 1.
fn is_step_of(number: u32, value: &Affine) -> bool
    ensures { result ≡ transitions.is_step_of number value.now }
{
    let [term] = value.terms.as_slice() else {
        return false;
    };
    term.0 == number && term.1 == 1 && value.constant >= 1
}

/// Whether a state is not reached from another without coming to the begin, or is the begin.
fn is_kept_out(
    alloc: Global,
    states: &[State],
    begin: u32,
    from: u32,
    end: u32,
) -> Result<bool, NoMemory>
    ensures { IfOk result (λ is. is ≡ transitions.is_kept_out (state_trees states.now) begin from end) }
{
    if from == begin {
        return Ok(true);
    }
    Ok(!leads_to(alloc, states, begin as usize, from as usize, end as usize)?)
}

/// Whether the end of a loop is reached by its begin and the first of the begin's transitions alone.
fn is_entered_at_begin(
    alloc: Global,
    states: &[State],
    begin: u32,
    end: u32,
) -> Result<bool, NoMemory>
    ensures { IfOk result (λ is. is ≡ transitions.is_entered_at_begin (state_trees states.now) begin end (tree.exits_at (state_trees states.now) begin)) }
{
    let [_, second] = exits_at(states, begin) else {
        return Ok(false);
    };
    if !is_kept_out(alloc, states, begin, 0, end)? {
        return Ok(false);
    }
    is_kept_out(alloc, states, begin, second.to, end)
}

/// Whether a transition that sets a variable leads to the begin of the variable's loop, and a marked one closes it.
fn sets_loop_variable(
    alloc: Global,
    states: &[State],
    state: u32,
    exit: &Exit,
    variable: u32,
    value: &Affine,
) -> Result<bool, NoMemory>
    ensures { IfOk result (λ is. is ≡ transitions.sets_loop_variable (state_trees states.now) state (exit_tree exit.now) (variable, value.now)) }
{
    if !begins_loop(variable, exits_at(states, exit.to)) {
        return Ok(false);
    }
    if !exit.back {
        return Ok(true);
    }
    if !is_step_of(variable, value) {
        return Ok(false);
    }
    is_entered_at_begin(alloc, states, exit.to, state)
}

/// Whether all that a transition sets are variables of loops.
fn sets_loop_variables(
    alloc: Global,
    states: &[State],
    state: u32,
    exit: &Exit,
) -> Result<bool, NoMemory>
    ensures { IfOk result (λ is. is ≡ list_all (transitions.sets_loop_variable (state_trees states.now) state (exit_tree exit.now)) exit.now.set) }
{
    for (variable, value) in exit.set.as_slice() {
        if !sets_loop_variable(alloc, states, state, exit, *variable, value)? {
            return Ok(false);
        }
    }
    Ok(true)
}

/// Whether the transitions out of a state lead where they may, and set only variables of loops.
fn are_exits_right(
    alloc: Global,
    states: &[State],
    state: u32,
    exits: &[Exit],
) -> Result<bool, NoMemory>
    ensures { IfOk result (λ are. are ≡ list_all (transitions.is_exit_right (state_trees states.now) state) (map exit_tree exits.now)) }
{
    for exit in exits {
        if !leads_right(state_count(states), state, exit) {
            return Ok(false);
        }
        if !sets_loop_variables(alloc, states, state, exit)? {
            return Ok(false);
        }
    }
    Ok(true)
}

/// Adds the variables that a transition sets, each with the state to which it leads.
fn push_begins_of(exit: &Exit, begins: &mut Vec<(u32, u32)>) -> Result<(), NoMemory>
    ensures { OnOk result (begins.new.items ≡ begins.old.items ++ transitions.begins_of (exit_tree exit.now)) }
{
    for (variable, _) in exit.set.as_slice() {
        begins.push((*variable, exit.to))?;
    }
    Ok(())
}

/// Adds those of the transitions that stand at a place.
fn push_begins(thing: Thing<'_>, begins: &mut Vec<(u32, u32)>) -> Result<(), NoMemory>
    ensures { OnOk result (begins.new.items ≡ begins.old.items ++ transitions.begins_at (thing_of thing.entry)) }
{
    let Thing::Leaving { exits, .. } = thing else {
        return Ok(());
    };
    for exit in exits {
        push_begins_of(exit, begins)?;
    }
    Ok(())
}

/// Those of the same graph before a place.
fn begins_before(
    alloc: Global,
    before: &[Place<'_>],
    place: &Place<'_>,
) -> Result<Vec<(u32, u32)>, NoMemory>
    ensures { IfOk result (λ begins. begins.items ≡ transitions.begins_before (map place_of before.now) (place_of place.now)) }
{
    let mut begins = Vec::new(alloc);
    for other in before {
        if other.is_of_graph(place) {
            push_begins(other.thing, &mut begins)?;
        }
    }
    Ok(begins)
}

/// Whether a variable that is set has the same begin as among those that are known.
fn is_agreed(known: &[(u32, u32)], begin: (u32, u32)) -> bool
    ensures { result ≡ list_all (transitions.are_begins_agreed begin) known.now }
{
    for other in known {
        if begin.0 == other.0 && begin.1 != other.1 {
            return false;
        }
    }
    true
}

/// Whether each variable that is set has one begin, with those that are known.
fn agree(known: &mut Vec<(u32, u32)>, begins: &[(u32, u32)]) -> Result<bool, NoMemory>
    ensures { IfOk result (λ agree. agree ≡ transitions.agree known.old.items begins.now) }
{
    for begin in begins {
        if !is_agreed(known.as_slice(), *begin) {
            return Ok(false);
        }
        known.push(*begin)?;
    }
    Ok(true)
}

/// Whether each variable that is set at a place has the begin that it has at the places before.
fn have_one_begin(alloc: Global, before: &[Place<'_>], place: &Place<'_>) -> Result<bool, NoMemory>
    ensures { IfOk result (λ have. have ≡ transitions.agree (transitions.begins_before (map place_of before.now) (place_of place.now)) (transitions.begins_at (place_of place.now).thing)) }
{
    let mut begins = Vec::new(alloc);
    push_begins(place.thing, &mut begins)?;
    if begins.is_empty() {
        return Ok(true);
    }
    let mut known = begins_before(alloc, before, place)?;
    agree(&mut known, begins.as_slice())
}

/// Rule 3.
pub struct Transitions;

impl Rule for Transitions {
    ghost use Rattle.sd_validity.specs.rules.Transitions as transitions;

    ghost rule = { λ s. transitions.rule_3 };

    fn holds(
        &self,
        alloc: Global,
        before: &[Place<'_>],
        place: &Place<'_>,
    ) -> Result<bool, NoMemory> {
        match place.thing {
            Thing::Whole | Thing::Doing(_) => Ok(true),
            Thing::Leaving { exits, .. } => {
                if !are_exits_right(alloc, &place.graph.states, place.state, exits)? {
                    return Ok(false);
                }
                have_one_begin(alloc, before, place)
            }
        }
    }
}
