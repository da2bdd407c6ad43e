//! What scopes and transitions name once.
ghost use Rattle.std.specs.Prelude.{◌≡◌, ◌++◌, map, IfOk, OnOk};
ghost use Rattle.std.specs.List.{flat_map};
ghost use Rattle.sd_graph.specs.TreeFold.{exit_tree, kind_tree};
ghost use Rattle.sd_validity.specs.rules.Places.{doing, param_numbers};
ghost use Rattle.sd_places.specs.places.PlaceOf.{place_of, thing_of};
ghost use Rattle.sd_validity.specs.rules.NamesInForce as names;
ghost use Rattle.sd_rules.specs.Named.{numbers_of};

use crate::held::push_held_by;
use sd_graph::{Exit, ItemKind};
use sd_list::NoMemory;
use sd_places::{Place, Thing, has_number, push_assigned};
use sd_range::Range;
use std::alloc::Global;

/// Numbers that stand at a place: the containers that a scope makes its own, the parameters of a
/// map, or the variables that transitions set.
#[derive(Clone, Copy)]
pub(crate) enum Named {
    Held,
    Params,
    Set,
}

/// Adds the variables of parameters.
fn push_params(params: &[(u32, Range)], all: &mut Vec<u32>) -> Result<(), NoMemory>
    ensures { OnOk result (all.new.items ≡ all.old.items ++ param_numbers params.now) }
{
    for (variable, _) in params {
        all.push(*variable)?;
    }
    Ok(())
}

/// Adds the variables that transitions set.
fn push_set(exits: &[Exit], all: &mut Vec<u32>) -> Result<(), NoMemory>
    ensures { OnOk result (all.new.items ≡ all.old.items ++ flat_map (λ exit. map (λ assignment. assignment.0) exit.set) (map exit_tree exits.now)) }
{
    for exit in exits {
        push_assigned(exit.set.as_slice(), all)?;
    }
    Ok(())
}

/// Adds the parameters of an item, if it is a map.
fn push_params_of(kind: &ItemKind, all: &mut Vec<u32>) -> Result<(), NoMemory>
    ensures { OnOk result (all.new.items ≡ all.old.items ++ names.params_at (doing (kind_tree kind.now))) }
{
    match kind {
        ItemKind::Map { params, .. } => push_params(params, all),
        ItemKind::Task { .. }
        | ItemKind::Consume { .. }
        | ItemKind::Nested { .. }
        | ItemKind::Reduce { .. }
        | ItemKind::Copy { .. } => Ok(()),
    }
}

/// Adds the numbers at a place.
pub(crate) fn push_named(named: Named, thing: Thing<'_>, all: &mut Vec<u32>) -> Result<(), NoMemory>
    ensures { OnOk result (all.new.items ≡ all.old.items ++ numbers_of named (thing_of thing.entry)) }
{
    match thing {
        Thing::Whole => Ok(()),
        Thing::Leaving { exits, .. } => match named {
            Named::Set => push_set(exits, all),
            Named::Held | Named::Params => Ok(()),
        },
        Thing::Doing(kind) => match named {
            Named::Held => push_held_by(kind, all),
            Named::Params => push_params_of(kind, all),
            Named::Set => Ok(()),
        },
    }
}

/// Adds the numbers at the places of the same graph before a place.
fn push_before(
    named: Named,
    before: &[Place<'_>],
    place: &Place<'_>,
    all: &mut Vec<u32>,
) -> Result<(), NoMemory>
    ensures { OnOk result (all.new.items ≡ all.old.items ++ names.numbers_at (numbers_of named) (names.of_graph (map place_of before.now) (place_of place.now))) }
{
    for other in before {
        if other.is_of_graph(place) {
            push_named(named, other.thing, all)?;
        }
    }
    Ok(())
}

/// Whether none of the numbers is one of those that are known, and each is there once.
fn are_new(known: &mut Vec<u32>, numbers: &[u32]) -> Result<bool, NoMemory>
    ensures { IfOk result (λ are. are ≡ names.are_new known.old.items numbers.now) }
{
    for number in numbers {
        if has_number(known.as_slice(), *number) {
            return Ok(false);
        }
        known.push(*number)?;
    }
    Ok(true)
}

/// Whether none of the numbers is one of those that are known.
fn are_apart(known: &[u32], numbers: &[u32]) -> bool
    ensures { result ≡ names.are_apart known.now numbers.now }
{
    for number in numbers {
        if has_number(known, *number) {
            return false;
        }
    }
    true
}

/// Whether no container that a scope at a place makes its own is that of another scope.
fn are_held_once(alloc: Global, before: &[Place<'_>], place: &Place<'_>) -> Result<bool, NoMemory>
    ensures { IfOk result (λ are. are ≡ names.are_new (names.numbers_at names.held_at (names.of_graph (map place_of before.now) (place_of place.now))) (names.held_at (place_of place.now).thing)) }
{
    let mut held = Vec::new(alloc);
    push_named(Named::Held, place.thing, &mut held)?;
    if held.is_empty() {
        return Ok(true);
    }
    let mut known = Vec::new(alloc);
    push_before(Named::Held, before, place, &mut known)?;
    are_new(&mut known, held.as_slice())
}

/// Whether no parameter at a place is one of another map, or set by a transition.
fn are_params_once(alloc: Global, before: &[Place<'_>], place: &Place<'_>) -> Result<bool, NoMemory>
    ensures { IfOk result (λ are. are ≡ names.are_new (names.numbers_at names.params_at (names.of_graph (map place_of before.now) (place_of place.now))
        ++ names.numbers_at names.set_at (names.of_graph (map place_of before.now) (place_of place.now))) (names.params_at (place_of place.now).thing)) }
{
    let mut params = Vec::new(alloc);
    push_named(Named::Params, place.thing, &mut params)?;
    if params.is_empty() {
        return Ok(true);
    }
    let mut known = Vec::new(alloc);
    push_before(Named::Params, before, place, &mut known)?;
    push_before(Named::Set, before, place, &mut known)?;
    are_new(&mut known, params.as_slice())
}

/// Whether no variable that transitions set at a place is a parameter.
fn are_set_apart(alloc: Global, before: &[Place<'_>], place: &Place<'_>) -> Result<bool, NoMemory>
    ensures { IfOk result (λ are. are ≡ names.are_apart (names.numbers_at names.params_at (names.of_graph (map place_of before.now) (place_of place.now))) (names.set_at (place_of place.now).thing)) }
{
    let mut set = Vec::new(alloc);
    push_named(Named::Set, place.thing, &mut set)?;
    if set.is_empty() {
        return Ok(true);
    }
    let mut known = Vec::new(alloc);
    push_before(Named::Params, before, place, &mut known)?;
    Ok(are_apart(known.as_slice(), set.as_slice()))
}

/// Whether no container is made its own by two scopes, no variable is twice a parameter, and none is
/// a parameter and set by a transition.
pub(crate) fn are_single(
    alloc: Global,
    before: &[Place<'_>],
    place: &Place<'_>,
) -> Result<bool, NoMemory>
    ensures { IfOk result (λ are. are ≡ names.are_single (names.of_graph (map place_of before.now) (place_of place.now)) (place_of place.now).thing) }
{
    if !are_held_once(alloc, before, place)? {
        return Ok(false);
    }
    if !are_params_once(alloc, before, place)? {
        return Ok(false);
    }
    are_set_apart(alloc, before, place)
}
