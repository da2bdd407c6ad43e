//! The containers that scopes make their own.
ghost use Rattle.std.specs.Prelude.{◌≡◌, ◌++◌, ◌∷◌, length, map, IfOk, OnOk};
ghost use Rattle.std.specs.List.{list_all};
ghost use Rattle.sd_graph.specs.ContainerParts as parts;
ghost use Rattle.sd_graph.specs.InForce as force;
ghost use Rattle.sd_graph.specs.LoopScope.{numbers_below};
ghost use Rattle.sd_graph.specs.TreeFold.{graph_tree, item_trees, kind_tree, named_container, state_trees};
ghost use Rattle.sd_validity.specs.rules.NamesInForce as names;

use indexmap::IndexMap;
use sd_graph::{Container, ContainerKind, Item, ItemKind, Sdfg, State};
use sd_list::NoMemory;
use sd_places::{container_at, has_number};
use sd_range::Affine;
use std::alloc::Global;

/// Whether a kind is private.
fn is_private(kind: ContainerKind) -> bool
    ensures { result ≡ force.is_private kind }
{
    match kind {
        ContainerKind::Private | ContainerKind::PrivateStream => true,
        ContainerKind::Argument | ContainerKind::Transient | ContainerKind::Stream => false,
    }
}

/// Whether a container is private; one that is not there counts as such.
pub(crate) fn is_private_at(containers: &IndexMap<String, Container>, number: u32) -> bool
    ensures { result ≡ force.is_private (parts.container_at (map named_container containers.now.entries) number).kind }
{
    match container_at(containers, number) {
        Some(container) => is_private(container.kind),
        None => true,
    }
}

/// Whether there is a private container of this number.
fn is_own(containers: &IndexMap<String, Container>, number: u32) -> bool
    ensures { result ≡ names.is_own (map named_container containers.now.entries) number }
{
    (number as usize) < containers.len() && is_private_at(containers, number)
}

/// Whether there is one of each of these numbers.
pub(crate) fn are_own(containers: &IndexMap<String, Container>, numbers: &[u32]) -> bool
    ensures { result ≡ list_all (names.is_own (map named_container containers.now.entries)) numbers.now }
{
    for number in numbers {
        if !is_own(containers, *number) {
            return false;
        }
    }
    true
}

/// Adds numbers.
pub(crate) fn push_numbers(numbers: &[u32], all: &mut Vec<u32>) -> Result<(), NoMemory>
    ensures { OnOk result (all.new.items ≡ all.old.items ++ numbers.now) }
{
    for number in numbers {
        all.push(*number)?;
    }
    Ok(())
}

/// Adds what an item makes its own, if it is a scope.
pub(crate) fn push_held_by(kind: &ItemKind, held: &mut Vec<u32>) -> Result<(), NoMemory>
    ensures { OnOk result (held.new.items ≡ held.old.items ++ names.held_by (kind_tree kind.now)) }
{
    match kind {
        ItemKind::Map { private, .. } => push_numbers(private, held),
        ItemKind::Consume {
            element,
            private,
            ..
        } => {
            held.push(*element)?;
            push_numbers(private, held)
        }
        ItemKind::Task { .. }
        | ItemKind::Nested { .. }
        | ItemKind::Reduce { .. }
        | ItemKind::Copy { .. } => Ok(()),
    }
}

/// Adds that of the scopes of an item.
#[cycle(holding)]
fn push_kind(kind: &ItemKind, held: &mut Vec<u32>) -> Result<(), NoMemory>
    ensures { OnOk result (held.new.items ≡ held.old.items ++ names.held_in_kind (kind_tree kind.now)) }
{
    push_held_by(kind, held)?;
    match kind {
        ItemKind::Map { body, .. } | ItemKind::Consume { body, .. } => push_items(body, held),
        ItemKind::Task { .. }
        | ItemKind::Nested { .. }
        | ItemKind::Reduce { .. }
        | ItemKind::Copy { .. } => Ok(()),
    }
}

#[cycle(holding)]
fn push_items(items: &[Item], held: &mut Vec<u32>) -> Result<(), NoMemory>
    ensures { OnOk result (held.new.items ≡ held.old.items ++ names.held_in (item_trees items.now)) }
{
    for item in items {
        push_kind(&item.kind, held)?;
    }
    Ok(())
}

/// What the scopes of states make their own.
fn held_in_states(alloc: Global, states: &[State]) -> Result<Vec<u32>, NoMemory>
    ensures { IfOk result (λ held. held.items ≡ names.held_in_states (state_trees states.now)) }
{
    let mut held = Vec::new(alloc);
    for state in states {
        push_items(&state.items, &mut held)?;
    }
    Ok(held)
}

/// Whether a container is held by a scope, if it is private.
fn is_private_held(containers: &IndexMap<String, Container>, held: &[u32], number: u32) -> bool
    ensures { result ≡ names.is_private_held (map named_container containers.now.entries) held.now number }
{
    !is_private_at(containers, number) || has_number(held, number)
}

/// How many containers there are.
fn container_count(containers: &IndexMap<String, Container>) -> Result<u32, NoMemory>
    ensures { IfOk result (λ count. count ≡ length containers.now.entries) }
{
    let count = u32::try_from(containers.len()).map_err(|_| NoMemory)?;
    Ok(count)
}

/// Whether each of the first so many containers is, if it is private.
fn are_first_held(containers: &IndexMap<String, Container>, held: &[u32], count: u32) -> bool
    ensures { result ≡ list_all (names.is_private_held (map named_container containers.now.entries) held.now) (numbers_below count) }
{
    for number in 0..count {
        if !is_private_held(containers, held, number) {
            return false;
        }
    }
    true
}

/// Whether each private container of a graph is that of a scope.
pub(crate) fn are_private_held(alloc: Global, graph: &Sdfg) -> Result<bool, NoMemory>
    ensures { IfOk result (λ are. are ≡ names.are_private_held (graph_tree graph.now)) }
{
    let held = held_in_states(alloc, &graph.states)?;
    let count = container_count(&graph.containers)?;
    let are = are_first_held(&graph.containers, held.as_slice(), count);
    Ok(are)
}

/// Whether extents are the one constant extent 1.
fn is_one(extents: &[Affine]) -> bool
    ensures { result ≡ names.is_one extents.now }
{
    let [extent] = extents else {
        return false;
    };
    extent.constant == 1 && extent.terms.as_slice().is_empty()
}

/// Whether a container is a private array with one element, as that of a consume scope.
pub(crate) fn is_element(containers: &IndexMap<String, Container>, number: u32) -> bool
    ensures { result ≡ names.is_element (parts.container_at (map named_container containers.now.entries) number) }
{
    match container_at(containers, number) {
        Some(container) => match container.kind {
            ContainerKind::Private => is_one(container.extents.as_slice()),
            ContainerKind::PrivateStream
            | ContainerKind::Argument
            | ContainerKind::Transient
            | ContainerKind::Stream => false,
        },
        None => false,
    }
}
