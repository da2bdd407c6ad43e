//! The limits on the elements of containers.
ghost use Rattle.std.specs.Prelude.{◌≡◌, ◌≤◌, ◌+◌, ◌-◌, ◌^◌, min, unsigned_abs, true, false, map, IfOk, MatchOption};
ghost use Rattle.sd_range.specs.Points.{product};
ghost use Rattle.sd_graph.specs.ContainerParts.{extents_of};
ghost use Rattle.sd_graph.specs.TreeFold.{graph_tree, item_trees, kind_tree, named_container, state_trees};
ghost use Rattle.sd_valid.specs.Limits.{all_containers, elements_in, has_negative, is_over, items_containers, kind_containers, states_containers, tally};
ghost use Rattle.sd_valid.specs.Counting.{Tallies};

use crate::error::{BindError, text_of};
use indexmap::IndexMap;
use sd_graph::{Container, ContainerKind, Item, ItemKind, Sdfg, State};
use sd_range::Affine;
use std::alloc::Global;

/// The most elements of one container, 2^24.
const MOST: u128 = 1 << 24;

/// The most elements of all containers together, 2^26.
const MOST_TOGETHER: u128 = 1 << 26;

/// Whether a container has a negative extent.
fn is_negative(container: &Container) -> bool
    ensures { result ≡ has_negative container.now }
{
    for extent in container.extents.as_slice() {
        if extent.constant < 0 {
            return true;
        }
    }
    false
}

/// The product of the extents; from 2^128 on it counts as one less.
fn product_of_extents(container: &Container) -> u128
    ensures { result ≡ min (product (extents_of container.now)) (2 ^ 128 - 1) }
{
    let mut product = 1_u128;
    for extent in container.extents.as_slice() {
        product = product.saturating_mul(size_of_extent(extent));
    }
    product
}

/// An extent, which is a constant.
fn size_of_extent(extent: &Affine) -> u128
    ensures { result ≡ unsigned_abs extent.now.constant }
{
    extent.constant.unsigned_abs()
}

/// How many elements a container has; from 2^128 on it counts as one less.
fn element_count(container: &Container) -> u128
    ensures { result ≡ min (elements_in container.now) (2 ^ 128 - 1) }
{
    match container.kind {
        ContainerKind::Stream | ContainerKind::PrivateStream => 0,
        _ => product_of_extents(container),
    }
}

/// How many elements there are with those of a container; `None` where it is over a limit.
fn with_elements(before: u128, container: &Container) -> Option<u128>
    requires { before ≤ 2 ^ 26 }
    ensures total { MatchOption result (is_over before container.now ≡ true) (λ total. (is_over before container.now ≡ false) × (total ≡ before + elements_in container.now) × (total ≤ 2 ^ 26)) }
{
    let elements = element_count(container);
    if is_negative(container) || MOST < elements || MOST_TOGETHER < before + elements {
        return None;
    }
    Some(before + elements)
}

/// How many elements there are with those of these containers.
fn count_containers(
    alloc: Global,
    containers: &IndexMap<String, Container>,
    before: u128,
) -> Result<u128, BindError>
    requires { before ≤ 2 ^ 26 }
    ensures tallies { Tallies result (tally before (map named_container containers.now.entries)) }
    ensures within { IfOk result (λ total. total ≤ 2 ^ 26) }
{
    let mut total = before;
    for (name, container) in containers.iter() {
        total = match with_elements(total, container) {
            Some(total) => total,
            None => return Err(BindError::OverLimit(text_of(alloc, name.as_str())?)),
        };
    }
    Ok(total)
}

/// How many elements there are with those of the containers of a graph and its nested graphs.
#[cycle(counting)]
pub(crate) fn count_graph(alloc: Global, graph: &Sdfg, before: u128) -> Result<u128, BindError>
    requires { before ≤ 2 ^ 26 }
    ensures tallies { Tallies result (tally before (all_containers (graph_tree graph.now))) }
    ensures within { IfOk result (λ total. total ≤ 2 ^ 26) }
{
    let total = count_containers(alloc, &graph.containers, before)?;
    count_states(alloc, &graph.states, total)
}

#[cycle(counting)]
fn count_states(alloc: Global, states: &[State], before: u128) -> Result<u128, BindError>
    requires { before ≤ 2 ^ 26 }
    ensures tallies { Tallies result (tally before (states_containers (state_trees states.now))) }
    ensures within { IfOk result (λ total. total ≤ 2 ^ 26) }
{
    let mut total = before;
    for state in states {
        total = count_items(alloc, &state.items, total)?;
    }
    Ok(total)
}

#[cycle(counting)]
fn count_items(alloc: Global, items: &[Item], before: u128) -> Result<u128, BindError>
    requires { before ≤ 2 ^ 26 }
    ensures tallies { Tallies result (tally before (items_containers (item_trees items.now))) }
    ensures within { IfOk result (λ total. total ≤ 2 ^ 26) }
{
    let mut total = before;
    for item in items {
        total = count_kind(alloc, &item.kind, total)?;
    }
    Ok(total)
}

#[cycle(counting)]
fn count_kind(alloc: Global, kind: &ItemKind, before: u128) -> Result<u128, BindError>
    requires { before ≤ 2 ^ 26 }
    ensures tallies { Tallies result (tally before (kind_containers (kind_tree kind.now))) }
    ensures within { IfOk result (λ total. total ≤ 2 ^ 26) }
{
    match kind {
        ItemKind::Map { body, .. } | ItemKind::Consume { body, .. } => {
            count_items(alloc, body, before)
        }
        ItemKind::Nested { graph, .. } => count_graph(alloc, graph, before),
        _ => Ok(before),
    }
}
