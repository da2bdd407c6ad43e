//! How large graphs and their containers are.
ghost use Rattle.std.specs.Prelude.{◌≡◌, ◌+◌, ◌&&◌, nat_le, length, map};
ghost use Rattle.std.specs.List.{list_all};
ghost use Rattle.sd_graph.specs.TreeFold.{graph_tree, named_container, state_trees};
ghost use Rattle.sd_graph.specs.TreeParts.{containers_of, count_states};
ghost use Rattle.sd_validity.specs.rules.WithinLimits as limits;
ghost use Rattle.sd_validate.specs.limits.Totals.{IsSum};

use crate::limits::elements::elements_behind;
use crate::limits::size::is_small;
use indexmap::IndexMap;
use sd_graph::{Container, Sdfg, State};
use sd_places::is_stream;
use sd_range::Affine;

/// The most graphs about a graph.
const MOST_GRAPHS: u64 = 8;

/// The most states of a graph.
const MOST_STATES: usize = 256;

/// The most containers of a graph.
const MOST_CONTAINERS: usize = 256;

/// The most dimensions of an array.
const MOST_DIMENSIONS: usize = 4;

/// Whether an array has 1 to 4 dimensions, and a stream none.
fn is_container_small(container: &Container) -> bool
    ensures { result ≡ limits.is_container_small container.now }
{
    let dims = container.extents.len();
    if is_stream(container.kind) {
        dims == 0
    } else {
        1 <= dims && dims <= MOST_DIMENSIONS
    }
}

fn are_dimensions_few(containers: &IndexMap<String, Container>) -> bool
    ensures { result ≡ list_all (λ entry. limits.is_container_small entry.1) (map named_container containers.now.entries) }
{
    for (_, container) in containers.iter() {
        if !is_container_small(container) {
            return false;
        }
    }
    true
}

fn are_small(extents: &[Affine]) -> bool
    ensures { result ≡ list_all limits.is_small extents.now }
{
    for extent in extents {
        if !is_small(extent) {
            return false;
        }
    }
    true
}

fn are_extents_small(containers: &IndexMap<String, Container>) -> bool
    ensures { result ≡ list_all (λ entry. list_all limits.is_small entry.1.extents) (map named_container containers.now.entries) }
{
    for (_, container) in containers.iter() {
        if !are_small(container.extents.as_slice()) {
            return false;
        }
    }
    true
}

/// How many states there are.
fn state_count(states: &[State]) -> usize
    ensures { result ≡ count_states (state_trees states.now) }
{
    states.len()
}

/// Whether containers are no more than there may be, with so many dimensions and small extents.
fn are_few(containers: &IndexMap<String, Container>) -> bool
    ensures { result ≡ ((nat_le (length (map named_container containers.now.entries)) 256 && list_all (λ entry. limits.is_container_small entry.1) (map named_container containers.now.entries))
        && list_all (λ entry. list_all limits.is_small entry.1.extents) (map named_container containers.now.entries)) }
{
    containers.len() <= MOST_CONTAINERS
        && are_dimensions_few(containers)
        && are_extents_small(containers)
}

/// How many elements there are with those of a graph's containers, behind others of so many; `None`
/// where the graph or its containers are not within the limits.
pub(crate) fn elements_behind_graph(graph: &Sdfg, depth: u64, before: u128) -> Option<u128>
    ensures { IsSum (limits.is_graph_small (graph_tree graph.now) depth before) (before + limits.elements_of (containers_of (graph_tree graph.now))) result }
{
    let states = state_count(&graph.states);
    if states < 1 || MOST_STATES < states || MOST_GRAPHS < depth || !are_few(&graph.containers) {
        return None;
    }
    elements_behind(&graph.containers, before)
}
