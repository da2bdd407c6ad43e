//! Where accesses lead.
ghost use Rattle.std.specs.Prelude.{◌≡◌, [], map, None, Some, option_map, slice_index_or, IfOk, MatchOption};
ghost use Rattle.sd_graph.specs.PlainTree.{GraphTree};
ghost use Rattle.sd_graph.specs.TreeFold.{graph_tree, named_container};
ghost use Rattle.sd_graph.specs.ContainerParts.{Containers, container_at};
ghost use Rattle.sd_graph.specs.Context.{found, index_at, link_elements, link_element, reference_at};
ghost use Rattle.sd_mem.specs.machine.Stack.{reference_of};
ghost use Rattle.sd_scope.specs.scope.Standing.{context_of, reach_of, found_through};
ghost use Rattle.sd_scope.specs.declared.scope.base.Base.{Base as BaseNow};

use crate::scope::base::{Base, Way};
use crate::scope::element::{element_at_begin, element_of, element_through, index_at, none_of};
use crate::scope::indices::Indices;
use crate::scope::scope::Scope;
use indexmap::IndexMap;
use sd_graph::{Container, Link, Sdfg};
use sd_list::NoMemory;
use sd_mem::{Address, Station};
use sd_range::Dim;
use std::alloc::Global;

/// The level of a container that is private here.
fn private_level(scope: &Scope, container: u32) -> Option<usize>
    ensures { result ≡ slice_index_or scope.now.privates container None }
{
    match scope.privates.as_slice().get(container as usize) {
        Some(level) => *level,
        None => None,
    }
}

/// The way of a container, where it has one.
fn way_at(base: &Base, container: u32) -> Option<&Way>
    ensures { MatchOption result (slice_index_or base.now.ways container None ≡ None) (λ way. slice_index_or base.now.ways container None ≡ Some way.now) }
{
    match base.ways.as_slice().get(container as usize) {
        Some(way) => way.as_ref(),
        None => None,
    }
}

/// The way by which a container is reached here; `None` where it is one of the graph's own.
pub(crate) fn way_here<'a>(base: &'a Base, scope: &Scope, container: u32) -> Option<&'a Way>
    ensures { MatchOption result ((containers : Containers) → (reach_of containers base.now scope.now container).find ≡ found (container_at containers container)) (λ way. (containers : Containers) → (reach_of containers base.now scope.now container).find ≡ found_through way.now.views way.now.extents) }
{
    match private_level(scope, container) {
        Some(_) => None,
        None => way_at(base, container),
    }
}

/// The container that a number stands for where a scope stands.
pub fn station(base: &Base, scope: &Scope, container: u32) -> Result<Station, NoMemory>
    ensures level { IfOk result (λ station. (graph : GraphTree) → station.level ≡ ((context_of graph base.now scope.now).reach container).level) }
    ensures container { IfOk result (λ station. (graph : GraphTree) → station.container ≡ ((context_of graph base.now scope.now).reach container).container) }
{
    if let Some(level) = private_level(scope, container) {
        return Ok(Station { level, container });
    }
    match way_at(base, container) {
        None => Ok(Station {
            level: scope.depth,
            container,
        }),
        Some(way) => Ok(Station {
            level: way.station.level.checked_add(scope.depth).ok_or(NoMemory)?,
            container: way.station.container,
        }),
    }
}

/// The element of one of the graph's containers at an index, where that is inside.
fn own_element(
    containers: &IndexMap<String, Container>,
    container: u32,
    index: &[i128],
) -> Result<Option<u64>, NoMemory>
    ensures { IfOk result (λ element. element ≡ found (container_at (map named_container containers.now.entries) container) index.now) }
{
    match containers.get_index(container as usize) {
        Some((_, container)) => element_of(container, index),
        None => Ok(none_of(index)),
    }
}

/// The element of a container at an index, where that is inside.
pub fn cell_at(
    alloc: Global,
    graph: &Sdfg,
    base: &Base,
    scope: &Scope,
    container: u32,
    index: &[i128],
) -> Result<Option<Address>, NoMemory>
    ensures { IfOk result (λ cell. option_map reference_of cell ≡ reference_at ((context_of (graph_tree graph.now) base.now scope.now).reach container) index.now) }
{
    let station = station(base, scope, container)?;
    let element = match way_here(base, scope, container) {
        None => own_element(&graph.containers, container, index)?,
        Some(way) => {
            element_through(alloc, way.views.as_slice(), way.extents.as_slice(), index)?
        }
    };
    match element {
        None => Ok(None),
        Some(element) => Ok(Some(Address { station, element })),
    }
}

/// The elements of a link in row order.
pub fn link_cells(
    alloc: Global,
    graph: &Sdfg,
    base: &Base,
    scope: &Scope,
    link: &Link,
) -> Result<Vec<Option<Address>>, NoMemory>
    ensures { IfOk result (λ cells. map (option_map reference_of) cells.items ≡ link_elements (context_of (graph_tree graph.now) base.now scope.now) link.now) }
{
    let container = link.memlet.container;
    let mut indices = Indices::of(alloc, scope, link)?;
    let mut cells = Vec::new(alloc);
    'indices: while indices.next() {
        cells.push(cell_at(alloc, graph, base, scope, container, indices.at())?)?;
    }
    Ok(cells)
}

/// The element of one of the graph's containers where each dimension of a subset begins, where that is inside.
fn own_begin(
    containers: &IndexMap<String, Container>,
    container: u32,
    dims: &[Dim],
    values: &[i128],
) -> Result<Option<u64>, NoMemory>
    ensures { IfOk result (λ element. element ≡ found (container_at (map named_container containers.now.entries) container) (index_at dims.now values.now [])) }
{
    match containers.get_index(container as usize) {
        Some((_, container)) => element_at_begin(container.extents.as_slice(), dims, values),
        None => element_at_begin(&[], dims, values),
    }
}

/// The element where each dimension of a subset of a container begins, where that is inside. Takes memory where the container is
/// reached by a way alone.
fn cell_at_begin(
    alloc: Global,
    graph: &Sdfg,
    base: &Base,
    scope: &Scope,
    container: u32,
    dims: &[Dim],
) -> Result<Option<Address>, NoMemory>
    ensures { IfOk result (λ cell. option_map reference_of cell ≡ reference_at ((context_of (graph_tree graph.now) base.now scope.now).reach container) (index_at dims.now scope.now.values.values [])) }
{
    let values = scope.values.values.as_slice();
    let station = station(base, scope, container)?;
    let element = match way_here(base, scope, container) {
        None => own_begin(&graph.containers, container, dims, values)?,
        Some(way) => {
            let index = index_at(alloc, dims, values, &[])?;
            element_through(
                alloc,
                way.views.as_slice(),
                way.extents.as_slice(),
                index.as_slice(),
            )?
        }
    };
    match element {
        None => Ok(None),
        Some(element) => Ok(Some(Address { station, element })),
    }
}

/// The element of a link at a place in its subset, which has a number for each range.
pub fn link_cell(
    alloc: Global,
    graph: &Sdfg,
    base: &Base,
    scope: &Scope,
    link: &Link,
    at: &[i128],
) -> Result<Option<Address>, NoMemory>
    ensures { IfOk result (λ cell. option_map reference_of cell ≡ link_element (context_of (graph_tree graph.now) base.now scope.now) link.now at.now) }
{
    let dims = link.memlet.subset.dims.as_slice();
    let container = link.memlet.container;
    if at.is_empty() {
        return cell_at_begin(alloc, graph, base, scope, container, dims);
    }
    let index = index_at(alloc, dims, scope.values.values.as_slice(), at)?;
    cell_at(alloc, graph, base, scope, container, index.as_slice())
}
