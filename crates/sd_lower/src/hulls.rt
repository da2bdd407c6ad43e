//! What an item touches of each container.
ghost use Rattle.std.specs.Prelude.{◌≡◌, map, unsigned_abs, IfOk};
ghost use Rattle.sd_graph.specs.ContainerParts as parts;
ghost use Rattle.sd_graph.specs.TreeFold.{graph_tree, item_tree, item_trees, kind_tree, named_container};
ghost use Rattle.sd_lower.specs.Hulls as definition;
ghost use Rattle.sd_prop.specs.propagation.Accesses.{kind_accesses};

use crate::kinds::containers_in;
use indexmap::IndexMap;
use sd_graph::{Container, Item, ItemKind, Sdfg, State};
use sd_list::{NoMemory, Sequence};
use sd_prop::{Access, Scope, scopes};
use sd_range::Affine;
use sd_subset::{Bounds, hull};
use std::alloc::Global;

/// A container, and for each dimension of it the bounds of all that is touched. A stream has no dimension.
#[derive(Drop)]
pub struct Hull {
    pub container: u32,
    pub bounds: Sequence<Bounds>,
}

/// The same bounds once more.
fn copied_bounds(alloc: Global, bounds: &[Bounds]) -> Result<Sequence<Bounds>, NoMemory>
    ensures { IfOk result (λ copy. copy ≡ bounds.now) }
{
    let mut copy = Vec::with_capacity(alloc, bounds.len())?;
    for one in bounds {
        copy.push(one.copy_of(alloc)?)?;
    }
    Ok(Sequence::from(copy))
}

impl Hull {
    /// The same once more.
    pub fn copy_of(&self, alloc: Global) -> Result<Hull, NoMemory>
        ensures { IfOk result (λ copy. copy ≡ self.now) }
    {
        Ok(Hull {
            container: self.container,
            bounds: copied_bounds(alloc, self.bounds.as_slice())?,
        })
    }
}

/// The same hulls of one item once more.
fn copied(alloc: Global, hulls: &[Hull]) -> Result<Sequence<Hull>, NoMemory>
    ensures { IfOk result (λ copy. copy ≡ hulls.now) }
{
    let mut copy = Vec::with_capacity(alloc, hulls.len())?;
    for one in hulls {
        copy.push(one.copy_of(alloc)?)?;
    }
    Ok(Sequence::from(copy))
}

/// Those of several items.
pub(crate) fn copied_hulls(
    alloc: Global,
    each: &[Sequence<Hull>],
) -> Result<Sequence<Sequence<Hull>>, NoMemory>
    ensures { IfOk result (λ copy. copy ≡ each.now) }
{
    let mut copy = Vec::with_capacity(alloc, each.len())?;
    for hulls in each {
        copy.push(copied(alloc, hulls.as_slice())?)?;
    }
    Ok(Sequence::from(copy))
}

/// The same containers, each with its name, once more.
pub(crate) fn copied_containers(
    alloc: Global,
    containers: &IndexMap<String, Container>,
) -> Result<IndexMap<String, Container>, NoMemory>
    ensures { IfOk result (λ copy. map named_container copy.entries ≡ map named_container containers.now.entries) }
{
    let mut copy = IndexMap::with_capacity(alloc, containers.len())?;
    for (name, container) in containers.iter() {
        copy.insert(name.as_str().to_string(alloc)?, container.copy_of(alloc)?)?;
    }
    Ok(copy)
}

/// A copy of an item, in a map of one point.
fn enclosed(alloc: Global, item: &Item) -> Result<Item, NoMemory>
    ensures { IfOk result (λ made. item_tree made ≡ definition.enclosed (item_tree item.now)) }
{
    let mut body = Vec::new(alloc);
    body.push(item.copy_of(alloc)?)?;
    Ok(Item {
        line: item.line,
        kind: ItemKind::Map {
            params: Vec::new(alloc),
            private: Vec::new(alloc),
            body,
            sequential: false,
        },
    })
}

/// A graph of these containers that has one item alone.
fn graph_of(
    alloc: Global,
    containers: &IndexMap<String, Container>,
    item: Item,
) -> Result<Sdfg, NoMemory>
    ensures { IfOk result (λ graph. graph_tree graph ≡ definition.graph_of (map named_container containers.now.entries) (item_tree item)) }
{
    let mut items = Vec::new(alloc);
    items.push(item)?;
    let mut states = Vec::new(alloc);
    states.push(State {
        items,
        exits: Vec::new(alloc),
    })?;
    Ok(Sdfg {
        name: String::new(alloc),
        containers: copied_containers(alloc, containers)?,
        arguments: 0,
        variables: Vec::new(alloc),
        symbols: 0,
        states,
    })
}

/// The sizes of the constants that extents are.
fn sizes_of(alloc: Global, extents: &[Affine]) -> Result<Vec<u64>, NoMemory>
    ensures { IfOk result (λ sizes. sizes.items ≡ map (λ extent. unsigned_abs extent.constant) extents.now) }
{
    let mut sizes = Vec::with_capacity(alloc, extents.len())?;
    for extent in extents {
        let size = u64::try_from(extent.constant.unsigned_abs()).map_err(|_| NoMemory)?;
        sizes.push(size)?;
    }
    Ok(sizes)
}

/// The extents of a container; of one that is not there there are none.
fn extents_of(
    alloc: Global,
    containers: &IndexMap<String, Container>,
    container: u32,
) -> Result<Vec<u64>, NoMemory>
    ensures { IfOk result (λ extents. extents.items ≡ parts.extents_of (parts.container_at (map named_container containers.now.entries) container)) }
{
    match containers.get_index(container as usize) {
        Some((_, found)) => sizes_of(alloc, found.extents.as_slice()),
        None => Ok(Vec::new(alloc)),
    }
}

/// The boxes of the accesses of a container.
fn boxes_of(
    alloc: Global,
    accesses: &[Access],
    container: u32,
) -> Result<Vec<Sequence<Bounds>>, NoMemory>
    ensures { IfOk result (λ boxes. boxes.items ≡ definition.boxes_of accesses.now container) }
{
    let mut boxes = Vec::new(alloc);
    for access in accesses {
        if access.container() == container {
            boxes.push(copied_bounds(alloc, access.bounds())?)?;
        }
    }
    Ok(boxes)
}

/// A container with the hull of the boxes of its accesses.
fn hull_of(
    alloc: Global,
    containers: &IndexMap<String, Container>,
    accesses: &[Access],
    container: u32,
) -> Result<Hull, NoMemory>
    ensures { IfOk result (λ made. made ≡ definition.hull_of (map named_container containers.now.entries) accesses.now container) }
{
    let extents = extents_of(alloc, containers, container)?;
    let boxes = boxes_of(alloc, accesses, container)?;
    Ok(Hull {
        container,
        bounds: hull(alloc, extents.as_slice(), boxes.as_slice())?,
    })
}

/// Each container of accesses so, in the order of first access.
fn hulls_of(
    alloc: Global,
    containers: &IndexMap<String, Container>,
    accesses: &[Access],
) -> Result<Sequence<Hull>, NoMemory>
    ensures { IfOk result (λ hulls. hulls ≡ definition.hulls_of (map named_container containers.now.entries) accesses.now) }
{
    let touched = containers_in(alloc, accesses)?;
    let mut hulls = Vec::with_capacity(alloc, touched.len())?;
    for container in touched.as_slice() {
        hulls.push(hull_of(alloc, containers, accesses, *container)?)?;
    }
    Ok(Sequence::from(hulls))
}

/// The hulls of the accesses of the first of these scopes.
fn first_hulls(
    alloc: Global,
    containers: &IndexMap<String, Container>,
    scopes: &[Scope],
) -> Result<Sequence<Hull>, NoMemory>
    ensures { IfOk result (λ hulls. hulls ≡ definition.hulls_of (map named_container containers.now.entries) (definition.first_accesses scopes.now)) }
{
    match scopes.first() {
        Some(scope) => hulls_of(alloc, containers, scope.accesses()),
        None => hulls_of(alloc, containers, &[]),
    }
}

/// What an item touches of each container.
fn item_hulls(
    alloc: Global,
    containers: &IndexMap<String, Container>,
    item: &Item,
) -> Result<Sequence<Hull>, NoMemory>
    ensures { IfOk result (λ hulls. hulls ≡ definition.item_hulls (map named_container containers.now.entries) (item_tree item.now).1) }
{
    let graph = graph_of(alloc, containers, enclosed(alloc, item)?)?;
    let found = scopes(alloc, &graph)?;
    let hulls = first_hulls(alloc, containers, found.as_slice())?;
    Ok(hulls)
}

/// So it is for each item of a list.
pub(crate) fn hulls_of_each(
    alloc: Global,
    containers: &IndexMap<String, Container>,
    items: &[Item],
) -> Result<Sequence<Sequence<Hull>>, NoMemory>
    ensures { IfOk result (λ each. each ≡ definition.hulls_of_each (map named_container containers.now.entries) (item_trees items.now)) }
{
    let mut each = Vec::with_capacity(alloc, items.len())?;
    for item in items {
        each.push(item_hulls(alloc, containers, item)?)?;
    }
    Ok(Sequence::from(each))
}
