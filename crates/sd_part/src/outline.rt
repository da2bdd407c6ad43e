//! The accesses of an item before it is cut into pieces.
ghost use Rattle.std.specs.Prelude.{◌≡◌, map, IfOk};
ghost use Rattle.sd_graph.specs.TreeFold.{graph_tree, item_tree, kind_tree, named_container};
ghost use Rattle.sd_part.specs.Boxes.{number_box};
ghost use Rattle.sd_part.specs.Hulls.{AreEven};
ghost use Rattle.sd_part.specs.Outline as definition;

use crate::boxes::{NumberBox, number_boxes};
use crate::piece::params_piece;
use indexmap::IndexMap;
use sd_graph::{Container, Item, ItemKind, Sdfg, State};
use sd_list::{NoMemory, Sequence};
use sd_prop::{Access, Scope, scopes};
use sd_range::Range;
use std::alloc::Global;

/// The accesses of an item, and the parameters of which a piece of it has some values, as they stand in these accesses.
#[derive(Drop)]
pub struct Outline {
    pub params: Sequence<(u32, Range)>,
    pub accesses: Sequence<Access>,
}

/// Whether an item is a map whose points are in any order, which is cut into pieces.
fn is_cut(kind: &ItemKind) -> bool
    ensures { result ≡ definition.is_cut (kind_tree kind.now) }
{
    match kind {
        ItemKind::Map { sequential, .. } => !*sequential,
        ItemKind::Task { .. }
        | ItemKind::Consume { .. }
        | ItemKind::Nested { .. }
        | ItemKind::Reduce { .. }
        | ItemKind::Copy { .. } => false,
    }
}

/// The same parameters once more.
fn copied_params(alloc: Global, params: &[(u32, Range)]) -> Result<Sequence<(u32, Range)>, NoMemory>
    ensures { IfOk result (λ copy. copy ≡ params.now) }
{
    let mut copy = Vec::with_capacity(alloc, params.len())?;
    for (variable, range) in params {
        copy.push((*variable, range.copy_of(alloc)?))?;
    }
    Ok(Sequence::from(copy))
}

/// The parameters of which a piece of an item has some values.
fn cut_params(alloc: Global, kind: &ItemKind) -> Result<Sequence<(u32, Range)>, NoMemory>
    ensures { IfOk result (λ params. params ≡ definition.cut_params (kind_tree kind.now)) }
{
    match kind {
        ItemKind::Map {
            params,
            sequential: false,
            ..
        } => copied_params(alloc, params),
        _ => Ok(Sequence::new(alloc)),
    }
}

/// A copy of an item, in a map of one point unless it is cut into pieces itself.
fn enclosed(alloc: Global, item: &Item) -> Result<Item, NoMemory>
    ensures { IfOk result (λ made. item_tree made ≡ definition.enclosed (item_tree item.now)) }
{
    let copy = item.copy_of(alloc)?;
    if is_cut(&item.kind) {
        return Ok(copy);
    }
    let mut body = Vec::new(alloc);
    body.push(copy)?;
    Ok(Item {
        line: item.line,
        kind: ItemKind::Map {
            params: Vec::new(alloc),
            private: Vec::new(alloc),
            body,
            sequential: false,
        },
    })
}

/// The same containers, each with its name, once more.
fn copied_containers(
    alloc: Global,
    containers: &IndexMap<String, Container>,
) -> Result<IndexMap<String, Container>, NoMemory>
    ensures { IfOk result (λ copy. map named_container copy.entries ≡ map named_container containers.now.entries) }
{
    let mut copy = IndexMap::with_capacity(alloc, containers.len())?;
    for (name, container) in containers.iter() {
        copy.insert(name.as_str().to_string(alloc)?, container.copy_of(alloc)?)?;
    }
    Ok(copy)
}

/// A graph of these containers that has one item alone.
fn graph_of(
    alloc: Global,
    containers: &IndexMap<String, Container>,
    item: Item,
) -> Result<Sdfg, NoMemory>
    ensures { IfOk result (λ graph. graph_tree graph ≡ definition.graph_of (map named_container containers.now.entries) (item_tree item)) }
{
    let mut items = Vec::new(alloc);
    items.push(item)?;
    let mut states = Vec::new(alloc);
    states.push(State {
        items,
        exits: Vec::new(alloc),
    })?;
    Ok(Sdfg {
        name: String::new(alloc),
        containers: copied_containers(alloc, containers)?,
        arguments: 0,
        variables: Vec::new(alloc),
        symbols: 0,
        states,
    })
}

/// The accesses of the first of these scopes.
fn first_accesses(alloc: Global, scopes: &[Scope]) -> Result<Sequence<Access>, NoMemory>
    ensures { IfOk result (λ accesses. accesses ≡ definition.first_accesses scopes.now) }
{
    let mut copy = Vec::new(alloc);
    let Some(scope) = scopes.first() else {
        return Ok(Sequence::from(copy));
    };
    for access in scope.accesses() {
        copy.push(access.copy_of(alloc)?)?;
    }
    Ok(Sequence::from(copy))
}

/// The outline of an item that stands in a list of a state of a graph of these containers.
pub fn outline_of(
    alloc: Global,
    containers: &IndexMap<String, Container>,
    item: &Item,
) -> Result<Outline, NoMemory>
    ensures { IfOk result (definition.IsOutline (map named_container containers.now.entries) (item_tree item.now).1) }
{
    let params = cut_params(alloc, &item.kind)?;
    let graph = graph_of(alloc, containers, enclosed(alloc, item)?)?;
    let found = scopes(alloc, &graph)?;
    let accesses = first_accesses(alloc, found.as_slice())?;
    Ok(Outline { params, accesses })
}

/// The boxes in numbers of a piece of an item, which has so many values of the first parameter from the one of number `first` on.
pub fn piece_boxes(
    alloc: Global,
    containers: &IndexMap<String, Container>,
    outline: &Outline,
    values: &[i128],
    first: u128,
    count: u128,
) -> Result<Vec<NumberBox>, NoMemory>
    ensures boxes { IfOk result (λ boxes. boxes.items ≡ map (number_box (map named_container containers.now.entries) values.now) (definition.piece_accesses values.now first count outline.now)) }
    ensures even { IfOk result (λ boxes. AreEven boxes.items) }
{
    let params = params_piece(alloc, outline.params.as_slice(), values, first, count)?;
    let params = params.as_slice();
    let accesses = outline.accesses.as_slice();
    let boxes = number_boxes(alloc, containers, params, accesses, values)?;
    Ok(boxes)
}
