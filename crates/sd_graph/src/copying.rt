//! Copies of what holds itself: what items do, items, states and graphs.
ghost use Rattle.std.specs.Prelude.{◌≡◌, map, string_bytes, IfOk};
ghost use Rattle.sd_graph.specs.TreeFold.{named_container, graph_tree, item_tree, item_trees, kind_tree, state_tree, state_trees};

use crate::container::Container;
use crate::graph::{Item, ItemKind, Sdfg, State};
use crate::{exit, link};
use indexmap::IndexMap;
use sd_list::NoMemory;
use sd_range::Range;
use std::alloc::Global;

impl ItemKind {
    /// The same once more.
    #[cycle(copying)]
    pub fn copy_of(&self, alloc: Global) -> Result<ItemKind, NoMemory>
        ensures { IfOk result (λ copy. kind_tree copy ≡ kind_tree self.now) }
    {
        match self {
            ItemKind::Task { code, ins, outs } => Ok(ItemKind::Task {
                code: code.copy_of(alloc)?,
                ins: link::copied(alloc, ins)?,
                outs: link::copied(alloc, outs)?,
            }),
            ItemKind::Map {
                params,
                private,
                body,
                sequential,
            } => Ok(ItemKind::Map {
                params: copied_params(alloc, params)?,
                private: private.as_slice().to_vec(alloc)?,
                body: copied_items(alloc, body)?,
                sequential: *sequential,
            }),
            ItemKind::Consume {
                stream,
                element,
                private,
                body,
            } => Ok(ItemKind::Consume {
                stream: *stream,
                element: *element,
                private: private.as_slice().to_vec(alloc)?,
                body: copied_items(alloc, body)?,
            }),
            ItemKind::Nested { graph, links } => Ok(ItemKind::Nested {
                graph: Box::new(alloc, graph.copy_of(alloc)?)?,
                links: link::copied(alloc, links)?,
            }),
            ItemKind::Reduce {
                resolution,
                axis,
                identity,
                from,
                to,
            } => Ok(ItemKind::Reduce {
                resolution: *resolution,
                axis: *axis,
                identity: *identity,
                from: from.copy_of(alloc)?,
                to: to.copy_of(alloc)?,
            }),
            ItemKind::Copy { from, to } => Ok(ItemKind::Copy {
                from: from.copy_of(alloc)?,
                to: to.copy_of(alloc)?,
            }),
        }
    }
}

impl Item {
    /// The same item once more.
    #[cycle(copying)]
    pub fn copy_of(&self, alloc: Global) -> Result<Item, NoMemory>
        ensures { IfOk result (λ copy. item_tree copy ≡ item_tree self.now) }
    {
        Ok(Item {
            line: self.line,
            kind: self.kind.copy_of(alloc)?,
        })
    }
}

impl State {
    /// The same state once more.
    #[cycle(copying)]
    pub fn copy_of(&self, alloc: Global) -> Result<State, NoMemory>
        ensures { IfOk result (λ copy. state_tree copy ≡ state_tree self.now) }
    {
        Ok(State {
            items: copied_items(alloc, &self.items)?,
            exits: exit::copied(alloc, &self.exits)?,
        })
    }
}

impl Sdfg {
    /// The same graph once more.
    #[cycle(copying)]
    pub fn copy_of(&self, alloc: Global) -> Result<Sdfg, NoMemory>
        ensures { IfOk result (λ copy. graph_tree copy ≡ graph_tree self.now) }
    {
        Ok(Sdfg {
            name: self.name.as_str().to_string(alloc)?,
            containers: copied_containers(alloc, &self.containers)?,
            arguments: self.arguments,
            variables: copied_names(alloc, &self.variables)?,
            symbols: self.symbols,
            states: copied_states(alloc, &self.states)?,
        })
    }
}

/// The same items once more.
#[cycle(copying)]
fn copied_items(alloc: Global, items: &[Item]) -> Result<Vec<Item>, NoMemory>
    ensures { IfOk result (λ copy. item_trees copy.items ≡ item_trees items.now) }
{
    let mut copy = Vec::with_capacity(alloc, items.len())?;
    for item in items {
        copy.push(item.copy_of(alloc)?)?;
    }
    Ok(copy)
}

/// The same states once more.
#[cycle(copying)]
fn copied_states(alloc: Global, states: &[State]) -> Result<Vec<State>, NoMemory>
    ensures { IfOk result (λ copy. state_trees copy.items ≡ state_trees states.now) }
{
    let mut copy = Vec::with_capacity(alloc, states.len())?;
    for state in states {
        copy.push(state.copy_of(alloc)?)?;
    }
    Ok(copy)
}

/// The same parameters with their ranges once more.
fn copied_params(alloc: Global, params: &[(u32, Range)]) -> Result<Vec<(u32, Range)>, NoMemory>
    ensures { IfOk result (λ copy. copy.items ≡ params.now) }
{
    let mut copy = Vec::with_capacity(alloc, params.len())?;
    for (variable, range) in params {
        copy.push((*variable, range.copy_of(alloc)?))?;
    }
    Ok(copy)
}

/// The same names once more.
fn copied_names(alloc: Global, names: &[String]) -> Result<Vec<String>, NoMemory>
    ensures { IfOk result (λ copy. map string_bytes copy.items ≡ map string_bytes names.now) }
{
    let mut copy = Vec::with_capacity(alloc, names.len())?;
    for name in names {
        copy.push(name.as_str().to_string(alloc)?)?;
    }
    Ok(copy)
}

/// The same containers, each with its name, once more.
fn copied_containers(
    alloc: Global,
    containers: &IndexMap<String, Container>,
) -> Result<IndexMap<String, Container>, NoMemory>
    ensures { IfOk result (λ copy. map named_container copy.entries ≡ map named_container containers.now.entries) }
{
    let mut copy = IndexMap::with_capacity(alloc, containers.len())?;
    for (name, container) in containers.iter() {
        copy.insert(name.as_str().to_string(alloc)?, container.copy_of(alloc)?)?;
    }
    Ok(copy)
}
