//! Graphs with sizes in the place of the size symbols.
ghost use Rattle.std.specs.Prelude.{◌≡◌, map, string_bytes, IfOk};
ghost use Rattle.sd_graph.specs.TreeFold.{exit_tree, guard_tree, graph_tree, item_tree, item_trees, kind_tree, named_container, state_tree, state_trees};
ghost use Rattle.sd_valid.specs.BoundTree.{bound_guard, bound_exit, bound_entry, bound_kind, bound_items, bound_states, bound_graph};

use crate::code::tasklet;
use crate::expression::{assignments, container, link, links, params};
use indexmap::IndexMap;
use sd_graph::{Container, Exit, Guard, Item, ItemKind, Sdfg, State};
use sd_list::{NoMemory, Sequence};
use std::alloc::Global;

#[cycle(graphs)]
pub(crate) fn graph(alloc: Global, sizes: &[i64], graph: &Sdfg) -> Result<Sdfg, NoMemory>
    ensures { IfOk result (λ bound. graph_tree bound ≡ bound_graph sizes.now (graph_tree graph.now)) }
{
    Ok(Sdfg {
        name: graph.name.as_str().to_string(alloc)?,
        containers: containers(alloc, sizes, &graph.containers)?,
        arguments: graph.arguments,
        variables: names(alloc, &graph.variables)?,
        symbols: graph.symbols,
        states: states(alloc, sizes, &graph.states)?,
    })
}

/// Each container with its name.
fn containers(
    alloc: Global,
    sizes: &[i64],
    all: &IndexMap<String, Container>,
) -> Result<IndexMap<String, Container>, NoMemory>
    ensures { IfOk result (λ bound. map named_container bound.entries ≡ map (bound_entry sizes.now) (map named_container all.now.entries)) }
{
    let mut bound = IndexMap::with_capacity(alloc, all.len())?;
    for (name, one) in all.iter() {
        bound.insert(
            name.as_str().to_string(alloc)?,
            container(alloc, sizes, one)?,
        )?;
    }
    Ok(bound)
}

/// The same names once more.
fn names(alloc: Global, all: &[String]) -> Result<Vec<String>, NoMemory>
    ensures { IfOk result (λ copy. map string_bytes copy.items ≡ map string_bytes all.now) }
{
    let mut copy = Vec::with_capacity(alloc, all.len())?;
    for name in all {
        copy.push(name.as_str().to_string(alloc)?)?;
    }
    Ok(copy)
}

#[cycle(graphs)]
fn states(alloc: Global, sizes: &[i64], all: &[State]) -> Result<Vec<State>, NoMemory>
    ensures { IfOk result (λ bound. state_trees bound.items ≡ bound_states sizes.now (state_trees all.now)) }
{
    let mut bound = Vec::with_capacity(alloc, all.len())?;
    for one in all {
        bound.push(state(alloc, sizes, one)?)?;
    }
    Ok(bound)
}

#[cycle(graphs)]
fn state(alloc: Global, sizes: &[i64], state: &State) -> Result<State, NoMemory>
    ensures { IfOk result (λ bound. state_tree bound ≡ (bound_items sizes.now (state_tree state.now).0, map (bound_exit sizes.now) (state_tree state.now).1)) }
{
    Ok(State {
        items: items(alloc, sizes, &state.items)?,
        exits: exits(alloc, sizes, &state.exits)?,
    })
}

/// The transitions out of a state.
fn exits(alloc: Global, sizes: &[i64], all: &[Exit]) -> Result<Vec<Exit>, NoMemory>
    ensures { IfOk result (λ bound. map exit_tree bound.items ≡ map (bound_exit sizes.now) (map exit_tree all.now)) }
{
    let mut bound = Vec::with_capacity(alloc, all.len())?;
    for one in all {
        bound.push(exit(alloc, sizes, one)?)?;
    }
    Ok(bound)
}

fn exit(alloc: Global, sizes: &[i64], exit: &Exit) -> Result<Exit, NoMemory>
    ensures { IfOk result (λ bound. exit_tree bound ≡ bound_exit sizes.now (exit_tree exit.now)) }
{
    let when = match &exit.when {
        None => None,
        Some(when) => Some(guard(alloc, sizes, when)?),
    };
    Ok(Exit {
        to: exit.to,
        back: exit.back,
        when,
        set: Sequence::from(assignments(alloc, sizes, exit.set.as_slice())?),
    })
}

fn guard(alloc: Global, sizes: &[i64], guard: &Guard) -> Result<Guard, NoMemory>
    ensures { IfOk result (λ bound. guard_tree bound ≡ bound_guard sizes.now (guard_tree guard.now)) }
{
    Ok(Guard {
        line: guard.line,
        reads: Sequence::from(links(alloc, sizes, guard.reads.as_slice())?),
        code: tasklet(alloc, sizes, &guard.code)?,
    })
}

#[cycle(graphs)]
fn items(alloc: Global, sizes: &[i64], all: &[Item]) -> Result<Vec<Item>, NoMemory>
    ensures { IfOk result (λ bound. item_trees bound.items ≡ bound_items sizes.now (item_trees all.now)) }
{
    let mut bound = Vec::with_capacity(alloc, all.len())?;
    for one in all {
        bound.push(item(alloc, sizes, one)?)?;
    }
    Ok(bound)
}

#[cycle(graphs)]
fn item(alloc: Global, sizes: &[i64], item: &Item) -> Result<Item, NoMemory>
    ensures { IfOk result (λ bound. item_tree bound ≡ ((item_tree item.now).0, bound_kind sizes.now (item_tree item.now).1)) }
{
    Ok(Item {
        line: item.line,
        kind: kind(alloc, sizes, &item.kind)?,
    })
}

#[cycle(graphs)]
fn kind(alloc: Global, sizes: &[i64], kind: &ItemKind) -> Result<ItemKind, NoMemory>
    ensures { IfOk result (λ bound. kind_tree bound ≡ bound_kind sizes.now (kind_tree kind.now)) }
{
    match kind {
        ItemKind::Task { code, ins, outs } => Ok(ItemKind::Task {
            code: tasklet(alloc, sizes, code)?,
            ins: links(alloc, sizes, ins)?,
            outs: links(alloc, sizes, outs)?,
        }),
        ItemKind::Map {
            params: all,
            private,
            body,
            sequential,
        } => Ok(ItemKind::Map {
            params: params(alloc, sizes, all)?,
            private: private.as_slice().to_vec(alloc)?,
            body: items(alloc, sizes, body)?,
            sequential: *sequential,
        }),
        ItemKind::Consume {
            stream,
            element,
            private,
            body,
        } => Ok(ItemKind::Consume {
            stream: *stream,
            element: *element,
            private: private.as_slice().to_vec(alloc)?,
            body: items(alloc, sizes, body)?,
        }),
        ItemKind::Nested {
            graph: inner,
            links: all,
        } => Ok(ItemKind::Nested {
            graph: Box::new(alloc, graph(alloc, sizes, inner)?)?,
            links: links(alloc, sizes, all)?,
        }),
        ItemKind::Reduce {
            resolution,
            axis,
            identity,
            from,
            to,
        } => Ok(ItemKind::Reduce {
            resolution: *resolution,
            axis: *axis,
            identity: *identity,
            from: link(alloc, sizes, from)?,
            to: link(alloc, sizes, to)?,
        }),
        ItemKind::Copy { from, to } => Ok(ItemKind::Copy {
            from: link(alloc, sizes, from)?,
            to: link(alloc, sizes, to)?,
        }),
    }
}
