//! Graphs that are written as texts: phrases with semicolons between them.
//!
//! `argument 3`, `transient 2 3`, `private 1`, `stream` and `private-stream` are containers with their
//! extents, numbered in this order; `argument32 3` has elements of 32 bits, and so for the others. `arguments 2` tells how many containers are arguments, where that is
//! not how many are said to be, and `symbols 1` how many variables are size symbols. Each graph has nine
//! variables. Behind `state` stand the items and the transitions of a state. Behind a scope or a nested
//! graph stands what is in it, up to `end` or to the end of the text. `...` is nothing.
//!
//! Each proof of a function here costs time, so a text is read by as few functions as will do, and a text
//! that is none may be read as some graph.
mod code;
mod items;
mod links;

use crate::written::items::{exit, leaf, scope};
use crate::written::links::affines;
use indexmap::IndexMap;
use sd_graph::{Container, ContainerKind, Item, ItemKind, Sdfg, State, Width};
use std::alloc::Global;
use std::test::Fail;

/// A graph without anything in it but its variables.
fn empty(alloc: Global) -> Result<Sdfg, Fail> {
    let mut variables = Vec::new(alloc);
    for _ in 0..9 {
        variables.push(String::new(alloc))?;
    }
    Ok(Sdfg {
        name: String::new(alloc),
        containers: IndexMap::new(alloc),
        arguments: 0,
        variables,
        symbols: 0,
        states: Vec::new(alloc),
    })
}

/// Puts an item at the end of the innermost scope, or of the last state of the innermost graph.
fn put(open: &mut Vec<ItemKind>, kind: ItemKind) -> Result<(), Fail> {
    let item = Item { line: 1, kind };
    match open.last_mut().ok_or("too many ends")? {
        ItemKind::Map { body, .. } => body.push(item)?,
        ItemKind::Consume { body, .. } => body.push(item)?,
        ItemKind::Nested { graph, .. } => {
            let state = graph.states.last_mut().ok_or("no state")?;
            state.items.push(item)?;
        }
        _ => {}
    }
    Ok(())
}

/// Ends the innermost scope or graph.
fn close(open: &mut Vec<ItemKind>) -> Result<(), Fail> {
    let kind = open.pop().ok_or("too many ends")?;
    put(open, kind)
}

/// A state, a transition, or how many arguments or size symbols there are.
fn put_state(alloc: Global, graph: &mut Sdfg, word: &str, rest: &str) -> Result<(), Fail> {
    match word {
        "arguments" => graph.arguments = rest.parse()?,
        "symbols" => graph.symbols = rest.parse()?,
        "state" => graph.states.push(State {
            items: Vec::new(alloc),
            exits: Vec::new(alloc),
        })?,
        _ => {
            let exit = exit(alloc, word, rest)?;
            let state = graph.states.last_mut().ok_or("no state")?;
            state.exits.push(exit)?;
        }
    }
    Ok(())
}

/// A container, whose name is its number, or another phrase of a graph.
fn put_in_graph(alloc: Global, graph: &mut Sdfg, word: &str, rest: &str) -> Result<(), Fail> {
    let (kind, width) = match word.strip_suffix("32") {
        Some(kind) => (kind, Width::W32),
        None => (word, Width::W64),
    };
    let kind = match kind {
        "argument" => ContainerKind::Argument,
        "transient" => ContainerKind::Transient,
        "private" => ContainerKind::Private,
        "stream" => ContainerKind::Stream,
        "private-stream" => ContainerKind::PrivateStream,
        _ => return put_state(alloc, graph, word, rest),
    };
    if kind == ContainerKind::Argument {
        graph.arguments = graph.arguments.saturating_add(1);
    }
    let container = Container {
        extents: affines(alloc, rest, ' ')?,
        kind,
        width,
    };
    let name = format!(in alloc; "{}", graph.containers.len())?;
    graph.containers.insert(name, container)?;
    Ok(())
}

/// A phrase that begins with this word.
fn read(alloc: Global, open: &mut Vec<ItemKind>, word: &str, rest: &str) -> Result<(), Fail> {
    match word {
        "" | "..." => {}
        "task" | "copy" | "reduce" => put(open, leaf(alloc, word, rest)?)?,
        "nested" => open.push(leaf(alloc, word, rest)?)?,
        "map" | "consume" => open.push(scope(alloc, word, rest)?)?,
        "end" => close(open)?,
        _ => match open.last_mut() {
            Some(ItemKind::Nested { graph, .. }) => put_in_graph(alloc, graph, word, rest)?,
            _ => return Err(Fail::new("no graph is open")),
        },
    }
    Ok(())
}

/// The graph that a text writes.
pub(crate) fn read_graph(alloc: Global, text: &str) -> Result<Sdfg, Fail> {
    let mut open = vec![in alloc; leaf(alloc, "nested", "")?]?;
    for phrase in text.split(';') {
        let phrase = phrase.trim();
        let (word, rest) = phrase.split_once(' ').unwrap_or((phrase, ""));
        read(alloc, &mut open, word, rest)?;
    }
    for _ in 1..open.len() {
        close(&mut open)?;
    }
    match open.pop() {
        Some(ItemKind::Nested { graph, .. }) => Ok(Box::into_inner(graph)),
        _ => Err(Fail::new("no graph")),
    }
}
