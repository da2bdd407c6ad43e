//! Chains of maps, each in the one before, as texts.
//!
//! A chain is parts with ` > ` between them. `2 3 !` is a sequential map of the variables 2 and 3, from 0 to 1 each; `3<2`
//! is variable 3 from 0 to variable 2, and `p5` container 5 for each point. `graph` is a nested graph, of one state, with the
//! rest of the chain; where it is the last part, nothing is in it.
use indexmap::IndexMap;
use sd_graph::{Item, ItemKind, Sdfg, State};
use sd_list::Sequence;
use sd_range::{Affine, Range};
use std::alloc::Global;
use std::test::Fail;

/// A graph with one state and this item, if there is one.
pub(crate) fn graph_of(alloc: Global, kind: Option<ItemKind>) -> Result<Sdfg, Fail> {
    let mut items = Vec::new(alloc);
    if let Some(kind) = kind {
        items.push(Item { line: 1, kind })?;
    }
    let mut variables = Vec::new(alloc);
    for _ in 0..12 {
        variables.push(String::new(alloc))?;
    }
    let exits = Vec::new(alloc);
    Ok(Sdfg {
        name: String::new(alloc),
        containers: IndexMap::new(alloc),
        arguments: 0,
        variables,
        symbols: 0,
        states: vec![in alloc; State { items, exits }]?,
    })
}

/// A parameter, `3` or `3<2`.
fn param(alloc: Global, word: &str) -> Result<(u32, Range), Fail> {
    let (variable, end) = word.split_once('<').unwrap_or((word, ""));
    let end = if end.is_empty() {
        Affine::constant(alloc, 1)
    } else {
        Affine::variable(alloc, end.parse()?)?
    };
    let mut ends = Sequence::new(alloc);
    ends.push(end)?;
    let begin = Affine::constant(alloc, 0);
    Ok((
        variable.parse()?,
        Range {
            begin,
            ends,
            step: 1,
        },
    ))
}

/// A part of a chain round what is in it.
fn around(alloc: Global, part: &str, within: Option<ItemKind>) -> Result<ItemKind, Fail> {
    if part == "graph" {
        let graph = Box::new(alloc, graph_of(alloc, within)?)?;
        let links = Vec::new(alloc);
        return Ok(ItemKind::Nested { graph, links });
    }
    let mut body = Vec::new(alloc);
    if let Some(kind) = within {
        body.push(Item { line: 1, kind })?;
    }
    let mut params = Vec::new(alloc);
    let mut private = Vec::new(alloc);
    let mut sequential = false;
    for word in part.split_ascii_whitespace() {
        if word == "!" {
            sequential = true;
        } else if word.starts_with('p') {
            private.push(word.trim_start_matches('p').parse()?)?;
        } else {
            params.push(param(alloc, word)?)?;
        }
    }
    Ok(ItemKind::Map {
        params,
        private,
        body,
        sequential,
    })
}

/// The graph of a chain.
pub(crate) fn read_chain(alloc: Global, text: &str) -> Result<Sdfg, Fail> {
    let mut parts = Vec::new(alloc);
    for part in text.split(" > ") {
        parts.push(part)?;
    }
    let mut kind = None;
    for part in parts.as_slice().iter().rev() {
        kind = Some(around(alloc, part, kind)?);
    }
    graph_of(alloc, kind)
}

/// Adds an item and what is in it to the text of a chain.
#[cycle(chains)]
fn write_kind(text: &mut String, kind: &ItemKind) -> Result<(), Fail> {
    match kind {
        ItemKind::Map {
            params,
            private,
            body,
            sequential,
        } => {
            for (variable, _) in params {
                write!(text, "{variable} ")?;
            }
            for number in private {
                write!(text, "p{number} ")?;
            }
            text.push_str(if *sequential { "! > " } else { "> " })?;
            write_items(text, body)
        }
        ItemKind::Nested { graph, .. } => {
            text.push_str("graph > ")?;
            write_chain(text, graph)
        }
        _ => Err(Fail::new("no part of a chain")),
    }
}

/// Adds items.
#[cycle(chains)]
fn write_items(text: &mut String, items: &[Item]) -> Result<(), Fail> {
    for item in items {
        write_kind(text, &item.kind)?;
    }
    Ok(())
}

/// Adds the text of a graph's chain; ` > ` stands behind each part.
#[cycle(chains)]
pub(crate) fn write_chain(text: &mut String, graph: &Sdfg) -> Result<(), Fail> {
    for state in &graph.states {
        write_items(text, &state.items)?;
    }
    Ok(())
}
