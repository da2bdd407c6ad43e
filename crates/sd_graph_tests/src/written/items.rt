//! Items and transitions.
//!
//! `task ..`, `copy FROM > TO` and `reduce FROM > TO` are items; in code `+v1` is the axis of a reduction. So
//! are scopes: `map v1=0:2 5` has a parameter, and container 5 for each point, `consume 5 4 3` the container
//! 5, the element 4 and the stream 3, and `nested 1[0,0:2]` the links of a graph. `next 2 v0=v0+1 if ..`
//! leads to state 2 and sets a variable, where a condition holds that is written as a task is, and `back` is
//! marked.
use crate::written::code::read_code;
use crate::written::empty;
use crate::written::links::{affine, range};
use sd_graph::{Exit, Guard, ItemKind};
use sd_list::Sequence;
use sd_num::Resolution;
use std::alloc::Global;
use std::test::Fail;

/// A task, a copy, a reduction by sums, or a graph without anything in it.
pub(crate) fn leaf(alloc: Global, word: &str, text: &str) -> Result<ItemKind, Fail> {
    let (mut code, mut ins, mut outs) = read_code(alloc, text)?;
    if word == "task" {
        return Ok(ItemKind::Task { code, ins, outs });
    }
    if word == "nested" {
        let graph = Box::new(alloc, empty(alloc)?)?;
        return Ok(ItemKind::Nested { graph, links: ins });
    }
    let from = ins.pop().ok_or("no side")?;
    let to = outs.pop().ok_or("no side")?;
    if word == "copy" {
        return Ok(ItemKind::Copy { from, to });
    }
    Ok(ItemKind::Reduce {
        resolution: Resolution::Sum,
        axis: code.variables.pop(),
        identity: None,
        from,
        to,
    })
}

/// A scope without anything in it.
pub(crate) fn scope(alloc: Global, word: &str, text: &str) -> Result<ItemKind, Fail> {
    let mut params = Vec::new(alloc);
    let mut private = Vec::new(alloc);
    for word in text.split_ascii_whitespace() {
        match word.split_once('=') {
            Some((name, values)) => {
                let variable = name.trim_start_matches('v').parse()?;
                params.push((variable, range(alloc, values)?))?;
            }
            None => private.push(word.parse()?)?,
        }
    }
    let body = Vec::new(alloc);
    if word == "map" {
        return Ok(ItemKind::Map {
            params,
            private,
            body,
            sequential: false,
        });
    }
    Ok(ItemKind::Consume {
        stream: private.pop().ok_or("no stream")?,
        element: private.pop().ok_or("no element")?,
        private,
        body,
    })
}

/// A transition; `back` is a marked one.
pub(crate) fn exit(alloc: Global, word: &str, text: &str) -> Result<Exit, Fail> {
    let (way, condition) = text.split_once(" if ").unwrap_or((text, ""));
    let (to, assignments) = way.split_once(' ').unwrap_or((way, ""));
    let mut set = Sequence::new(alloc);
    for word in assignments.split_ascii_whitespace() {
        let (name, value) = word.split_once('=').ok_or("no value")?;
        let variable = name.trim_start_matches('v').parse()?;
        set.push((variable, affine(alloc, value)?))?;
    }
    let mut when = None;
    if !condition.is_empty() {
        let (code, ins, _) = read_code(alloc, condition)?;
        let reads = Sequence::from(ins);
        when = Some(Guard {
            line: 1,
            reads,
            code,
        });
    }
    Ok(Exit {
        to: to.parse()?,
        back: word == "back",
        when,
        set,
    })
}
