//! Small graphs, made by calls.
use crate::sure::sure;
use indexmap::IndexMap;
use sd_graph::{
    Act, Container, ContainerKind, Item, ItemKind, Link, Memlet, Port, Sdfg, State, Tasklet, Value,
    Width,
};
use sd_list::{Sequence, Text};
use sd_num::Resolution;
use sd_range::{Affine, Dim, Range, Subset};
use std::alloc::Global;
use std::process::Abort;

/// The parameter `i`, and a number more.
pub(crate) fn parameter(rt: &impl Abort, alloc: Global, more: i128) -> Affine {
    let mut index = sure(rt, Affine::variable(alloc, 0));
    index.constant = more;
    index
}

/// One element of an array of one dimension.
pub(crate) fn element(
    rt: &impl Abort,
    alloc: Global,
    container: u32,
    index: Affine,
    resolution: Option<Resolution>,
) -> Link {
    let dims = sure(rt, vec![in alloc; Dim::Index(index)]);
    Link {
        connector: Text::from(String::new(alloc)),
        memlet: Memlet {
            container,
            subset: Subset {
                dims: Sequence::from(dims),
            },
            volume: 1,
            resolution,
        },
    }
}

fn port(alloc: Global) -> Port {
    Port {
        connector: Text::from(String::new(alloc)),
        dims: 0,
    }
}

/// A tasklet that reads one element and writes it to another one.
pub(crate) fn assignment(rt: &impl Abort, alloc: Global, to: Link, from: Link) -> ItemKind {
    let act = Act::Out {
        connector: 1,
        at: Vec::new(alloc),
        value: Value::Input {
            connector: 0,
            at: Vec::new(alloc),
        },
    };
    ItemKind::Task {
        code: Tasklet {
            ins: sure(rt, vec![in alloc; port(alloc)]),
            outs: sure(rt, vec![in alloc; port(alloc)]),
            variables: Vec::new(alloc),
            locals: 0,
            body: sure(rt, vec![in alloc; act]),
        },
        ins: sure(rt, vec![in alloc; from]),
        outs: sure(rt, vec![in alloc; to]),
    }
}

/// The numbers from 0 to the last one.
pub(crate) fn up_to(rt: &impl Abort, alloc: Global, last: i128) -> Range {
    Range {
        begin: Affine::constant(alloc, 0),
        ends: Sequence::from(sure(rt, vec![in alloc; Affine::constant(alloc, last)])),
        step: 1,
    }
}

/// The map of an item over `i` from 0 to the last one.
pub(crate) fn map(
    rt: &impl Abort,
    alloc: Global,
    last: i128,
    sequential: bool,
    kind: ItemKind,
) -> ItemKind {
    ItemKind::Map {
        params: sure(rt, vec![in alloc; (0, up_to(rt, alloc, last))]),
        private: Vec::new(alloc),
        body: sure(rt, vec![in alloc; Item { line: 1, kind }]),
        sequential,
    }
}

/// An argument of one dimension.
pub(crate) fn argument(rt: &impl Abort, alloc: Global, count: i128, width: Width) -> Container {
    let extents = sure(rt, vec![in alloc; Affine::constant(alloc, count)]);
    Container {
        extents: Sequence::from(extents),
        kind: ContainerKind::Argument,
        width,
    }
}

/// Arguments `A`, `B` and `C`, as many as are given, and an item alone in the one state.
pub(crate) fn graph(
    rt: &impl Abort,
    alloc: Global,
    arguments: Vec<Container>,
    kind: ItemKind,
) -> Sdfg {
    let mut containers = IndexMap::new(alloc);
    for (name, argument) in ["A", "B", "C"].iter().zip(arguments) {
        sure(
            rt,
            containers.insert(sure(rt, name.to_string(alloc)), argument),
        );
    }
    let state = State {
        items: sure(rt, vec![in alloc; Item { line: 1, kind }]),
        exits: Vec::new(alloc),
    };
    let name = sure(rt, "i".to_string(alloc));
    let count = sure(rt, u32::try_from(containers.len()));
    Sdfg {
        name: String::new(alloc),
        containers,
        arguments: count,
        variables: sure(rt, vec![in alloc; name]),
        symbols: 0,
        states: sure(rt, vec![in alloc; state]),
    }
}
