//! Graphs of sources.
use crate::sure::sure;
use sd_elab::elaborate;
use sd_graph::{Bound, Sdfg};
use sd_parse::parse;
use std::alloc::Global;
use std::process::Abort;

/// The longest text of a source.
const MOST: usize = 1 << 20;

/// The graph of a source.
pub(crate) fn graph_of(rt: &impl Abort, alloc: Global, text: &[u8]) -> Sdfg {
    if text.len() > MOST {
        panic!(rt; "too long");
    }
    match parse(alloc, text) {
        Ok(program) => sure(rt, elaborate(alloc, &program)),
        Err(_) => panic!(rt; "no source"),
    }
}

/// The same of a source without sizes.
pub(crate) fn bound_of(rt: &impl Abort, alloc: Global, text: &[u8]) -> Bound {
    Bound {
        graph: graph_of(rt, alloc, text),
    }
}
