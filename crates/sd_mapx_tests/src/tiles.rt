//! Maps cut into tiles: the ranges, the names and the variables of the graphs that are made.
use crate::chains::{graph_of, read_chain};
use crate::written::{sure, written};
use sd_graph::{Bound, ItemKind, Path, Sdfg};
use sd_list::Sequence;
use sd_mapx::{Refused, tile};
use sd_print::{spans_of, state_text};
use sd_range::{Affine, Range};
use std::alloc::Global;
use std::process::Abort;
use std::test::Fail;

/// A map of one parameter, the steps of which are 3.
const STEPS: &[u8] = b"\
import dace
@dace.program
def rows(A: dace.int64[9], B: dace.int64[9]):
    for i in dace.map[0:8:3]:
        B[i] = A[i] + 1
";

/// A map of two parameters.
const ROWS: &[u8] = b"\
import dace
@dace.program
def rows(A: dace.int64[2, 3], B: dace.int64[2, 3]):
    for i, j in dace.map[0:2, 0:3]:
        B[i, j] = A[i, j] + 1
";

/// One that has a race: each of its points writes the same row.
const RACE: &[u8] = b"\
import dace
@dace.program
def rows(A: dace.int64[2, 3], B: dace.int64[2, 3]):
    for i, j in dace.map[0:2, 0:3]:
        B[0, j] = A[i, j] + 1
";

/// One without a race, and a consume scope behind it that has one: each element replaces the same value.
const POOL_RACE: &[u8] = b"\
import dace
@dace.program
def rows(A: dace.int64[2, 3], B: dace.int64[2, 3], C: dace.int64[1]):
    for i, j in dace.map[0:2, 0:3]:
        B[i, j] = A[i, j] + 1
    S = dace.define_stream(dace.int64, 1)
    @dace.consume(S, 4)
    def pool(elem, p):
        c >> C[0]
        c = elem
";

/// One of one parameter that has a race.
const ONE_RACE: &[u8] = b"\
import dace
@dace.program
def rows(A: dace.int64[9], B: dace.int64[9]):
    for i in dace.map[0:9]:
        B[0] = A[i]
";

/// The graph of a source with the map at a node of state 1 in tiles.
fn tiled(
    rt: &impl Abort,
    alloc: Global,
    bound: &Bound,
    node: u32,
    sizes: &[u64],
) -> Result<Bound, u8> {
    let steps = Sequence::from(sure(rt, vec![in alloc; 1, node]));
    match tile(alloc, bound, &Path { steps }, sizes) {
        Ok(new) => Ok(new),
        Err(Refused::Condition(number)) => Err(number),
        Err(Refused::Memory) => panic!(rt; "no memory"),
    }
}

/// Whether these lines stand in the text of state 1 of a graph.
fn has_lines(rt: &impl Abort, alloc: Global, bound: &Bound, wanted: &str) -> bool {
    let graph = &bound.graph;
    let Some(state) = graph.states.get(1) else {
        return false;
    };
    let names = graph.variables.as_slice();
    let spans = sure(rt, spans_of(alloc, names, graph.states.as_slice()));
    let told = sure(
        rt,
        state_text(alloc, names, &graph.containers, spans.as_slice(), 1, state),
    );
    told.text.as_str().contains(wanted)
}

#[test]
fn the_last_tile_ends_where_the_range_ends(rt: HostRuntime) {
    let alloc = rt.alloc();
    let bound = written(&rt, alloc, STEPS);
    let once = sure(&rt, tiled(&rt, alloc, &bound, 1, &[2]));
    let lines = "node 1 map i$1=0:8:6\nnode 2 in 1 map i=i$1:min(8,i$1+4):3\n";
    assert!(rt; has_lines(&rt, alloc, &once, lines));
    let twice = sure(&rt, tiled(&rt, alloc, &once, 2, &[4]));
    let lines =
        "node 2 in 1 map i$2=i$1:min(8,i$1+4):12\nnode 3 in 2 map i=i$2:min(8,i$1+4,i$2+10):3\n";
    assert!(rt; has_lines(&rt, alloc, &twice, lines));
    let thrice = sure(&rt, tiled(&rt, alloc, &twice, 3, &[2]));
    assert!(rt; tiled(&rt, alloc, &thrice, 4, &[2]).is_err_and(|number| number == 9));
}

#[test]
fn two_parameters_have_tiles_of_their_own(rt: HostRuntime) {
    let alloc = rt.alloc();
    let bound = written(&rt, alloc, ROWS);
    let new = sure(&rt, tiled(&rt, alloc, &bound, 1, &[2, 4]));
    let lines =
        "node 1 map i$1=0:2:2, j$1=0:3:4\nnode 2 in 1 map i=i$1:min(2,i$1+2), j=j$1:min(3,j$1+4)\n";
    assert!(rt; has_lines(&rt, alloc, &new, lines));
}

#[test]
fn one_parameter_alone_may_have_races(rt: HostRuntime) {
    let alloc = rt.alloc();
    let bound = written(&rt, alloc, RACE);
    assert!(rt; tiled(&rt, alloc, &bound, 1, &[2, 2]).is_err_and(|number| number == 3));
    let bound = written(&rt, alloc, POOL_RACE);
    assert!(rt; tiled(&rt, alloc, &bound, 1, &[2, 2]).is_err_and(|number| number == 8));
    let bound = written(&rt, alloc, ONE_RACE);
    assert!(rt; tiled(&rt, alloc, &bound, 1, &[2]).is_ok());
}

/// What is told of a map with this step that is cut into tiles of two values: 0 where it is not refused.
fn told_of_step(alloc: Global, step: i128) -> Result<u8, Fail> {
    let begin = Affine::constant(alloc, 0);
    let mut ends = Sequence::new(alloc);
    ends.push(Affine::constant(alloc, 1))?;
    let range = Range { begin, ends, step };
    let kind = ItemKind::Map {
        params: vec![in alloc; (0_u32, range)]?,
        private: Vec::new(alloc),
        body: Vec::new(alloc),
        sequential: false,
    };
    let graph = graph_of(alloc, Some(kind))?;
    let steps = Sequence::from(vec![in alloc; 0, 0]?);
    match tile(alloc, &Bound { graph }, &Path { steps }, &[2]) {
        Ok(_) => Ok(0),
        Err(Refused::Condition(number)) => Ok(number),
        Err(Refused::Memory) => Err(Fail::new("no memory")),
    }
}

#[test]
fn the_begins_of_tiles_are_within_limits(rt: HostRuntime) -> Result<(), Fail> {
    let alloc = rt.alloc();
    assert_eq!(rt; told_of_step(alloc, (1 << 39) - 1)?, 0);
    assert_eq!(rt; told_of_step(alloc, 1 << 39)?, 9);
    assert_eq!(rt; told_of_step(alloc, i128::MAX)?, 9);
    assert_eq!(rt; told_of_step(alloc, 0)?, 9);
    assert_eq!(rt; told_of_step(alloc, -1)?, 9);
    Ok(())
}

/// The graph nested in the map that is the first item of a graph.
fn nested_in(graph: &Sdfg) -> Option<&Sdfg> {
    let item = graph.states.first()?.items.first()?;
    let ItemKind::Map { body, .. } = &item.kind else {
        return None;
    };
    match &body.first()?.kind {
        ItemKind::Nested { graph: inner, .. } => Some(inner),
        _ => None,
    }
}

#[test]
fn the_graph_that_has_the_map_gets_the_variables(rt: HostRuntime) -> Result<(), Fail> {
    let alloc = rt.alloc();
    let graph = read_chain(alloc, "3 > graph > 0 > graph")?;
    let steps = Sequence::from(vec![in alloc; 0, 1, 0, 0]?);
    let Ok(new) = tile(alloc, &Bound { graph }, &Path { steps }, &[2]) else {
        return Err(Fail::new("refused"));
    };
    assert_eq!(rt; new.graph.variables.len(), 12);
    let Some(inner) = nested_in(&new.graph) else {
        return Err(Fail::new("no graph"));
    };
    assert_eq!(rt; inner.variables.len(), 13);
    let Some(name) = inner.variables.last() else {
        return Err(Fail::new("no variable"));
    };
    assert_eq!(rt; name.as_str(), "$1");
    Ok(())
}
