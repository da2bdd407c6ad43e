//! Maps of a source: the graphs that docs/REWRITES.md shows.
use sd_elab::elaborate;
use sd_graph::{Bound, Path};
use sd_list::Sequence;
use sd_mapx::{Refused, collapse, expand, interchange};
use sd_parse::parse;
use sd_print::{spans_of, state_text};
use std::alloc::Global;
use std::process::Abort;

/// The longest text of a source.
const MOST: usize = 1 << 20;

/// A map round a map, with an array that is read and one that is written.
const SOURCE: &[u8] = b"\
import dace
@dace.program
def rows(A: dace.int64[2, 3], B: dace.int64[2, 3]):
    for i in dace.map[0:2]:
        for j in dace.map[0:3]:
            B[i, j] = A[i, j] + 1
";

/// Its one state with an item.
const TWO_MAPS: &str = "\
state 1
node 0 access A
node 1 map i=0:2
node 2 in 1 map j=0:3
node 3 in 2 tasklet line 6
node 4 in 1 exit 2
node 5 exit 1
node 6 access B
edge 0 1 A
edge 1 2 A
edge 2 3 A[i, j] _in0
edge 3 4 B[i, j] _out
edge 4 5 B
edge 5 6 B
";

/// The same where the two maps are one.
const ONE_MAP: &str = "\
state 1
node 0 access A
node 1 map i=0:2, j=0:3
node 2 in 1 tasklet line 6
node 3 exit 1
node 4 access B
edge 0 1 A
edge 1 2 A[i, j] _in0
edge 2 3 B[i, j] _out
edge 3 4 B
";

/// The same where the two maps have changed places.
const TURNED: &str = "\
state 1
node 0 access A
node 1 map j=0:3
node 2 in 1 map i=0:2
node 3 in 2 tasklet line 6
node 4 in 1 exit 2
node 5 exit 1
node 6 access B
edge 0 1 A
edge 1 2 A
edge 2 3 A[i, j] _in0
edge 3 4 B[i, j] _out
edge 4 5 B
edge 5 6 B
";

/// Maps of which the outer one has a race: each of its points writes the same row.
const OUTER_RACE: &[u8] = b"\
import dace
@dace.program
def rows(A: dace.int64[2, 3], B: dace.int64[2, 3]):
    for i in dace.map[0:2]:
        for j in dace.map[0:3]:
            B[0, j] = A[i, j] + 1
";

/// Maps of which the inner one has: each of its points writes the same element.
const INNER_RACE: &[u8] = b"\
import dace
@dace.program
def rows(A: dace.int64[2, 3], B: dace.int64[2, 3]):
    for i in dace.map[0:2]:
        for j in dace.map[0:3]:
            B[i, 0] = A[i, j] + 1
";

/// Maps without a race, and a consume scope behind them that has one: each element replaces the same value.
const POOL_RACE: &[u8] = b"\
import dace
@dace.program
def rows(A: dace.int64[2, 3], B: dace.int64[2, 3], C: dace.int64[1]):
    for i in dace.map[0:2]:
        for j in dace.map[0:3]:
            B[i, j] = A[i, j] + 1
    S = dace.define_stream(dace.int64, 1)
    @dace.consume(S, 4)
    def pool(elem, p):
        c >> C[0]
        c = elem
";

/// What a call gives; the test ends where it gives an error.
pub(crate) fn sure<T, E: Drop>(rt: &impl Abort, given: Result<T, E>) -> T {
    match given {
        Ok(value) => value,
        Err(_) => panic!(rt; "refused"),
    }
}

/// The graph of a source without sizes.
pub(crate) fn written(rt: &impl Abort, alloc: Global, text: &[u8]) -> Bound {
    if text.len() > MOST {
        panic!(rt; "too long");
    }
    match parse(alloc, text) {
        Ok(program) => Bound {
            graph: sure(rt, elaborate(alloc, &program)),
        },
        Err(_) => panic!(rt; "no source"),
    }
}

/// Whether this is the text of state 1 of a graph.
fn has_text(rt: &impl Abort, alloc: Global, bound: &Bound, wanted: &str) -> bool {
    let graph = &bound.graph;
    let Some(state) = graph.states.get(1) else {
        return false;
    };
    let names = graph.variables.as_slice();
    let spans = sure(rt, spans_of(alloc, names, graph.states.as_slice()));
    let told = sure(
        rt,
        state_text(alloc, names, &graph.containers, spans.as_slice(), 1, state),
    );
    told.text.as_str() == wanted
}

#[test]
fn two_maps_of_a_source_become_one_and_two_again(rt: HostRuntime) {
    let alloc = rt.alloc();
    let bound = written(&rt, alloc, SOURCE);
    assert!(rt; has_text(&rt, alloc, &bound, TWO_MAPS));
    let steps = Sequence::from(sure(&rt, vec![in alloc; 1, 1]));
    let at = Path { steps };
    let one = sure(&rt, collapse(alloc, &bound, &at));
    assert!(rt; has_text(&rt, alloc, &one, ONE_MAP));
    let two = sure(&rt, expand(alloc, &one, &at));
    assert!(rt; has_text(&rt, alloc, &two, TWO_MAPS));
}

/// The number of the condition with which an interchange of the maps of a source is refused; 0 where it is not.
fn refused_by(rt: &impl Abort, alloc: Global, text: &[u8]) -> u8 {
    let bound = written(rt, alloc, text);
    let steps = Sequence::from(sure(rt, vec![in alloc; 1, 1]));
    match interchange(alloc, &bound, &Path { steps }) {
        Ok(_) => 0,
        Err(Refused::Condition(number)) => number,
        Err(Refused::Memory) => panic!(rt; "no memory"),
    }
}

#[test]
fn two_maps_of_a_source_change_places_and_back(rt: HostRuntime) {
    let alloc = rt.alloc();
    let bound = written(&rt, alloc, SOURCE);
    let steps = Sequence::from(sure(&rt, vec![in alloc; 1, 1]));
    let at = Path { steps };
    let turned = sure(&rt, interchange(alloc, &bound, &at));
    assert!(rt; has_text(&rt, alloc, &turned, TURNED));
    let back = sure(&rt, interchange(alloc, &turned, &at));
    assert!(rt; has_text(&rt, alloc, &back, TWO_MAPS));
}

#[test]
fn maps_are_interchanged_only_without_races(rt: HostRuntime) {
    let alloc = rt.alloc();
    assert_eq!(rt; refused_by(&rt, alloc, SOURCE), 0);
    assert_eq!(rt; refused_by(&rt, alloc, OUTER_RACE), 4);
    assert_eq!(rt; refused_by(&rt, alloc, INNER_RACE), 4);
    assert_eq!(rt; refused_by(&rt, alloc, POOL_RACE), 8);
}
