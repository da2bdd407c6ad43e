//! The fast ways of the runner answer on programs of their kinds: a body that always goes the slow way prints the same.
use crate::sources::{bound_of, graph_of};
use crate::sure::sure;
use sd_graph::{Item, ItemKind, Sdfg};
use sd_mem::{End, Machine, Memory};
use sd_rows::{run_elements, run_rows, runners_of};
use sd_scope::{Base, Scope};
use std::alloc::Global;
use std::process::Abort;

const ONE_STATEMENT: &[u8] = b"
import dace

@dace.program
def inc(A: dace.int64[8], B: dace.int64[8]):
    for i in dace.map[0:8]:
        B[i] = A[i] + 1
";

const PRODUCT: &[u8] = b"
import dace

@dace.program
def product(A: dace.int64[3, 4], B: dace.int64[4, 2], C: dace.int64[3, 2]):
    for i, j, k in dace.map[0:3, 0:2, 0:4]:
        C[i, j] += A[i, k] * B[k, j]
";

const HISTOGRAM: &[u8] = b"
import dace

@dace.program
def histogram(A: dace.int64[8], H: dace.int64[4]):
    for i in dace.map[0:8]:
        with dace.tasklet:
            a << A[i]
            h >> H(1, lambda x, y: x + y)[0:4]
            h[a] = 1
";

const TWO_STATEMENTS: &[u8] = b"
import dace

@dace.program
def two(A: dace.int64[8], B: dace.int64[8], C: dace.int64[8]):
    for i in dace.map[0:8]:
        B[i] = A[i] + 1
        C[i] = A[i] * 2
";

const GATHER: &[u8] = b"
import dace

@dace.program
def gather(H: dace.int64[4], A: dace.int64[8], B: dace.int64[8]):
    for i in dace.map[0:8]:
        with dace.tasklet:
            h << H[0:4]
            a << A[i]
            b >> B[i]
            b = h[a]
";

const POOL: &[u8] = b"
import dace

@dace.program
def fib(n: dace.int64[1], res: dace.int64[1]):
    S = dace.define_stream(dace.int64, 1)
    with dace.tasklet:
        first << n
        out >> S
        out = first
    @dace.consume(S, 4)
    def pool(elem, p):
        more >> S(-1)
        val >> res(-1, lambda x, y: x + y)[0]
        if elem == 1:
            val = 1
        elif elem > 1:
            more = elem - 1
            more = elem - 2
";

/// How an item of a state is done by its fast way; `None` where that does not answer.
fn done(
    rt: &impl Abort,
    alloc: Global,
    item: &Item,
    graph: &Sdfg,
    scope: &Scope,
    machine: &mut Machine,
) -> Option<End> {
    let base = Base::outermost(alloc);
    match &item.kind {
        ItemKind::Map {
            params,
            private,
            body,
            ..
        } => sure(
            rt,
            run_rows(alloc, body, params, private, graph, &base, scope, machine),
        ),
        ItemKind::Consume {
            stream,
            element,
            private,
            body,
        } => sure(
            rt,
            run_elements(
                alloc, body, *stream, *element, private, graph, &base, scope, machine,
            ),
        ),
        _ => None,
    }
}

/// How many items of a program's states their fast ways finish.
fn finished(rt: &impl Abort, alloc: Global, text: &[u8]) -> usize {
    let bound = bound_of(rt, alloc, text);
    let memory = sure(rt, Memory::zeros(alloc, &bound));
    let mut machine = sure(rt, Machine::new(alloc, memory, 1000));
    let values = sure(rt, vec![in alloc; 0; bound.graph.variables.len()]);
    let scope = sure(rt, Scope::at_state(alloc, 0, values.as_slice()));
    let mut count = 0_usize;
    for state in &bound.graph.states {
        for item in &state.items {
            let end = done(rt, alloc, item, &bound.graph, &scope, &mut machine);
            if matches!(end, Some(End::Finished)) {
                count = count.saturating_add(1);
            }
        }
    }
    count
}

/// How many maps have a body that is made flat as a list of tasklets.
fn flat_bodies(rt: &impl Abort, alloc: Global, text: &[u8]) -> usize {
    let graph = graph_of(rt, alloc, text);
    let mut count = 0_usize;
    for state in &graph.states {
        for item in &state.items {
            if let ItemKind::Map { body, .. } = &item.kind
                && sure(rt, runners_of(alloc, body)).is_some()
            {
                count = count.saturating_add(1);
            }
        }
    }
    count
}

#[test]
fn a_map_of_one_tasklet_goes_by_rows(rt: HostRuntime) {
    assert_eq!(rt; finished(&rt, rt.alloc(), ONE_STATEMENT), 1);
    assert_eq!(rt; finished(&rt, rt.alloc(), PRODUCT), 1);
    assert_eq!(rt; finished(&rt, rt.alloc(), HISTOGRAM), 1);
}

#[test]
fn a_map_of_two_tasklets_has_flat_code(rt: HostRuntime) {
    assert_eq!(rt; finished(&rt, rt.alloc(), TWO_STATEMENTS), 0);
    assert_eq!(rt; flat_bodies(&rt, rt.alloc(), TWO_STATEMENTS), 1);
}

#[test]
fn a_map_of_a_tasklet_that_reads_an_array_has_flat_code(rt: HostRuntime) {
    assert_eq!(rt; flat_bodies(&rt, rt.alloc(), GATHER), 1);
}

#[test]
fn a_pool_of_one_tasklet_has_flat_code(rt: HostRuntime) {
    assert_eq!(rt; finished(&rt, rt.alloc(), POOL), 1);
}
