//! Graphs of sources, run by workers on threads.
ghost use Rattle.std.specs.Prelude.{◌<◌, ◌≤◌};
ghost use Rattle.sd_graph.specs.TreeFold.{graph_tree};
ghost use Rattle.sd_part.specs.Whole.{IsOfWidths};
ghost use Rattle.sd_race.specs.race.Pairs.{IsGraphAccepted};
ghost use Rattle.sd_validity.specs.rules.Valid.{IsValid};

use crate::sources::bound_of;
use crate::sure::sure;
use sd_crew::{CrewEnd, run_crew};
use sd_graph::Bound;
use sd_io::{Gate, Open, Pair};
use sd_list::Sequence;
use sd_mem::{Elements, Memory};
use sd_part::{elements_are_of_their_widths, values_of_streams_are_of_their_widths};
use sd_race::check;
use sd_validate::validate;
use std::alloc::Global;
use std::process::Abort;
use std::sync::Wait;
use std::thread::Threads;

/// Four points, each of which reads what stands four elements behind it.
const SHIFT: &[u8] = b"
import dace

@dace.program
def shift(A: dace.int64[8]):
    for i in dace.map[0:4]:
        A[i] = A[i + 4]
";

/// The last point divides by the last element.
const DIVIDE: &[u8] = b"
import dace

@dace.program
def divide(A: dace.int64[8]):
    for i in dace.map[0:4]:
        A[i] = 840 // A[i + 4]
";

/// Three points, twice; the states about them have no items.
const TWICE: &[u8] = b"
import dace

@dace.program
def twice(A: dace.int64[8]):
    for k in range(2):
        for i in dace.map[0:3]:
            A[i] = A[i + 4] + k
";

/// A loop whose body is never run, so no state that is has items.
const NEVER: &[u8] = b"
import dace

@dace.program
def never(A: dace.int64[8]):
    for k in range(3, 3):
        A[k] = k
";

/// The graph of a source. It is valid, and the race check accepts it.
fn accepted(rt: &impl Abort, alloc: Global, text: &[u8]) -> Bound
    ensures valid { IsValid (graph_tree result.graph) }
    ensures accepted { IsGraphAccepted (graph_tree result.graph) }
{
    let bound = bound_of(rt, alloc, text);
    match validate(alloc, &bound) {
        Ok(()) => {}
        Err(_) => panic!(rt; "not valid"),
    }
    match check(alloc, &bound) {
        Ok(()) => {}
        Err(_) => panic!(rt; "not accepted"),
    }
    bound
}

/// The memory with which a graph opens: 1 to 7 and a last element.
fn opened(rt: &impl Abort, alloc: Global, bound: &Bound, last: i64) -> Memory
    ensures { IsOfWidths result }
{
    elements_are_of_their_widths();
    values_of_streams_are_of_their_widths();
    let elements = Sequence::from(sure(rt, vec![in alloc; 1, 2, 3, 4, 5, 6, 7, last]));
    match Memory::opening(alloc, bound, sure(rt, vec![in alloc; elements])) {
        Ok(memory) => memory,
        Err(_) => panic!(rt; "no memory"),
    }
}

/// Runs the graph of a source from these elements with a hundred turns, by so many workers.
fn run<R: Abort + Threads + Wait + Sync, G: Gate + Sync + Send>(
    rt: &R,
    alloc: Global,
    text: &[u8],
    last: i64,
    workers: u64,
    gate: &G,
) -> CrewEnd
    requires some { 0 < workers }
    requires few { workers ≤ 64 }
{
    let bound = accepted(rt, alloc, text);
    let memory = opened(rt, alloc, &bound, last);
    sure(rt, run_crew(rt, alloc, &bound, &memory, 100, workers, gate))
}

/// Whether workers are done with these elements, and so many turns are left.
fn leaves(end: &CrewEnd, wanted: &[i64], left: u64) -> bool {
    match end {
        CrewEnd::Stopped => false,
        CrewEnd::Done { memory, turns } => match memory.cells(0) {
            Elements::W64(cells) => cells == wanted && *turns == left,
            Elements::W32(_) => false,
        },
    }
}

#[test]
fn two_workers_are_inside_at_once(rt: HostRuntime) {
    let gate = Pair::new(1_000_000_000);
    let end = run(&rt, rt.alloc(), SHIFT, 8, 2, &gate);
    assert!(rt; leaves(&end, &[5, 6, 7, 8, 5, 6, 7, 8], 96));
    assert!(rt; gate.met());
}

#[test]
fn a_piece_with_a_fault_stops_the_workers(rt: HostRuntime) {
    let done = run(&rt, rt.alloc(), DIVIDE, 8, 3, &Open);
    assert!(rt; leaves(&done, &[168, 140, 120, 105, 5, 6, 7, 8], 96));
    assert!(rt; matches!(run(&rt, rt.alloc(), DIVIDE, 0, 3, &Open), CrewEnd::Stopped));
}

#[test]
fn there_may_be_more_workers_than_pieces(rt: HostRuntime) {
    let end = run(&rt, rt.alloc(), TWICE, 8, 64, &Open);
    assert!(rt; leaves(&end, &[6, 7, 8, 4, 5, 6, 7, 8], 92));
}

#[test]
fn a_graph_without_items_is_done_at_once(rt: HostRuntime) {
    let end = run(&rt, rt.alloc(), NEVER, 8, 2, &Open);
    assert!(rt; leaves(&end, &[1, 2, 3, 4, 5, 6, 7, 8], 100));
}
