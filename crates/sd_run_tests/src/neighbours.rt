//! A map in which each point reads what the next one writes, in order and in any order. No source has an ordered one.
use crate::building;
use crate::building::{argument, assignment, element, map, parameter};
use crate::sure::sure;
use sd_core::{run_picked, run_traced};
use sd_cut::{Window, cells_within, windowed_base};
use sd_graph::{Bound, Path, Width};
use sd_list::Sequence;
use sd_mem::{Elements, Memory};
use sd_race::{RaceError, check, scope_accepted};
use sd_seq::RunEnd;
use std::alloc::Global;
use std::process::Abort;
use std::test::Fail;

/// An array of four elements, and the map of `A[i] = A[i + 1]` over `i` from 0 to the last one alone in the one state.
fn shifted_by(rt: &impl Abort, alloc: Global, last: i128, sequential: bool) -> Bound {
    let from = element(rt, alloc, 0, parameter(rt, alloc, 1), None);
    let to = element(rt, alloc, 0, parameter(rt, alloc, 0), None);
    let kind = map(rt, alloc, last, sequential, assignment(rt, alloc, to, from));
    let arguments = sure(rt, vec![in alloc; argument(rt, alloc, 4, Width::W64)]);
    Bound {
        graph: building::graph(rt, alloc, arguments, kind),
    }
}

/// The same over `i` from 0 to 2.
fn graph(rt: &impl Abort, alloc: Global, sequential: bool) -> Bound {
    shifted_by(rt, alloc, 2, sequential)
}

/// The same in any order, over `i` from 0 to the last one.
pub(crate) fn shifted(rt: &impl Abort, alloc: Global, last: i128) -> Bound {
    shifted_by(rt, alloc, last, false)
}

/// A memory in which the elements are 1 to 4.
fn memory(rt: &impl Abort, alloc: Global, bound: &Bound) -> Memory {
    let elements = Sequence::from(sure(rt, vec![in alloc; 1, 2, 3, 4]));
    let given = sure(rt, vec![in alloc; elements]);
    sure(rt, Memory::opening(alloc, bound, given))
}

/// Whether a run by picks leaves these elements and so many turns of a hundred.
fn leaves(rt: &impl Abort, alloc: Global, bound: &Bound, picks: &[u64], wanted: &[i64]) -> bool {
    let memory = memory(rt, alloc, bound);
    match sure(rt, run_picked(alloc, bound, memory, 100, picks)) {
        RunEnd::Done { memory, turns } => match memory.cells(0) {
            Elements::W64(cells) => cells == wanted && turns == 97,
            Elements::W32(_) => false,
        },
        _ => false,
    }
}

#[test]
fn points_of_a_sequential_map_come_one_after_another(rt: HostRuntime) {
    let alloc = rt.alloc();
    let bound = graph(&rt, alloc, true);
    let picks: [&[u64]; 5] = [
        &[],
        &[7, 3, 8, 5],
        &[2, 2, 2, 1, 1, 1, 0, 0, 0],
        &[0, 1, 2, 0, 1, 2, 0, 1, 2],
        &[1, 0, 1, 0, 1, 0, 1, 0, 1],
    ];
    for picks in picks {
        assert!(rt; leaves(&rt, alloc, &bound, picks, &[2, 3, 4, 4]));
    }
}

#[test]
fn without_an_order_the_last_point_may_come_first(rt: HostRuntime) {
    let alloc = rt.alloc();
    let bound = graph(&rt, alloc, false);
    assert!(rt; leaves(&rt, alloc, &bound, &[], &[2, 3, 4, 4]));
    let picks = [2, 2, 2, 1, 1, 1, 0, 0, 0];
    assert!(rt; leaves(&rt, alloc, &bound, &picks, &[4, 4, 4, 4]));
}

#[test]
fn a_sequential_map_has_one_move_at_a_time(rt: HostRuntime) {
    let alloc = rt.alloc();
    let bound = graph(&rt, alloc, true);
    let memory = memory(&rt, alloc, &bound);
    let run = sure(&rt, run_traced(alloc, &bound, memory, 100, &[4, 4, 4]));
    // Three moves of each of three points, and the end of the graph.
    assert_eq!(rt; run.trace.len(), 10);
    for step in run.trace.as_slice() {
        assert!(rt; step.moves == 1 && step.number == 0);
    }
}

#[test]
fn the_check_passes_over_a_sequential_map_and_tells_of_it_all_the_same(rt: HostRuntime) {
    let alloc = rt.alloc();
    let path = Path {
        steps: Sequence::from(sure(&rt, vec![in alloc; 0, 1])),
    };
    for sequential in [false, true] {
        let bound = graph(&rt, alloc, sequential);
        let refused = matches!(check(alloc, &bound), Err(RaceError::At(_)));
        assert!(rt; refused != sequential);
        let accepted = sure(&rt, scope_accepted(alloc, &bound, &path));
        assert!(rt; accepted == Some(false));
    }
}

#[test]
fn a_window_has_the_elements_of_its_container(rt: HostRuntime) -> Result<(), Fail> {
    let alloc = rt.alloc();
    let bound = graph(&rt, alloc, true);
    let memory = memory(&rt, alloc, &bound);
    // The two elements from number 1 on.
    let window = Window {
        shift: Sequence::from(vec![in alloc; -1]?),
        extents: Sequence::from(vec![in alloc; 2]?),
    };
    let cells = cells_within(alloc, &memory, 0, &window)?;
    assert!(rt; cells.as_slice() == [2, 3].as_slice());
    let base = windowed_base(alloc, &bound.graph, &[Some(window)])?;
    assert_eq!(rt; base.ways.len(), 1);
    Ok(())
}
