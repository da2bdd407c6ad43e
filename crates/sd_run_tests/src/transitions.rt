//! Transitions behind a state, one of each kind.
use crate::sources::bound_of;
use crate::sure::sure;
use sd_graph::{Bound, FaultKind};
use sd_mem::Memory;
use sd_part::{Followed, Kept, follow};
use std::alloc::Global;
use std::process::Abort;

/// State 0 leads to 1, and 1 to 2 where the condition holds and else to 4; the body is 3, which leads back to 1.
const WHILE: &[u8] = b"
import dace

@dace.program
def halves(A: dace.int64[1]):
    while 6 // A[0] > 1:
        A[0] = A[0] + 1
";

/// State 0 sets `i`, 3 adds 1 to it on the way back to 1.
const FOR: &[u8] = b"
import dace

@dace.program
def sums(A: dace.int64[1]):
    for i in range(5, 8):
        A[0] = A[0] + i
";

/// A memory of which the one element is this.
fn memory(rt: &impl Abort, alloc: Global, bound: &Bound, value: i64) -> Memory {
    let mut memory = sure(rt, Memory::zeros(alloc, bound));
    memory.write(0, &[0], None, value);
    memory
}

/// What a transition tells: the state and the turns; 100 and the turns that were wanted; 200 and 1 for a division by 0, else 0; 300 for no way.
fn told(followed: Followed) -> (u32, u64) {
    match followed {
        Followed::To(state, turns) => (state, turns),
        Followed::Stopped(Kept::Turns(turns)) => (100, turns),
        Followed::Stopped(Kept::Fault(_, FaultKind::Division)) => (200, 1),
        Followed::Stopped(Kept::Fault(_, FaultKind::Subscript)) => (200, 0),
        Followed::End => (300, 0),
    }
}

/// What the transition behind a state tells, with this element and so many turns; the element stays.
fn behind(
    rt: &impl Abort,
    alloc: Global,
    bound: &Bound,
    state: u32,
    value: i64,
    turns: u64,
) -> (u32, u64) {
    let mut memory = memory(rt, alloc, bound, value);
    let mut values = sure(rt, vec![in alloc; 0; bound.graph.variables.len()]);
    let followed = follow(alloc, bound, state, &mut values, &mut memory, turns);
    assert!(rt; memory.cell(0, 0) == value);
    told(sure(rt, followed))
}

#[test]
fn the_first_exit_that_holds_is_taken(rt: HostRuntime) {
    let bound = bound_of(&rt, rt.alloc(), WHILE);
    assert_eq!(rt; behind(&rt, rt.alloc(), &bound, 0, 2, 0), (1, 0));
    assert_eq!(rt; behind(&rt, rt.alloc(), &bound, 1, 2, 0), (2, 0));
    assert_eq!(rt; behind(&rt, rt.alloc(), &bound, 1, 4, 0), (4, 0));
    assert_eq!(rt; behind(&rt, rt.alloc(), &bound, 4, 4, 0), (300, 0));
}

#[test]
fn a_condition_may_come_to_a_fault(rt: HostRuntime) {
    let bound = bound_of(&rt, rt.alloc(), WHILE);
    assert_eq!(rt; behind(&rt, rt.alloc(), &bound, 1, 0, 5), (200, 1));
}

#[test]
fn the_way_back_wants_a_turn(rt: HostRuntime) {
    let bound = bound_of(&rt, rt.alloc(), WHILE);
    assert_eq!(rt; behind(&rt, rt.alloc(), &bound, 3, 2, 7), (1, 1));
    assert_eq!(rt; behind(&rt, rt.alloc(), &bound, 3, 2, 0), (100, 1));
}

/// The value of `i` behind a state, where it was 6, with so many turns.
fn index_behind(rt: &impl Abort, alloc: Global, bound: &Bound, state: u32, turns: u64) -> i128 {
    let mut memory = memory(rt, alloc, bound, 0);
    let mut values = sure(rt, vec![in alloc; 6; bound.graph.variables.len()]);
    let followed = follow(alloc, bound, state, &mut values, &mut memory, turns);
    sure(rt, followed);
    values.first().copied().unwrap_or(-1)
}

#[test]
fn the_variables_have_the_values_behind_the_exit(rt: HostRuntime) {
    let bound = bound_of(&rt, rt.alloc(), FOR);
    assert_eq!(rt; index_behind(&rt, rt.alloc(), &bound, 0, 0), 5);
    assert_eq!(rt; index_behind(&rt, rt.alloc(), &bound, 3, 1), 7);
    assert_eq!(rt; index_behind(&rt, rt.alloc(), &bound, 3, 0), 6);
}
