//! What leaves do that no source has: a copy within one container, and a state of whose exits none may be taken.
use crate::sure::sure;
use crate::written::read_graph;
use sd_graph::{ItemKind, Sdfg};
use sd_leaves::{Next, next_exit, run_copy};
use sd_mem::{Address, End, Machine, Memory, Station};
use sd_scope::{Base, Scope};
use std::alloc::Global;
use std::process::Abort;
use std::test::Fail;

/// Container 0 is an array of three elements. The item is a copy of its first two elements to its last two. Two exits lead from
/// the state, each where an element is below 1.
const GRAPH: &str = "transient 3; state; copy 0[0:1] > 0[1:2];
next 0 if 0[1] > /0 | i0 1 < =o1; next 0 if 0[0] > /0 | i0 1 < =o1";

/// An element of container 0 in the innermost memory.
fn cell(element: u64) -> Address {
    let station = Station {
        level: 0,
        container: 0,
    };
    Address { station, element }
}

/// At the begin of a run without turns, in which the elements are 1, 2 and 3.
fn begun(rt: &impl Abort, alloc: Global, graph: &Sdfg) -> Machine {
    let memory = sure(rt, Memory::of_run(alloc, &graph.containers));
    let mut machine = sure(rt, Machine::new(alloc, memory, 0));
    for element in 0..3 {
        machine.write(cell(element), None, element as i64 + 1);
    }
    machine
}

#[test]
fn a_copy_goes_element_by_element(rt: HostRuntime) -> Result<(), Fail> {
    let alloc = rt.alloc();
    let graph = read_graph(alloc, GRAPH)?;
    let base = Base::outermost(alloc);
    let scope = sure(&rt, Scope::at_state(alloc, 0, &[]));
    let mut machine = begun(&rt, alloc, &graph);
    for state in &graph.states {
        for item in &state.items {
            if let ItemKind::Copy { from, to } = &item.kind {
                let end = run_copy(alloc, from, to, 7, &graph, &base, &scope, &mut machine);
                assert!(rt; matches!(sure(&rt, end), End::Finished));
            }
        }
    }
    assert_eq!(rt; machine.look(cell(1)), 1);
    assert_eq!(rt; machine.look(cell(2)), 1);
    Ok(())
}

#[test]
fn without_an_exit_that_may_be_taken_a_run_goes_nowhere(rt: HostRuntime) -> Result<(), Fail> {
    let alloc = rt.alloc();
    let graph = read_graph(alloc, GRAPH)?;
    let base = Base::outermost(alloc);
    let scope = sure(&rt, Scope::at_state(alloc, 0, &[]));
    let machine = begun(&rt, alloc, &graph);
    for state in &graph.states {
        let next = next_exit(alloc, &state.exits, &graph, &base, &scope, &machine);
        assert!(rt; matches!(sure(&rt, next), Next::Nowhere));
    }
    Ok(())
}
