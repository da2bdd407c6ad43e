//! What adds to a graph, and copies of graphs.
use crate::cases::EXAMPLE;
use crate::sure::sure;
use crate::written::read_graph;
use sd_graph::{Container, ContainerKind, Exit, Item, Sdfg, State, Width};
use sd_list::{NoMemory, Sequence};
use std::alloc::Global;
use std::process::Abort;
use std::test::Fail;

// The contracts say what each of these calls answers where it answers `Ok`. This test says that it
// does, with ample memory.

/// The answer of one more stream with this name, if the graph has none with it.
fn push_stream(graph: &mut Sdfg, alloc: Global, name: &str) -> Result<Option<u32>, NoMemory> {
    if graph.has_container(name) {
        return Ok(None);
    }
    let stream = Container {
        extents: Sequence::new(alloc),
        kind: ContainerKind::Stream,
        width: Width::W64,
    };
    let number = graph.push_container(name.to_string(alloc)?, stream)?;
    Ok(Some(number))
}

/// The graph of the example, once more.
fn example(alloc: Global) -> Result<Sdfg, Fail> {
    let graph = read_graph(alloc, EXAMPLE)?;
    Ok(graph.copy_of(alloc)?)
}

#[test]
fn a_container_has_the_next_number(rt: HostRuntime) -> Result<(), Fail> {
    let alloc = rt.alloc();
    let mut graph = example(alloc)?;
    assert_eq!(rt; sure(&rt, push_stream(&mut graph, alloc, "A")), Some(6));
    assert_eq!(rt; sure(&rt, push_stream(&mut graph, alloc, "B")), Some(7));
    assert_eq!(rt; sure(&rt, push_stream(&mut graph, alloc, "A")), None);
    assert!(rt; graph.has_container("B") && !graph.has_container("b"));
    Ok(())
}

/// The same items and exits, one behind the other.
fn state_of(rt: &impl Abort, alloc: Global, items: Vec<Item>, exits: Vec<Exit>) -> State {
    let mut state = State {
        items: Vec::new(alloc),
        exits: Vec::new(alloc),
    };
    for item in items {
        sure(rt, state.push_item(item));
    }
    for exit in exits {
        sure(rt, state.push_exit(exit));
    }
    state
}

#[test]
fn a_state_has_the_next_number(rt: HostRuntime) -> Result<(), Fail> {
    let alloc = rt.alloc();
    let Some(State { items, exits }) = read_graph(alloc, "state; task; next 1")?.states.pop() else {
        return Err(Fail::new("no state"));
    };
    let state = state_of(&rt, alloc, items, exits);
    let mut graph = example(alloc)?;
    assert_eq!(rt; sure(&rt, graph.push_state(state)), 4);
    Ok(())
}
