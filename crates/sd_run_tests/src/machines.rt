//! The memories of all that is running, and the turns that are left.
use crate::sure::sure;
use indexmap::IndexMap;
use sd_graph::{Container, ContainerKind, Width};
use sd_list::Sequence;
use sd_mem::{Address, Machine, Memory, Station};
use sd_num::Resolution;
use sd_range::Affine;
use std::alloc::Global;
use std::process::Abort;

/// A memory with an array of this length and a stream.
fn memory(rt: &impl Abort, alloc: Global, length: i128) -> Memory {
    let mut containers = IndexMap::new(alloc);
    for (name, kind) in [
        ("T", ContainerKind::Transient),
        ("S", ContainerKind::Stream),
    ] {
        let extents = sure(rt, vec![in alloc; Affine::constant(alloc, length)]);
        let container = Container {
            extents: Sequence::from(extents),
            kind,
            width: Width::W64,
        };
        let name = sure(rt, name.to_string(alloc));
        sure(rt, containers.insert(name, container));
    }
    sure(rt, Memory::of_run(alloc, &containers))
}

/// A run in such a memory that has so many turns.
fn machine(rt: &impl Abort, alloc: Global, length: i128, turns: u64) -> Machine {
    sure(rt, Machine::new(alloc, memory(rt, alloc, length), turns))
}

/// A container of a memory, counted from the innermost.
fn station(level: usize, container: u32) -> Station {
    Station { level, container }
}

/// An element of the array of a memory, counted from the innermost.
fn cell(level: usize, element: u64) -> Address {
    Address {
        station: station(level, 0),
        element,
    }
}

#[test]
fn levels_are_counted_from_the_innermost(rt: HostRuntime) {
    let mut machine = machine(&rt, rt.alloc(), 2, 0);
    machine.write(cell(0, 1), None, 5);
    sure(&rt, machine.enter(memory(&rt, rt.alloc(), 2)));
    assert!(rt; machine.look(cell(0, 1)) == 0 && machine.look(cell(1, 1)) == 5);
    machine.write(cell(1, 1), Some(Resolution::Sum), 3);
    machine.leave();
    assert!(rt; machine.look(cell(0, 1)) == 8);
    assert!(rt; machine.into_memory().cell(0, 1) == 8);
}

/// A run in an inner memory, with these values in the stream of the outer one.
fn streaming(rt: &impl Abort, alloc: Global, values: &[i64]) -> Machine {
    let mut machine = machine(rt, alloc, 0, 0);
    sure(rt, machine.enter(memory(rt, alloc, 0)));
    for value in values {
        sure(rt, machine.push(station(1, 1), *value));
    }
    machine
}

#[test]
fn the_oldest_value_of_an_outer_stream_is_taken(rt: HostRuntime) {
    let mut machine = streaming(&rt, rt.alloc(), &[4, 6]);
    assert!(rt; machine.take(station(0, 1)).is_none());
    assert!(rt; machine.take(station(1, 1)) == Some(4));
    assert!(rt; machine.take(station(1, 1)) == Some(6));
    assert!(rt; machine.take(station(1, 1)).is_none());
}

#[test]
fn what_is_not_there_reads_as_nothing(rt: HostRuntime) {
    let mut machine = machine(&rt, rt.alloc(), 2, 0);
    machine.write(cell(1, 0), None, 5);
    sure(&rt, machine.push(station(1, 1), 5));
    assert!(rt; machine.look(cell(1, 0)) == 0 && machine.look(cell(0, 2)) == 0);
    assert!(rt; machine.take(station(1, 1)).is_none());
}

#[test]
fn a_turn_is_spent_where_one_is_wanted(rt: HostRuntime) {
    let mut machine = machine(&rt, rt.alloc(), 0, 1);
    assert!(rt; machine.pay(false));
    assert!(rt; machine.pay(true));
    assert!(rt; !machine.pay(true));
    assert!(rt; machine.turns() == 0);
}

#[test]
fn a_value_of_an_outer_stream_is_taken_at_its_position(rt: HostRuntime) {
    let mut machine = streaming(&rt, rt.alloc(), &[4, 6, 8]);
    assert!(rt; machine.waiting(station(1, 1)) == 3 && machine.waiting(station(0, 1)) == 0);
    assert!(rt; machine.take_at(station(1, 1), 1) == Some(6));
    assert!(rt; machine.take_at(station(1, 1), 2).is_none());
    assert!(rt; machine.take(station(1, 1)) == Some(4));
    assert!(rt; machine.take(station(1, 1)) == Some(8));
}

#[test]
fn a_memory_that_is_lent_comes_back_with_its_changes(rt: HostRuntime) {
    let mut machine = machine(&rt, rt.alloc(), 2, 3);
    let mut own = memory(&rt, rt.alloc(), 2);
    sure(&rt, machine.lend(&mut own));
    machine.write(cell(0, 1), None, 5);
    machine.write(cell(1, 1), None, 7);
    machine.give_back(&mut own);
    assert!(rt; own.cell(0, 1) == 5 && machine.look(cell(0, 1)) == 7);
    assert!(rt; machine.turns() == 3);
}
