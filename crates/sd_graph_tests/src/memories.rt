//! Memories that runs, points and elements begin with, streams, and what is kept at each width.
ghost use Rattle.std.specs.Prelude.{◌≡◌, [], ◌∷◌, pos, IfOk};
ghost use Rattle.sd_work.specs.Memory.{array};

use crate::sure::sure;
use crate::written::read_graph;
use indexmap::IndexMap;
use sd_graph::{Bound, Container, ContainerKind, Width};
use sd_list::Sequence;
use sd_mem::{Cells, Elements, Memory};
use sd_num::Resolution;
use sd_range::Affine;
use std::alloc::Global;
use std::process::Abort;
use std::test::Fail;

/// An argument, a transient, a stream, a private array and the array of an element.
const CONTAINERS: &str = "argument 4; transient 3; stream; private 2; private 1";

/// The elements that each container holds, with 32 before those of 32 bits.
fn told(rt: &impl Abort, alloc: Global, memory: &Memory) -> String {
    let mut text = String::new(alloc);
    for container in 0..5 {
        let written = match memory.cells(container) {
            Elements::W32(cells) => write!(&mut text, "32{:?}", cells),
            Elements::W64(cells) => write!(&mut text, "{:?}", cells),
        };
        sure(rt, written);
    }
    text
}

/// The containers of a graph.
fn containers(alloc: Global, text: &str) -> Result<IndexMap<String, Container>, Fail> {
    Ok(read_graph(alloc, text)?.containers)
}

#[test]
fn a_run_begins_with_what_is_its_own(rt: HostRuntime) -> Result<(), Fail> {
    let alloc = rt.alloc();
    let containers = containers(alloc, CONTAINERS)?;
    let run = sure(&rt, Memory::of_run(alloc, &containers));
    assert_eq!(rt; told(&rt, alloc, &run).as_str(), "[][0, 0, 0][][][]");
    Ok(())
}

#[test]
fn a_point_begins_with_what_is_its_own(rt: HostRuntime) -> Result<(), Fail> {
    let alloc = rt.alloc();
    let containers = containers(alloc, CONTAINERS)?;
    let mut point = sure(&rt, Memory::of_scope(alloc, &containers, &[3]));
    point.set(3, 1, None, -5);
    assert_eq!(rt; told(&rt, alloc, &point).as_str(), "[][][][0, -5][]");
    Ok(())
}

#[test]
fn an_element_begins_with_what_is_its_own(rt: HostRuntime) -> Result<(), Fail> {
    let alloc = rt.alloc();
    let containers = containers(alloc, CONTAINERS)?;
    let element = sure(&rt, Memory::of_element(alloc, &containers, 4, &[3], 9));
    assert_eq!(rt; told(&rt, alloc, &element).as_str(), "[][][][0, 0][9]");
    Ok(())
}

#[test]
fn what_is_not_there_reads_as_nothing_and_stays(rt: HostRuntime) -> Result<(), Fail> {
    let alloc = rt.alloc();
    let containers = containers(alloc, CONTAINERS)?;
    let mut memory = sure(&rt, Memory::of_run(alloc, &containers));
    let before = sure(&rt, memory.copy_of(alloc));
    memory.set(1, 3, None, 8);
    memory.set(2, 0, None, 8);
    memory.set(9, 0, None, 8);
    sure(&rt, memory.push(1, 8));
    sure(&rt, memory.push(9, 8));
    assert!(rt; memory.same(&before));
    assert_eq!(rt; (memory.cell(1, 3), memory.cell(9, 0)), (0, 0));
    assert_eq!(rt; (memory.take(1), memory.take(9)), (None, None));
    Ok(())
}

/// A memory that opens with six times this number as the argument.
fn opening_with(rt: &impl Abort, alloc: Global, bound: &Bound, element: i64) -> Memory {
    let cells = sure(rt, vec![in alloc; element; 6]);
    let given = sure(rt, vec![in alloc; Sequence::from(cells)]);
    sure(rt, Memory::opening(alloc, bound, given))
}

#[test]
fn zeros_are_an_opening_with_zeros(rt: HostRuntime) -> Result<(), Fail> {
    let alloc = rt.alloc();
    let graph = read_graph(alloc, "argument 2 3; transient 2 3; private 2 3; stream")?;
    let bound = Bound { graph };
    let zeros = sure(&rt, Memory::zeros(alloc, &bound));
    assert!(rt; zeros.same(&opening_with(&rt, alloc, &bound, 0)));
    assert!(rt; !zeros.same(&opening_with(&rt, alloc, &bound, 1)));
    assert!(rt; sure(&rt, zeros.copy_of(alloc)).same(&zeros));
    Ok(())
}

#[test]
fn a_stream_gives_its_oldest_value_or_the_one_at_a_position(rt: HostRuntime) -> Result<(), Fail> {
    let alloc = rt.alloc();
    let containers = containers(alloc, "stream")?;
    let mut memory = sure(&rt, Memory::of_run(alloc, &containers));
    for value in [5, -7, 9, 7] {
        sure(&rt, memory.push(0, value));
    }
    assert_eq!(rt; memory.waiting(0), 4);
    assert_eq!(rt; memory.value_at(0, 1), Some(-7));
    assert_eq!(rt; memory.take_at(0, 1), Some(-7));
    assert_eq!(rt; memory.take_at(0, 3), None);
    assert_eq!(rt; (memory.waiting(0), memory.waiting(1)), (3, 0));
    assert_eq!(rt; memory.take(0), Some(5));
    assert_eq!(rt; memory.take_at(0, 0), Some(9));
    assert_eq!(rt; (memory.take(0), memory.take(0)), (Some(7), None));
    Ok(())
}

/// A memory of an array and a stream of each width, in which the arrays open with numbers beyond 32 bits.
fn both_widths(rt: &impl Abort, alloc: Global) -> Result<Memory, Fail> {
    let graph = read_graph(alloc, "argument32 3; argument 3; stream32; stream")?;
    let mut given = Vec::new(alloc);
    for _ in 0..2 {
        let elements = sure(rt, vec![in alloc; 2147483649, 2147483647, 2147483647]);
        sure(rt, given.push(Sequence::from(elements)));
    }
    let memory = Memory::opening(alloc, &Bound { graph }, given);
    Ok(sure(rt, memory))
}

#[test]
fn what_is_given_at_32_bits_is_wrapped(rt: HostRuntime) -> Result<(), Fail> {
    let memory = both_widths(&rt, rt.alloc())?;
    let opened =
        "32[-2147483647, 2147483647, 2147483647][2147483649, 2147483647, 2147483647]32[][][]";
    assert_eq!(rt; told(&rt, rt.alloc(), &memory).as_str(), opened);
    Ok(())
}

#[test]
fn what_is_stored_at_32_bits_is_wrapped(rt: HostRuntime) -> Result<(), Fail> {
    let mut memory = both_widths(&rt, rt.alloc())?;
    for array in [0, 1] {
        memory.set(array, 0, None, 2147483648);
        memory.set(array, 1, Some(Resolution::Sum), 1);
        memory.set(array, 2, Some(Resolution::Min), 5000000000);
    }
    let changed =
        "32[-2147483648, -2147483648, 705032704][2147483648, 2147483648, 2147483647]32[][][]";
    assert_eq!(rt; told(&rt, rt.alloc(), &memory).as_str(), changed);
    Ok(())
}

#[test]
fn what_is_pushed_at_32_bits_is_wrapped(rt: HostRuntime) -> Result<(), Fail> {
    let mut memory = both_widths(&rt, rt.alloc())?;
    sure(&rt, memory.push(2, 2147483648));
    sure(&rt, memory.push(3, 2147483648));
    assert_eq!(rt; memory.take(2), Some(-2147483648));
    assert_eq!(rt; memory.take(3), Some(2147483648));
    Ok(())
}

/// A memory whose only container is an array of two zeros.
fn two_zeros(alloc: Global, width: Width) -> Result<Memory, Fail>
    ensures { IfOk result (λ memory. memory ≡ record { shapes = (2 ∷ []) ∷ []; contents = array width (pos 0 ∷ pos 0 ∷ []) ∷ [] }) }
{
    let extents = vec![in alloc; Affine::constant(alloc, 2)]?;
    let mut containers = IndexMap::new(alloc);
    let zeros = Container {
        extents: Sequence::from(extents),
        kind: ContainerKind::Transient,
        width,
    };
    containers.insert(String::new(alloc), zeros)?;
    Ok(Memory::of_run(alloc, &containers)?)
}

#[test]
fn an_array_is_taken_and_put_back_at_its_width(rt: HostRuntime) -> Result<(), Fail> {
    let alloc = rt.alloc();
    let mut narrow = two_zeros(alloc, Width::W32)?;
    let mut wide = two_zeros(alloc, Width::W64)?;
    let (Cells::W32(first), Cells::W64(second)) = (narrow.take_cells(0), wide.take_cells(0)) else {
        return Err(Fail::new("an array of another width"));
    };
    assert!(rt; first.as_slice() == [0, 0].as_slice());
    assert!(rt; second.as_slice() == [0, 0].as_slice());
    assert_eq!(rt; told(&rt, alloc, &narrow).as_str(), "32[][][][][]");
    narrow.put_cells(0, Cells::W32(vec![in alloc; -3, 7]?));
    wide.put_cells(0, Cells::W64(vec![in alloc; -3, 2147483648]?));
    assert_eq!(rt; told(&rt, alloc, &narrow).as_str(), "32[-3, 7][][][][]");
    assert_eq!(rt;
        told(&rt, alloc, &wide).as_str(),
        "[-3, 2147483648][][][][]"
    );
    Ok(())
}
