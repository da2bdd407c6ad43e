//! The memories of what begins inside a run: of graphs, of points and of elements of scopes.
ghost use Rattle.std.specs.Prelude.{◌≡◌, [], ◌∷◌, ◌++◌, map, if◌then◌else◌, IfOk};
ghost use Rattle.std.specs.List.{AllByRecursion};
ghost use Rattle.sd_work.specs.Memory.{absent};
ghost use Rattle.sd_work.specs.Change.{changed_at};
ghost use Rattle.sd_graph.specs.ContainerParts as parts;
ghost use Rattle.sd_graph.specs.ContainerParts.{container_at, opening_contents};
ghost use Rattle.sd_graph.specs.Context.{private_memory};
ghost use Rattle.sd_graph.specs.TreeFold.{named_container};
ghost use Rattle.sd_graph.specs.Unfold.{one_element, run_memory};
ghost use Rattle.sd_graph.specs.Wiring.{has_number};
ghost use Rattle.sd_mem.specs.mem.Cells.{array_of};
ghost use Rattle.sd_mem.specs.mem.GraphContents.{shape_of, shapes_from};
ghost use Rattle.sd_mem.specs.mem.Holding.{shape_held, contents_held, IsSized};

use crate::mem::cells::{Cells, Values};
use crate::mem::holding::Holding;
use crate::mem::memory::Memory;
use crate::mem::opening::{array_holding, shape_of_array};
use crate::mem::place::element_count;
use indexmap::IndexMap;
use sd_graph::{Container, ContainerKind};
use sd_list::NoMemory;
use sd_num::Width;
use std::alloc::Global;

impl Memory {
    /// What a run of a graph inside another begins with: zeros in its transients, and empty streams. Its arguments are
    /// views, and hold nothing here.
    pub fn of_run(
        alloc: Global,
        containers: &IndexMap<String, Container>,
    ) -> Result<Memory, NoMemory>
        ensures contents { IfOk result (λ memory. memory.contents ≡ run_memory (map named_container containers.now.entries)) }
        ensures shapes { IfOk result (λ memory. memory.shapes ≡ shapes_from (λ number kind. parts.is_of_run kind) 0 (map named_container containers.now.entries)) }
    {
        Ok(Memory {
            holdings: run_holdings(alloc, containers)?,
        })
    }

    /// What a point of a map with these private containers begins with. The other containers hold
    /// nothing here.
    pub fn of_scope(
        alloc: Global,
        containers: &IndexMap<String, Container>,
        private: &[u32],
    ) -> Result<Memory, NoMemory>
        ensures contents { IfOk result (λ memory. memory.contents ≡ private_memory (map named_container containers.now.entries) private.now) }
        ensures shapes { IfOk result (λ memory. memory.shapes ≡ shapes_from (λ number kind. has_number private.now number) 0 (map named_container containers.now.entries)) }
    {
        Ok(Memory {
            holdings: scope_holdings(alloc, containers, &[], private)?,
        })
    }

    /// What an element of a consume scope begins with: its container has the value taken from the
    /// stream, and its private ones begin as those of a point do.
    pub fn of_element(
        alloc: Global,
        containers: &IndexMap<String, Container>,
        element: u32,
        private: &[u32],
        value: i64,
    ) -> Result<Memory, NoMemory>
        ensures contents { IfOk result (λ memory. memory.contents ≡ changed_at element (λ old. one_element (container_at (map named_container containers.now.entries) element).width value) (private_memory (map named_container containers.now.entries) (element ∷ private.now))) }
        ensures shapes { IfOk result (λ memory. memory.shapes ≡ shapes_from (λ number kind. has_number (element ∷ private.now) number) 0 (map named_container containers.now.entries)) }
    {
        let holdings = scope_holdings(alloc, containers, &[element], private)?;
        let cells = Cells::one(alloc, own_width(containers, element), value)?;
        Ok(Memory {
            holdings: replaced(alloc, holdings, element, cells),
        })
    }
}

/// The width of one of the graph's containers.
fn own_width(containers: &IndexMap<String, Container>, container: u32) -> Width
    ensures { result ≡ (container_at (map named_container containers.now.entries) container).width }
{
    match containers.get_index(container as usize) {
        Some((_, container)) => container.width,
        None => Width::W64,
    }
}

/// Whether such a container is a stream.
fn is_stream(kind: ContainerKind) -> bool
    ensures { result ≡ parts.is_stream kind }
{
    match kind {
        ContainerKind::Argument | ContainerKind::Transient | ContainerKind::Private => false,
        ContainerKind::Stream | ContainerKind::PrivateStream => true,
    }
}

/// Whether such a container belongs to the runs of its graph.
fn is_of_run(kind: ContainerKind) -> bool
    ensures { result ≡ parts.is_of_run kind }
{
    match kind {
        ContainerKind::Transient | ContainerKind::Stream => true,
        ContainerKind::Argument | ContainerKind::Private | ContainerKind::PrivateStream => false,
    }
}

/// Whether a number is one of these.
fn is_one_of(numbers: &[u32], number: usize) -> bool
    ensures { result ≡ has_number numbers.now number }
{
    for own in numbers {
        if number == *own as usize {
            return true;
        }
    }
    false
}

/// Whether a number is one of either.
fn is_one_of_both(element: &[u32], private: &[u32], number: usize) -> bool
    ensures { result ≡ has_number (element.now ++ private.now) number }
{
    is_one_of(element, number) || is_one_of(private, number)
}

/// What a container begins with that the memory has, and one that it does not have.
fn begun(alloc: Global, container: &Container, has: bool) -> Result<Holding, NoMemory>
    ensures shape { IfOk result (λ holding. shape_held holding ≡ if has then shape_of container.now else []) }
    ensures contents { IfOk result (λ holding. contents_held holding ≡ if has then opening_contents container.now else absent) }
    ensures sized { IfOk result IsSized }
{
    if !has {
        return Ok(Holding::Array {
            shape: Vec::new(alloc),
            cells: Cells::none(alloc, Width::W64),
        });
    }
    if is_stream(container.kind) {
        return Ok(Holding::Stream {
            values: Values::none(alloc, container.width),
        });
    }
    let shape = shape_of_array(alloc, container)?;
    let count = element_count(shape.as_slice());
    let cells = Cells::zeros(alloc, container.width, count as usize)?;
    array_holding(shape, cells)
}

/// What each container begins with in a run of its graph.
fn run_holdings(
    alloc: Global,
    containers: &IndexMap<String, Container>,
) -> Result<Vec<Holding>, NoMemory>
    ensures shapes { IfOk result (λ holdings. map shape_held holdings.items ≡ shapes_from (λ number kind. parts.is_of_run kind) 0 (map named_container containers.now.entries)) }
    ensures contents { IfOk result (λ holdings. map contents_held holdings.items ≡ run_memory (map named_container containers.now.entries)) }
    ensures sized { IfOk result (λ holdings. AllByRecursion IsSized holdings.items) }
{
    let mut holdings = Vec::with_capacity(alloc, containers.len())?;
    for (_, container) in containers.iter() {
        let has = is_of_run(container.kind);
        holdings.push(begun(alloc, container, has)?)?;
    }
    Ok(holdings)
}

/// What each container begins with in a point or an element, which has these containers.
fn scope_holdings(
    alloc: Global,
    containers: &IndexMap<String, Container>,
    element: &[u32],
    private: &[u32],
) -> Result<Vec<Holding>, NoMemory>
    ensures shapes { IfOk result (λ holdings. map shape_held holdings.items ≡ shapes_from (λ number kind. has_number (element.now ++ private.now) number) 0 (map named_container containers.now.entries)) }
    ensures contents { IfOk result (λ holdings. map contents_held holdings.items ≡ private_memory (map named_container containers.now.entries) (element.now ++ private.now)) }
    ensures sized { IfOk result (λ holdings. AllByRecursion IsSized holdings.items) }
{
    let mut holdings = Vec::with_capacity(alloc, containers.len())?;
    for (_, container) in containers.iter() {
        let has = is_one_of_both(element, private, holdings.len());
        holdings.push(begun(alloc, container, has)?)?;
    }
    Ok(holdings)
}

/// The same, but the container of this number has these elements.
fn replaced(alloc: Global, holdings: Vec<Holding>, container: u32, cells: Cells) -> Vec<Holding>
    requires { AllByRecursion IsSized holdings.items }
    ensures shapes { map shape_held result.items ≡ map shape_held holdings.items }
    ensures contents { map contents_held result.items ≡ changed_at container (λ old. array_of cells) (map contents_held holdings.items) }
    ensures sized { AllByRecursion IsSized result.items }
{
    let mut holdings = holdings;
    if (container as usize) < holdings.len() {
        holdings[container as usize].hold(alloc, cells);
        return holdings;
    }
    holdings
}
