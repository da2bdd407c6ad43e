//! The memories that a graph begins with.
ghost use Rattle.std.specs.Prelude.{◌≡◌, ℕ, ◌<◌, [], map, slice_index_or, IfOk};
ghost use Rattle.std.specs.List.{AllByRecursion};
ghost use Rattle.sd_mem.specs.mem.Cells.{array_of};
ghost use Rattle.sd_graph.specs.ContainerParts.{extents_of};
ghost use Rattle.sd_graph.specs.TreeFold.{graph_tree, named_container};
ghost use Rattle.sd_graph.specs.Unfold.{opening_of, opening_from};
ghost use Rattle.sd_mem.specs.mem.GraphContents.{shape_of, shapes_of, zero_contents, zeros_of, opened_with};
ghost use Rattle.sd_mem.specs.mem.Holding.{shape_held, contents_held, IsSized};

use crate::mem::cells::{Cells, Values};
use crate::mem::holding::Holding;
use crate::mem::memory::Memory;
use crate::mem::place::element_count;
use indexmap::IndexMap;
use sd_graph::{Bound, Container, ContainerKind};
use sd_list::{NoMemory, Sequence};
use sd_num::Width;
use std::alloc::Global;

impl Memory {
    /// Zeros in each array of the graph, its arguments too, and empty streams.
    pub fn zeros(alloc: Global, bound: &Bound) -> Result<Memory, NoMemory>
        ensures { IfOk result (λ memory. memory ≡ zeros_of (graph_tree bound.now.graph)) }
    {
        Ok(Memory {
            holdings: zero_holdings(alloc, &bound.graph.containers)?,
        })
    }

    /// What a run of the graph opens with: the arguments with these elements, in row order, one
    /// list for each; zeros in its transients; empty streams. The lists are moved in; elements of 32 bits are wrapped.
    pub fn opening(
        alloc: Global,
        bound: &Bound,
        given: Vec<Sequence<i64>>,
    ) -> Result<Memory, NoMemory>
        ensures { IfOk result (λ memory. memory ≡ opened_with (graph_tree bound.now.graph) given.items) }
    {
        Ok(Memory {
            holdings: opening_holdings(alloc, &bound.graph.containers, given)?,
        })
    }
}

/// The extents of a container that is an array.
pub(crate) fn shape_of_array(alloc: Global, container: &Container) -> Result<Vec<u64>, NoMemory>
    ensures { IfOk result (λ shape. shape.items ≡ extents_of container.now) }
{
    let mut shape = Vec::with_capacity(alloc, container.extents.len())?;
    for extent in container.extents.as_slice() {
        let extent = u64::try_from(extent.constant.unsigned_abs()).map_err(|_| NoMemory)?;
        shape.push(extent)?;
    }
    Ok(shape)
}

/// An array of this shape with these elements; `NoMemory` where its elements have no numbers.
pub(crate) fn array_holding(shape: Vec<u64>, cells: Cells) -> Result<Holding, NoMemory>
    ensures shape { IfOk result (λ holding. shape_held holding ≡ shape.items) }
    ensures contents { IfOk result (λ holding. contents_held holding ≡ array_of cells) }
    ensures sized { IfOk result IsSized }
{
    if element_count(shape.as_slice()) == u64::MAX {
        return Err(NoMemory);
    }
    Ok(Holding::Array { shape, cells })
}

/// What a container begins with: zeros, or nothing where it is a stream or private.
fn zero_holding(alloc: Global, container: &Container) -> Result<Holding, NoMemory>
    ensures shape { IfOk result (λ holding. shape_held holding ≡ shape_of container.now) }
    ensures contents { IfOk result (λ holding. contents_held holding ≡ zero_contents container.now) }
    ensures sized { IfOk result IsSized }
{
    match container.kind {
        ContainerKind::Argument | ContainerKind::Transient => {
            let shape = shape_of_array(alloc, container)?;
            let count = element_count(shape.as_slice());
            let cells = Cells::zeros(alloc, container.width, count as usize)?;
            array_holding(shape, cells)
        }
        ContainerKind::Private => {
            let shape = shape_of_array(alloc, container)?;
            array_holding(shape, Cells::none(alloc, Width::W64))
        }
        ContainerKind::PrivateStream => {
            array_holding(Vec::new(alloc), Cells::none(alloc, Width::W64))
        }
        ContainerKind::Stream => Ok(Holding::Stream {
            values: Values::none(alloc, container.width),
        }),
    }
}

/// What each container begins with.
fn zero_holdings(
    alloc: Global,
    containers: &IndexMap<String, Container>,
) -> Result<Vec<Holding>, NoMemory>
    ensures shapes { IfOk result (λ holdings. map shape_held holdings.items ≡ shapes_of (map named_container containers.now.entries)) }
    ensures contents { IfOk result (λ holdings. map contents_held holdings.items ≡ map (λ entry. zero_contents entry.1) (map named_container containers.now.entries)) }
    ensures sized { IfOk result (λ holdings. AllByRecursion IsSized holdings.items) }
{
    let mut holdings = Vec::with_capacity(alloc, containers.len())?;
    for (_, container) in containers.iter() {
        holdings.push(zero_holding(alloc, container)?)?;
    }
    Ok(holdings)
}

/// What a container opens with, an argument with these elements.
fn opening_holding(
    alloc: Global,
    container: &Container,
    given: &mut [Sequence<i64>],
    number: usize,
) -> Result<Holding, NoMemory>
    ensures shape { IfOk result (λ holding. shape_held holding ≡ shape_of container.now) }
    ensures contents { IfOk result (λ holding. contents_held holding ≡ opening_of container.now (slice_index_or given.old number [])) }
    ensures sized { IfOk result IsSized }
    ensures others { (other : ℕ) → number < other → slice_index_or given.new other [] ≡ slice_index_or given.old other [] }
{
    match container.kind {
        ContainerKind::Argument => {
            let shape = shape_of_array(alloc, container)?;
            let values = taken(alloc, given, number);
            array_holding(shape, Cells::given(alloc, container.width, values)?)
        }
        _ => zero_holding(alloc, container),
    }
}

/// The list of this number, with an empty one in its place; an empty one where there is none.
fn taken(alloc: Global, given: &mut [Sequence<i64>], number: usize) -> Vec<i64>
    ensures taken { result.items ≡ slice_index_or given.old number [] }
    ensures others { (other : ℕ) → number < other → slice_index_or given.new other [] ≡ slice_index_or given.old other [] }
{
    if number < given.len() {
        std::mem::replace(&mut given[number], Sequence::new(alloc)).into_vec()
    } else {
        Vec::new(alloc)
    }
}

/// What each container opens with, the arguments with these elements.
fn opening_holdings(
    alloc: Global,
    containers: &IndexMap<String, Container>,
    given: Vec<Sequence<i64>>,
) -> Result<Vec<Holding>, NoMemory>
    ensures shapes { IfOk result (λ holdings. map shape_held holdings.items ≡ shapes_of (map named_container containers.now.entries)) }
    ensures contents { IfOk result (λ holdings. map contents_held holdings.items ≡ opening_from given.items 0 (map named_container containers.now.entries)) }
    ensures sized { IfOk result (λ holdings. AllByRecursion IsSized holdings.items) }
{
    let mut given = given;
    let mut holdings = Vec::with_capacity(alloc, containers.len())?;
    for (_, container) in containers.iter() {
        let number = holdings.len();
        let holding = opening_holding(alloc, container, given.as_mut_slice(), number)?;
        holdings.push(holding)?;
    }
    Ok(holdings)
}
