//! Windows where a scope stands.
ghost use Rattle.std.specs.Prelude.{◌≡◌, ◌+◌, ◌<◌, pos, length, replicate, slice_index_or, IfOk, IsTrue};
ghost use Rattle.std.specs.Option.{MatchOption};
ghost use Rattle.std.specs.Bool.{⊤};
ghost use Rattle.std.specs.List.{AllZip};
ghost use Rattle.sd_graph.specs.TreeFold.{graph_tree};
ghost use Rattle.sd_scope.specs.scope.Standing.{context_of};
ghost use Rattle.sd_row.specs.view.Places.{IsLast, unit_place, LeadsTo, HasLast, AreStrides};
ghost use Rattle.sd_row.specs.view.View.{IsWindow, IsInWords};

use crate::instance::{narrowed, track_to};
use crate::view::window::Window;
use sd_graph::{Link, Sdfg};
use sd_list::NoMemory;
use sd_scope::{Base, Scope, connector_extents, link_cell};
use std::alloc::Global;

/// The first place of so many dimensions.
fn first_place(alloc: Global, count: usize) -> Result<Vec<i128>, NoMemory>
    ensures { IfOk result (λ at. at.items ≡ replicate count (pos 0)) }
{
    Ok(vec![in alloc; 0i128; count]?)
}

/// The next one to it in a dimension.
fn next_place(alloc: Global, count: usize, dim: usize) -> Result<Vec<i128>, NoMemory>
    requires { dim < count }
    ensures { IfOk result (λ at. at.items ≡ unit_place count dim) }
{
    let mut at = first_place(alloc, count)?;
    at[dim] = 1;
    Ok(at)
}

/// The last place; `None` where there is none.
fn last_place(alloc: Global, extents: &[u64]) -> Result<Option<Vec<i128>>, NoMemory>
    ensures { IfOk result (λ last. MatchOption last ⊤ (λ last. AllZip IsLast extents.now last.items)) }
{
    let mut at = Vec::with_capacity(alloc, extents.len())?;
    for extent in extents {
        let Some(last) = extent.checked_sub(1) else {
            return Ok(None);
        };
        at.push(i128::from(last))?;
    }
    Ok(Some(at))
}

/// The number of the element to which a place leads; `None` where it is outside.
fn element_at(
    alloc: Global,
    link: &Link,
    at: &[i128],
    graph: &Sdfg,
    base: &Base,
    scope: &Scope,
) -> Result<Option<u64>, NoMemory>
    ensures { IfOk result (λ element. MatchOption element ⊤ (LeadsTo (context_of (graph_tree graph.now) base.now scope.now) link.now at.now)) }
{
    match link_cell(alloc, graph, base, scope, link, at)? {
        Some(cell) => Ok(Some(cell.element)),
        None => Ok(None),
    }
}

/// Whether the last place is inside.
fn has_last(
    alloc: Global,
    link: &Link,
    extents: &[u64],
    graph: &Sdfg,
    base: &Base,
    scope: &Scope,
) -> Result<bool, NoMemory>
    ensures { IfOk result (λ inside. IsTrue inside → HasLast (context_of (graph_tree graph.now) base.now scope.now) link.now extents.now) }
{
    let Some(last) = last_place(alloc, extents)? else {
        return Ok(false);
    };
    match element_at(alloc, link, last.as_slice(), graph, base, scope)? {
        Some(_element) => Ok(true),
        None => Ok(false),
    }
}

/// How far the next place in a dimension is from the first one, 0 where there is no other place in it; `None` where it is outside, or
/// its element stands before.
fn stride_at(
    alloc: Global,
    link: &Link,
    extents: &[u64],
    dim: usize,
    first: u64,
    graph: &Sdfg,
    base: &Base,
    scope: &Scope,
) -> Result<Option<u64>, NoMemory>
    requires { dim < length extents.now }
    ensures { IfOk result (λ stride. MatchOption stride ⊤ (λ stride. 1 < slice_index_or extents.now dim 0 → LeadsTo (context_of (graph_tree graph.now) base.now scope.now) link.now (unit_place (length extents.now) dim) (first + stride))) }
{
    if extents[dim] < 2 {
        return Ok(Some(0));
    }
    let at = next_place(alloc, extents.len(), dim)?;
    match element_at(alloc, link, at.as_slice(), graph, base, scope)? {
        Some(element) => Ok(element.checked_sub(first)),
        None => Ok(None),
    }
}

/// The strides of the dimensions.
fn strides_at(
    alloc: Global,
    link: &Link,
    extents: &[u64],
    first: u64,
    graph: &Sdfg,
    base: &Base,
    scope: &Scope,
) -> Result<Option<Vec<u64>>, NoMemory>
    ensures many { IfOk result (λ strides. MatchOption strides ⊤ (λ strides. length strides.items ≡ length extents.now)) }
    ensures are { IfOk result (λ strides. MatchOption strides ⊤ (λ strides. AreStrides (context_of (graph_tree graph.now) base.now scope.now) link.now extents.now strides.items first)) }
{
    let mut strides = Vec::with_capacity(alloc, extents.len())?;
    for dim in 0..extents.len() {
        let Some(stride) = stride_at(alloc, link, extents, dim, first, graph, base, scope)? else {
            return Ok(None);
        };
        strides.push(stride)?;
    }
    Ok(Some(strides))
}

/// The window of a link; `None` where it has no elements, or one of them is outside.
pub(crate) fn window_at(
    alloc: Global,
    link: &Link,
    graph: &Sdfg,
    base: &Base,
    scope: &Scope,
) -> Result<Option<Window>, NoMemory>
    ensures window { IfOk result (λ window. MatchOption window ⊤ (IsWindow 0 (context_of (graph_tree graph.now) base.now scope.now) link.now)) }
    ensures words { IfOk result (λ window. MatchOption window ⊤ (IsInWords 0)) }
{
    let extents = connector_extents(alloc, scope, link)?;
    let Some(extents) = narrowed(alloc, extents.as_slice())? else {
        return Ok(None);
    };
    if !has_last(alloc, link, extents.as_slice(), graph, base, scope)? {
        return Ok(None);
    }
    let start = first_place(alloc, extents.len())?;
    let Some(first) = track_to(alloc, link, start.as_slice(), graph, base, scope)? else {
        return Ok(None);
    };
    let element = first.cell(0).element;
    let strides = strides_at(alloc, link, extents.as_slice(), element, graph, base, scope)?;
    match strides {
        Some(strides) => Ok(Some(Window {
            first,
            extents,
            strides,
        })),
        None => Ok(None),
    }
}
