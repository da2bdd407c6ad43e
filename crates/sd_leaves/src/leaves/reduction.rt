ghost use Rattle.std.specs.Prelude.{◌≡◌, pos, ◌-ℤ◌, [], map, Some, IfOk, OnOk};
ghost use Rattle.sd_range.specs.Range.{range_values, IsRange, IsEvaluableRange, counted_from};
ghost use Rattle.sd_range.specs.Subset.{whole};
ghost use Rattle.sd_work.specs.Leaf.{identities};
ghost use Rattle.sd_graph.specs.PlainTree.{reduction};
ghost use Rattle.sd_graph.specs.TreeFold.{graph_tree};
ghost use Rattle.sd_graph.specs.Context.{link_elements, link_extents};
ghost use Rattle.sd_graph.specs.Unfold.{target_place};
ghost use Rattle.sd_mem.specs.machine.ComesTo.{IsEnd};
ghost use Rattle.sd_mem.specs.machine.Coming.{kind_coming};
ghost use Rattle.sd_scope.specs.scope.Standing.{context_of};
ghost use Rattle.sd_leaves.specs.leaves.Done.{IsDone, performing, reducing, resolving};

use crate::leaves::changes::{transfer, write};
use crate::leaves::ending::end_of;
use sd_graph::{FaultKind, Link, Sdfg};
use sd_list::{NoMemory, Sequence};
use sd_mem::{End, Machine};
use sd_num::Resolution;
use sd_range::{Affine, Env, Points, Range};
use sd_scope::{Base, Indices, Scope, cell_at, connector_extents, link_cell};
use std::alloc::Global;

/// Resolves each element of `from`, in row order, into its one of `to`: without the number on the axis, or the first one where
/// there is no axis. Where there is an identity, it is written to each element of `to` before.
pub fn run_reduction(
    alloc: Global,
    resolution: Resolution,
    axis: Option<u32>,
    identity: Option<i64>,
    from: &Link,
    to: &Link,
    line: u32,
    graph: &Sdfg,
    base: &Base,
    scope: &Scope,
    machine: &mut Machine,
) -> Result<End, NoMemory>
    ensures { IfOk result (λ end. IsEnd (kind_coming (reduction resolution axis identity from.now to.now) line (context_of (graph_tree graph.now) base.now scope.now) machine.old) machine.old end machine.new) }
{
    let fault = reduce(
        alloc, resolution, axis, identity, from, to, graph, base, scope, machine,
    )?;
    end_of(alloc, fault, graph, base, scope, line)
}

/// Writes the identity and resolves the elements.
fn reduce(
    alloc: Global,
    resolution: Resolution,
    axis: Option<u32>,
    identity: Option<i64>,
    from: &Link,
    to: &Link,
    graph: &Sdfg,
    base: &Base,
    scope: &Scope,
    machine: &mut Machine,
) -> Result<Option<FaultKind>, NoMemory>
    ensures { IfOk result (λ fault. IsDone (performing (reducing (context_of (graph_tree graph.now) base.now scope.now) resolution axis identity from.now to.now)) machine.old fault machine.new) }
{
    match write_identity(alloc, identity, to, graph, base, scope, machine)? {
        None => resolve_all(
            alloc, resolution, axis, from, to, graph, base, scope, machine,
        ),
        Some(kind) => Ok(Some(kind)),
    }
}

/// Writes the identity, if there is one, to each element of the target.
fn write_identity(
    alloc: Global,
    identity: Option<i64>,
    to: &Link,
    graph: &Sdfg,
    base: &Base,
    scope: &Scope,
    machine: &mut Machine,
) -> Result<Option<FaultKind>, NoMemory>
    ensures { IfOk result (λ fault. IsDone (performing (identities identity (link_elements (context_of (graph_tree graph.now) base.now scope.now) to.now))) machine.old fault machine.new) }
{
    let Some(value) = identity else {
        return Ok(None);
    };
    write_all(alloc, value, to, graph, base, scope, machine)
}

/// Writes a value to each element of a link, one after another.
fn write_all(
    alloc: Global,
    value: i64,
    to: &Link,
    graph: &Sdfg,
    base: &Base,
    scope: &Scope,
    machine: &mut Machine,
) -> Result<Option<FaultKind>, NoMemory>
    ensures { IfOk result (λ fault. IsDone (performing (identities (Some value) (link_elements (context_of (graph_tree graph.now) base.now scope.now) to.now))) machine.old fault machine.new) }
{
    let mut indices = Indices::of(alloc, scope, to)?;
    'indices: while indices.next() {
        let target = cell_at(alloc, graph, base, scope, to.memlet.container, indices.at())?;
        match write(value, target, None, machine) {
            None => {}
            Some(kind) => return Ok(Some(kind)),
        }
    }
    Ok(None)
}

/// Resolves elements into their targets, one after another.
fn resolve_all(
    alloc: Global,
    resolution: Resolution,
    axis: Option<u32>,
    from: &Link,
    to: &Link,
    graph: &Sdfg,
    base: &Base,
    scope: &Scope,
    machine: &mut Machine,
) -> Result<Option<FaultKind>, NoMemory>
    ensures { IfOk result (λ fault. IsDone (performing (map (resolving (context_of (graph_tree graph.now) base.now scope.now) resolution axis from.now to.now) (whole (link_extents (context_of (graph_tree graph.now) base.now scope.now) from.now)))) machine.old fault machine.new) }
{
    let extents = connector_extents(alloc, scope, from)?;
    let mut places = places_of(alloc, extents.as_slice())?;
    let mut place = Vec::with_capacity(alloc, extents.len())?;
    'places: while places.next() {
        let at = places.at();
        put_target_place(axis, at, &mut place)?;
        let source = link_cell(alloc, graph, base, scope, from, at)?;
        let target = link_cell(alloc, graph, base, scope, to, place.as_slice())?;
        match transfer(source, target, Some(resolution), machine) {
            None => {}
            Some(kind) => return Ok(Some(kind)),
        }
    }
    Ok(None)
}

/// Puts into `place` the place in a reduction's target for a place in its source.
pub fn put_target_place(
    axis: Option<u32>,
    at: &[i128],
    place: &mut Vec<i128>,
) -> Result<(), NoMemory>
    ensures { OnOk result (place.new.items ≡ target_place axis at.now) }
{
    place.clear();
    let Some(axis) = axis else {
        return Ok(());
    };
    let before = (axis as usize).min(at.len());
    let behind = (axis as usize + 1).min(at.len());
    place.extend_from_slice(&at[..before])?;
    place.extend_from_slice(&at[behind..])?;
    Ok(())
}

/// A way through the places of a connector, in row order.
pub fn places_of(alloc: Global, extents: &[u128]) -> Result<Points, NoMemory>
    ensures { IfOk result (λ places. places.left ≡ whole extents.now) }
{
    let mut ranges = Vec::with_capacity(alloc, extents.len())?;
    for extent in extents {
        ranges.push(numbers_below(alloc, *extent)?)?;
    }
    let values = Env {
        values: Sequence::new(alloc),
    };
    Points::new(alloc, ranges.as_slice(), &values)
}

/// The numbers of a dimension: from 0 to its extent less one.
fn numbers_below(alloc: Global, extent: u128) -> Result<Range, NoMemory>
    ensures values { IfOk result (λ range. range_values [] range ≡ counted_from (pos 0) (pos 1) extent) }
    ensures range { IfOk result IsRange }
    ensures evaluable { IfOk result (IsEvaluableRange []) }
{
    let last = last_below(extent)?;
    let mut ends = Sequence::new(alloc);
    ends.push(Affine::constant(alloc, last))?;
    Ok(Range {
        begin: Affine::constant(alloc, 0),
        ends,
        step: 1,
    })
}

/// The last number below an extent.
fn last_below(extent: u128) -> Result<i128, NoMemory>
    ensures { IfOk result (λ last. last ≡ pos extent -ℤ pos 1) }
{
    let extent = i128::try_from(extent).map_err(|_| NoMemory)?;
    Ok(extent - 1)
}
