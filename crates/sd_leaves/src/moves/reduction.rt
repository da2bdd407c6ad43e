//! What a reduction has to do.
ghost use Rattle.std.specs.Prelude.{◌≡◌, ◌++◌, map, IfOk, OnOk};
ghost use Rattle.sd_range.specs.Subset.{whole};
ghost use Rattle.sd_work.specs.Leaf.{identities, reduction_of};
ghost use Rattle.sd_graph.specs.TreeFold.{graph_tree};
ghost use Rattle.sd_graph.specs.Context.{link_elements, link_extents};
ghost use Rattle.sd_graph.specs.Unfold.{reduction_pairs};
ghost use Rattle.sd_scope.specs.scope.Standing.{context_of};
ghost use Rattle.sd_leaves.specs.leaves.Cells.{writing};
ghost use Rattle.sd_leaves.specs.leaves.Done.{resolving};
ghost use Rattle.sd_leaves.specs.moves.Left.{all_told, doing_left};

use crate::leaves::{places_of, put_target_place};
use crate::moves::doing::Doing;
use crate::moves::todo::Todo;
use sd_graph::{Link, Sdfg};
use sd_list::NoMemory;
use sd_mem::Address;
use sd_num::Resolution;
use sd_scope::{Base, Scope, connector_extents, link_cell, link_cells};
use std::alloc::Global;

/// A value written to each of the elements.
fn writes(alloc: Global, value: i64, targets: &[Option<Address>]) -> Result<Vec<Todo>, NoMemory>
    ensures { IfOk result (λ todos. all_told todos.items ≡ map (writing value) targets.now) }
{
    let mut todos = Vec::with_capacity(alloc, targets.len())?;
    for target in targets {
        todos.push(Todo::Write {
            value,
            to: *target,
            by: None,
        })?;
    }
    Ok(todos)
}

/// The identity written to each element of the target, where there is an identity.
fn identity_writes(
    alloc: Global,
    identity: Option<i64>,
    to: &Link,
    graph: &Sdfg,
    base: &Base,
    scope: &Scope,
) -> Result<Vec<Todo>, NoMemory>
    ensures { IfOk result (λ todos. all_told todos.items ≡ identities identity (link_elements (context_of (graph_tree graph.now) base.now scope.now) to.now)) }
{
    let Some(value) = identity else {
        return Ok(Vec::new(alloc));
    };
    let targets = link_cells(alloc, graph, base, scope, to)?;
    writes(alloc, value, targets.as_slice())
}

/// Each element of the source resolved into its one of the target.
fn push_resolutions(
    alloc: Global,
    resolution: Resolution,
    axis: Option<u32>,
    from: &Link,
    to: &Link,
    graph: &Sdfg,
    base: &Base,
    scope: &Scope,
    todos: &mut Vec<Todo>,
) -> Result<(), NoMemory>
    ensures { OnOk result (all_told todos.new.items ≡ all_told todos.old.items ++ map (resolving (context_of (graph_tree graph.now) base.now scope.now) resolution axis from.now to.now) (whole (link_extents (context_of (graph_tree graph.now) base.now scope.now) from.now))) }
{
    let extents = connector_extents(alloc, scope, from)?;
    let mut places = places_of(alloc, extents.as_slice())?;
    let mut place = Vec::with_capacity(alloc, extents.len())?;
    'places: while places.next() {
        let at = places.at();
        put_target_place(axis, at, &mut place)?;
        let source = link_cell(alloc, graph, base, scope, from, at)?;
        let target = link_cell(alloc, graph, base, scope, to, place.as_slice())?;
        todos.push(Todo::Transfer {
            from: source,
            to: target,
            by: Some(resolution),
        })?;
    }
    Ok(())
}

impl Doing {
    /// A reduction that begins, where a scope stands: the identity, where there is one, is written to each element of `to`, and
    /// then each element of `from`, in row order, is resolved into its one of `to`.
    pub fn reduction(
        alloc: Global,
        resolution: Resolution,
        axis: Option<u32>,
        identity: Option<i64>,
        from: &Link,
        to: &Link,
        graph: &Sdfg,
        base: &Base,
        scope: &Scope,
    ) -> Result<Doing, NoMemory>
        ensures { IfOk result (λ reduction. doing_left reduction ≡ reduction_of resolution identity (link_elements (context_of (graph_tree graph.now) base.now scope.now) to.now) (reduction_pairs (context_of (graph_tree graph.now) base.now scope.now) axis from.now to.now)) }
    {
        let mut todo = identity_writes(alloc, identity, to, graph, base, scope)?;
        push_resolutions(
            alloc, resolution, axis, from, to, graph, base, scope, &mut todo,
        )?;
        Ok(Doing { todo, done: 0 })
    }
}
