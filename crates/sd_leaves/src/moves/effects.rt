//! The effects of a tasklet, as things to do.
ghost use Rattle.std.specs.Prelude.{◌≡◌, ◌-◌, ◌^◌, ℕ, min, pos, map, IfOk};
ghost use Rattle.sd_range.specs.Points.{product};
ghost use Rattle.sd_graph.specs.PlainTree.{GraphTree};
ghost use Rattle.sd_graph.specs.TreeFold.{graph_tree, tasklet_tree};
ghost use Rattle.sd_graph.specs.Context.{link_extents};
ghost use Rattle.sd_graph.specs.Unfold.{cut, pending_through};
ghost use Rattle.sd_tasklet.specs.tasklet.Given.{given};
ghost use Rattle.sd_scope.specs.scope.Standing.{context_of};
ghost use Rattle.sd_scope.specs.declared.scope.base.Base.{Base as BaseNow};
ghost use Rattle.sd_leaves.specs.leaves.Done.{evaluation_of};
ghost use Rattle.sd_leaves.specs.leaves.Given.{pending_told, told_by};
ghost use Rattle.sd_leaves.specs.moves.Left.{told, all_told};

use crate::leaves::{dimensions_of, evaluated, inputs_of, is_stream, widened};
use crate::moves::todo::Todo;
use sd_graph::{FaultKind, Link, Sdfg, Tasklet};
use sd_list::{NoMemory, Sequence};
use sd_scope::{Base, Scope, connector_extents, link_cell, station};
use sd_tasklet::{Effect, Inputs};
use std::alloc::Global;

/// How many elements a connector of these extents has; from 2^128 on as many as one less.
fn element_count(extents: &[u128]) -> u128
    ensures { result ≡ min (product extents.now) (2 ^ 128 - 1) }
{
    let mut count = 1_u128;
    for extent in extents {
        count = count.saturating_mul(*extent);
    }
    count
}

/// How many of so many values are the elements of a connector of these extents.
fn elements_among(extents: &[u128], most: usize) -> usize
    ensures { result ≡ min (product extents.now) most }
{
    match usize::try_from(element_count(extents)) {
        Ok(count) => count.min(most),
        Err(_) => most,
    }
}

/// The same values once more.
fn copied(alloc: Global, values: &[i64]) -> Result<Sequence<i64>, NoMemory>
    ensures { IfOk result (λ copy. copy ≡ values.now) }
{
    Ok(Sequence::from(values.to_vec(alloc)?))
}

/// The values that were read, one connector after another, cut into those of each.
fn cut_values(
    alloc: Global,
    ins: &[Link],
    scope: &Scope,
    values: &[i64],
) -> Result<Sequence<Sequence<i64>>, NoMemory>
    ensures { IfOk result (λ read. (tree : GraphTree) (base : BaseNow) → read ≡ cut (map (λ link. product (link_extents (context_of tree base scope.now) link)) ins.now) values.now) }
{
    let mut read = Vec::with_capacity(alloc, ins.len())?;
    let mut rest = values;
    for link in ins {
        let extents = connector_extents(alloc, scope, link)?;
        let count = elements_among(extents.as_slice(), rest.len());
        let (first, others) = rest.split_at(count);
        read.push(copied(alloc, first)?)?;
        rest = others;
    }
    Ok(Sequence::from(read))
}

/// What is to do for an effect through a link.
fn todo_through(
    alloc: Global,
    link: &Link,
    at: &[i128],
    value: i64,
    graph: &Sdfg,
    base: &Base,
    scope: &Scope,
) -> Result<Todo, NoMemory>
    ensures { IfOk result (λ todo. (connector : ℕ) → told todo ≡ pending_through (context_of (graph_tree graph.now) base.now scope.now) link.now (record { connector = connector; at = at.now; value = value })) }
{
    let container = link.memlet.container;
    if is_stream(graph, container) {
        let station = station(base, scope, container)?;
        return Ok(Todo::Push { station, value });
    }
    let to = link_cell(alloc, graph, base, scope, link, at)?;
    Ok(Todo::Write {
        value,
        to,
        by: link.memlet.resolution,
    })
}

/// What is to do for an effect: outputs are numbered behind the inputs, and through another number it goes nowhere.
fn todo_of(
    alloc: Global,
    effect: Effect,
    inputs: &Inputs,
    ins: &[Link],
    outs: &[Link],
    graph: &Sdfg,
    base: &Base,
    scope: &Scope,
) -> Result<Todo, NoMemory>
    ensures { IfOk result (λ todo. told todo ≡ pending_told (context_of (graph_tree graph.now) base.now scope.now) (given inputs.now) ins.now outs.now effect) }
{
    let nowhere = Todo::Write {
        value: effect.value,
        to: None,
        by: None,
    };
    let connector = effect.connector as usize;
    if connector < ins.len() {
        return Ok(nowhere);
    }
    let Some(link) = outs.get(connector - ins.len()) else {
        return Ok(nowhere);
    };
    let index = widened(effect.at);
    let dimensions = dimensions_of(inputs, connector).min(index.len());
    todo_through(
        alloc,
        link,
        &index[..dimensions],
        effect.value,
        graph,
        base,
        scope,
    )
}

/// What is to do for effects, one after another.
fn todos_of(
    alloc: Global,
    effects: &[Effect],
    inputs: &Inputs,
    ins: &[Link],
    outs: &[Link],
    graph: &Sdfg,
    base: &Base,
    scope: &Scope,
) -> Result<Vec<Todo>, NoMemory>
    ensures { IfOk result (λ todos. all_told todos.items ≡ map (pending_told (context_of (graph_tree graph.now) base.now scope.now) (given inputs.now) ins.now outs.now) effects.now) }
{
    let mut todos = Vec::with_capacity(alloc, effects.len())?;
    for effect in effects {
        todos.push(todo_of(alloc, *effect, inputs, ins, outs, graph, base, scope)?)?;
    }
    Ok(todos)
}

/// What an instance has to do, or its fault, where it has read these values.
pub(crate) fn effects_of(
    alloc: Global,
    code: &Tasklet,
    ins: &[Link],
    outs: &[Link],
    graph: &Sdfg,
    base: &Base,
    scope: &Scope,
    values: &[i64],
) -> Result<Result<Vec<Todo>, FaultKind>, NoMemory>
    ensures { IfOk result (λ answer. evaluation_of (context_of (graph_tree graph.now) base.now scope.now) (tasklet_tree code.now) ins.now outs.now values.now ≡ told_by (λ todos. all_told todos.items) answer) }
{
    let read = cut_values(alloc, ins, scope, values)?;
    let inputs = inputs_of(alloc, code, ins, outs, scope, read)?;
    match evaluated(alloc, code, &inputs)? {
        Ok(effects) => {
            let list = effects.list.as_slice();
            let todos = todos_of(alloc, list, &inputs, ins, outs, graph, base, scope)?;
            Ok(Ok(todos))
        }
        Err(kind) => Ok(Err(kind)),
    }
}
