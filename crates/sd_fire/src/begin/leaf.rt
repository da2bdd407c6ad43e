//! Items without a body of their own that begins with them.
ghost use Rattle.std.specs.Prelude.{◌≡◌, ℕ, List, true, IfOk};
ghost use Rattle.sd_work.specs.Memory.{Memories};
ghost use Rattle.sd_graph.specs.PlainTree.{TaskletTree, ItemTrees, GraphTree, task, consume_scope, reduction, copy};
ghost use Rattle.sd_graph.specs.TreeFold.{graph_tree};
ghost use Rattle.sd_graph.specs.declared.link.Link.{Link as LinkNow};
ghost use Rattle.sd_left.specs.left.Tells.{tells};
ghost use Rattle.sd_left.specs.left.Waits.{is_counted};
ghost use Rattle.sd_scope.specs.scope.Standing.{context_of};
ghost use Rattle.sd_fire.specs.begin.Begun.{IsItemBegun};

use sd_graph::{Link, Sdfg};
use sd_leaves::{Doing, Instance};
use sd_left::Left;
use sd_list::NoMemory;
use sd_mem::Machine;
use sd_num::Resolution;
use sd_scope::{Base, Scope, station};
use std::alloc::Global;

/// A tasklet with these inputs.
pub(crate) fn begin_task(
    alloc: Global,
    ins: &[Link],
    graph: &Sdfg,
    base: &Base,
    scope: &Scope,
) -> Result<Left, NoMemory>
    ensures begun { IfOk result (λ left. (code : TaskletTree) (outs : List LinkNow) (line : ℕ) → IsItemBegun (task code ins.now outs) line (context_of (graph_tree graph.now) base.now scope.now) left) }
    ensures counted { IfOk result (λ left. (memories : Memories) → is_counted left memories ≡ true) }
    ensures right { IfOk result (λ left. (tells left).is_right ≡ true) }
{
    let instance = Instance::new(alloc, ins, graph, base, scope)?;
    Ok(Left::Instance(instance))
}

/// A copy.
pub(crate) fn begin_copy(
    alloc: Global,
    from: &Link,
    to: &Link,
    graph: &Sdfg,
    base: &Base,
    scope: &Scope,
) -> Result<Left, NoMemory>
    ensures begun { IfOk result (λ left. (line : ℕ) → IsItemBegun (copy from.now to.now) line (context_of (graph_tree graph.now) base.now scope.now) left) }
    ensures counted { IfOk result (λ left. (memories : Memories) → is_counted left memories ≡ true) }
    ensures right { IfOk result (λ left. (tells left).is_right ≡ true) }
{
    let doing = Doing::copy(alloc, from, to, graph, base, scope)?;
    Ok(Left::Doing(doing))
}

/// A reduction.
pub(crate) fn begin_reduction(
    alloc: Global,
    resolution: Resolution,
    axis: Option<u32>,
    identity: Option<i64>,
    from: &Link,
    to: &Link,
    graph: &Sdfg,
    base: &Base,
    scope: &Scope,
) -> Result<Left, NoMemory>
    ensures begun { IfOk result (λ left. (line : ℕ) → IsItemBegun (reduction resolution axis identity from.now to.now) line (context_of (graph_tree graph.now) base.now scope.now) left) }
    ensures counted { IfOk result (λ left. (memories : Memories) → is_counted left memories ≡ true) }
    ensures right { IfOk result (λ left. (tells left).is_right ≡ true) }
{
    let doing = Doing::reduction(
        alloc, resolution, axis, identity, from, to, graph, base, scope,
    )?;
    Ok(Left::Doing(doing))
}

/// A consume scope over this stream: no element is in work.
pub(crate) fn begin_pool(
    alloc: Global,
    stream: u32,
    base: &Base,
    scope: &Scope,
    machine: &Machine,
) -> Result<Left, NoMemory>
    ensures begun { IfOk result (λ left. (tree : GraphTree) (element line : ℕ) (private : List ℕ) (body : ItemTrees) → IsItemBegun (consume_scope stream element private body) line (context_of tree base.now scope.now) left) }
    ensures counted { IfOk result (λ left. is_counted left machine.now.memories ≡ true) }
    ensures right { IfOk result (λ left. (tells left).is_right ≡ true) }
{
    let from = station(base, scope, stream)?;
    let waiting = machine.waiting(from);
    Left::pool(alloc, from, waiting)
}
