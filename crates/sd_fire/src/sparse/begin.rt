//! Maps of tasklets, and points of them, that begin.
ghost use Rattle.std.specs.Prelude.{◌≡◌, ℕ, List, length, map, true, Some, IfOk, Option};
ghost use Rattle.sd_range.specs.declared.range.Range.{Range as RangeNow};
ghost use Rattle.sd_range.specs.Points.{points, ranges_of};
ghost use Rattle.sd_work.specs.Memory.{Memories};
ghost use Rattle.sd_graph.specs.PlainTree.{map_scope};
ghost use Rattle.sd_graph.specs.TreeFold.{graph_tree, item_trees};
ghost use Rattle.sd_scope.specs.scope.Standing.{context_of};
ghost use Rattle.sd_scope.specs.declared.scope.base.Base.{Base as BaseNow};
ghost use Rattle.sd_scope.specs.declared.scope.scope.Scope.{Scope as ScopeNow};
ghost use Rattle.sd_left.specs.tree.Begun.{AreBegun};
ghost use Rattle.sd_left.specs.left.Tells.{tells};
ghost use Rattle.sd_left.specs.left.Waits.{is_counted};
ghost use Rattle.sd_left.specs.sparse.Terms.{task_left};
ghost use Rattle.sd_fire.specs.begin.Begun.{IsItemBegun};
ghost use Rattle.sd_fire.specs.sparse.Tasklets.{are_tasks};

use sd_graph::{Item, ItemKind, Sdfg};
use sd_leaves::Instance;
use sd_left::{Left, Stretch, Tasks};
use sd_list::NoMemory;
use sd_order::order_of;
use sd_scope::{Base, Scope};
use std::alloc::Global;

/// Whether each item of a list is a tasklet.
pub(crate) fn are_tasks(items: &[Item]) -> bool
    ensures { result ≡ are_tasks (item_trees items.now) }
{
    for item in items {
        if !matches!(&item.kind, ItemKind::Task { .. }) {
            return false;
        }
    }
    true
}

/// A map of these tasklets that has so many points, of which none has begun.
pub(crate) fn begin_sparse(
    alloc: Global,
    body: &[Item],
    sequential: bool,
    count: usize,
    graph: &Sdfg,
) -> Result<Left, NoMemory>
    requires tasks { are_tasks (item_trees body.now) ≡ true }
    ensures begun { IfOk result (λ left. (base : BaseNow) (scope : ScopeNow) (params : List (ℕ × RangeNow)) (private : List ℕ) (line : ℕ) → count ≡ length (points (ranges_of params) scope.values.values) → IsItemBegun (map_scope sequential params private (item_trees body.now)) line (context_of (graph_tree graph.now) base scope) left) }
    ensures counted { IfOk result (λ left. (memories : Memories) → is_counted left memories ≡ true) }
    ensures right { IfOk result (λ left. (tells left).is_right ≡ true) }
{
    let order = order_of(alloc, body, &graph.containers)?;
    Ok(Left::Sparse {
        sequential,
        tasks: Tasks::of(order, body.len()),
        points: Stretch::Fresh(count),
    })
}

/// The tasklets of a list, which begin where a scope stands.
pub(crate) fn begin_tasks(
    alloc: Global,
    items: &[Item],
    graph: &Sdfg,
    base: &Base,
    scope: &Scope,
) -> Result<Vec<Instance>, NoMemory>
    ensures tasks { IfOk result (λ begun. are_tasks (item_trees items.now) ≡ true) }
    ensures begun { IfOk result (λ begun. AreBegun (map (λ instance. task_left (Some instance)) begun.items) (item_trees items.now) (context_of (graph_tree graph.now) base.now scope.now)) }
{
    let mut begun = Vec::with_capacity(alloc, items.len())?;
    for item in items {
        let ItemKind::Task { ins, .. } = &item.kind else {
            return Err(NoMemory);
        };
        begun.push(Instance::new(alloc, ins, graph, base, scope)?)?;
    }
    Ok(begun)
}
