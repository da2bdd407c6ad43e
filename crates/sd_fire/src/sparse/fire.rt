//! Moves of tasklets at points of a map.
ghost use Rattle.std.specs.Prelude.{◌≡◌, ℕ, map, Bool, true, Some, IfOk};
ghost use Rattle.sd_work.specs.Leaf.{Evaluation};
ghost use Rattle.sd_work.specs.Residual.{list, Items};
ghost use Rattle.sd_graph.specs.PlainTree.{KindTree};
ghost use Rattle.sd_graph.specs.Context.{Context, private_memory};
ghost use Rattle.sd_graph.specs.TreeParts.{containers_of};
ghost use Rattle.sd_graph.specs.TreeFold.{graph_tree, kind_tree, item_trees};
ghost use Rattle.sd_scope.specs.scope.Standing.{context_of};
ghost use Rattle.sd_leaves.specs.moves.Left.{instance_left};
ghost use Rattle.sd_left.specs.tree.Standing.{parts_left};
ghost use Rattle.sd_left.specs.fired.Fired.{IsFired};
ghost use Rattle.sd_left.specs.sparse.Point.{tasks_at};
ghost use Rattle.sd_left.specs.sparse.Stretch.{is_summed, is_told};
ghost use Rattle.sd_left.specs.sparse.Terms.{task_left, own_at, memory_or};
ghost use Rattle.sd_fire.specs.advance.Right.{AreSparseFired};
ghost use Rattle.sd_fire.specs.sparse.Point.{IsPointFired};

use crate::fire::instance::fire_instance;
use crate::sparse::begin::begin_tasks;
use crate::sparse::count::point_at;
use sd_graph::{Item, ItemKind, Sdfg};
use sd_leaves::{Doing, Instance};
use sd_left::{Begun, Stretch, Tasks, count_points, open_at, swap};
use sd_list::NoMemory;
use sd_mem::{End, Machine, Memory};
use sd_scope::{Base, Scope};
use std::alloc::Global;

/// The move at a path of the points of a map of tasklets. The point begins where it has not.
pub(crate) fn fire_sparse(
    alloc: Global,
    tasks: &Tasks,
    points: &mut Stretch,
    path: &[usize],
    kind: &ItemKind,
    graph: &Sdfg,
    base: &Base,
    scope: &Scope,
    machine: &mut Machine,
) -> Result<End, NoMemory>
    ensures { IfOk result (λ end. is_told tasks.now ≡ true → is_summed tasks.now points.old ≡ true → AreSparseFired tasks.now points.old (kind_tree kind.now) (context_of (graph_tree graph.now) base.now scope.now) path.now machine.old end machine.new points.new) }
{
    let Some((number, inner)) = path.split_first() else {
        return Ok(End::Finished);
    };
    let number = *number;
    if number >= count_points(points) {
        return Ok(End::Finished);
    }
    let ItemKind::Map {
        params,
        private,
        body,
        ..
    } = kind
    else {
        return Err(NoMemory);
    };
    open_at(alloc, tasks, points, number)?;
    let was = swap(tasks, points, number, None)?;
    let at = point_at(alloc, params, &scope.values, number)?;
    let mut inside = scope.inside(alloc, private)?;
    inside.at_point(alloc, scope, params, at.as_slice())?;
    let mut begun = begun_at(alloc, was, body, tasks.count, graph, base, &inside)?;
    let end = fire_point(
        alloc, &mut begun, inner, body, private, graph, base, &inside, machine,
    )?;
    swap(tasks, points, number, Some(begun))?;
    Ok(end)
}

/// A point of so many tasklets that stand here: it begins where it has not.
fn begun_at(
    alloc: Global,
    was: Option<Begun>,
    items: &[Item],
    count: usize,
    graph: &Sdfg,
    base: &Base,
    scope: &Scope,
) -> Result<Begun, NoMemory>
    ensures own { IfOk result (λ begun. (kind : KindTree) (context : Context) → own_at (Some begun) kind context ≡ own_at was kind context) }
    ensures parts { IfOk result (λ begun. parts_left (map task_left (map Some begun.tasks.items)) (item_trees items.now) (context_of (graph_tree graph.now) base.now scope.now) ≡ parts_left (map task_left (tasks_at count was)) (item_trees items.now) (context_of (graph_tree graph.now) base.now scope.now)) }
{
    if let Some(begun) = was {
        return Ok(begun);
    }
    if items.len() != count {
        return Err(NoMemory);
    }
    let tasks = begin_tasks(alloc, items, graph, base, scope)?;
    Ok(Begun { own: None, tasks })
}

/// The move at a path of a point that has begun, inside its private containers.
fn fire_point(
    alloc: Global,
    begun: &mut Begun,
    path: &[usize],
    items: &[Item],
    private: &[u32],
    graph: &Sdfg,
    base: &Base,
    scope: &Scope,
    machine: &mut Machine,
) -> Result<End, NoMemory>
    ensures { IfOk result (IsPointFired begun.old private.now (item_trees items.now) (graph_tree graph.now) (context_of (graph_tree graph.now) base.now scope.now) path.now machine.old machine.new begun.new) }
{
    let mut own = match begun.own.take() {
        Some(own) => own,
        None => Memory::of_scope(alloc, &graph.containers, private)?,
    };
    machine.lend(&mut own)?;
    let end = fire_task(
        alloc,
        &mut begun.tasks,
        path,
        items,
        graph,
        base,
        scope,
        machine,
    );
    machine.give_back(&mut own);
    begun.own = kept_own(alloc, own, private, graph)?;
    end
}

/// The private containers of a point as they are kept: none where it has none and they are as they began.
fn kept_own(
    alloc: Global,
    own: Memory,
    private: &[u32],
    graph: &Sdfg,
) -> Result<Option<Memory>, NoMemory>
    ensures { IfOk result (λ kept. memory_or kept (private_memory (containers_of (graph_tree graph.now)) private.now) ≡ own.contents) }
{
    if private.is_empty() {
        let opening = Memory::of_scope(alloc, &graph.containers, private)?;
        if own.same(&opening) {
            return Ok(None);
        }
    }
    Ok(Some(own))
}

/// The move at a path of tasklets that stand here.
fn fire_task(
    alloc: Global,
    tasks: &mut Vec<Instance>,
    path: &[usize],
    items: &[Item],
    graph: &Sdfg,
    base: &Base,
    scope: &Scope,
    machine: &mut Machine,
) -> Result<End, NoMemory>
    ensures { IfOk result (λ end. (order : ℕ → ℕ → Bool) → IsFired (list Items order (parts_left (map task_left (map Some tasks.old.items)) (item_trees items.now) (context_of (graph_tree graph.now) base.now scope.now))) path.now machine.old end machine.new (list Items order (parts_left (map task_left (map Some tasks.new.items)) (item_trees items.now) (context_of (graph_tree graph.now) base.now scope.now)))) }
{
    let Some((number, _)) = path.split_first() else {
        return Ok(End::Finished);
    };
    let number = *number;
    if number >= tasks.len() {
        return Ok(End::Finished);
    }
    if number >= items.len() {
        return Err(NoMemory);
    }
    let item = &items[number];
    let task = &mut tasks[number];
    let end = fire_instance(
        alloc, task, &item.kind, item.line, graph, base, scope, machine,
    )?;
    let_go(alloc, task);
    Ok(end)
}

/// Lets go of what an instance needs no more: elements that all are read, and things that all are done.
fn let_go(alloc: Global, instance: &mut Instance)
    ensures { (evaluation : Evaluation) → instance_left evaluation instance.new ≡ instance_left evaluation instance.old }
{
    match instance {
        Instance::Reading(reading) => {
            if reading.values.len() >= reading.cells.len() {
                reading.cells = Vec::new(alloc);
            }
        }
        Instance::Doing(doing) => {
            if doing.done >= doing.todo.len() {
                *doing = Doing {
                    todo: Vec::new(alloc),
                    done: 0,
                };
            }
        }
    }
}
