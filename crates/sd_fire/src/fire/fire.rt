ghost use Rattle.std.specs.Prelude.{◌≡◌, ◌∷◌, ℕ, true, IfOk};
ghost use Rattle.sd_graph.specs.PlainTree.{consume_scope};
ghost use Rattle.sd_graph.specs.TreeFold.{graph_tree, kind_tree, item_trees};
ghost use Rattle.sd_graph.specs.TreeParts.{containers_of, states_of_graph, items_at};
ghost use Rattle.sd_graph.specs.Unfold.{at_point, at_element};
ghost use Rattle.sd_mem.specs.machine.Coming.{state_context};
ghost use Rattle.sd_scope.specs.scope.Standing.{context_of, opening_reach};
ghost use Rattle.sd_left.specs.tree.Standing.{value_at};
ghost use Rattle.sd_left.specs.left.Kept.{body_kept};
ghost use Rattle.sd_left.specs.left.Tells.{tells, bodies_tell, body_tells, run_tells};
ghost use Rattle.sd_fire.specs.advance.Right.{IsLeftFired, ArePointsFired, AreElementsFired, ArePartsFired, AreItemsFired, IsNestedFired, IsRunFired};

use crate::advance::{go_on_run, take_element};
use crate::fire::instance::fire_instance;
use crate::sparse::fire_sparse;
use sd_graph::{Item, ItemKind, Sdfg};
use sd_left::{Bodies, Body, Left, Run, is_body_finished};
use sd_list::NoMemory;
use sd_mem::{End, Machine, Station};
use sd_range::Range;
use sd_scope::{Base, Scope};
use std::alloc::Global;

/// The move at a path of what is left of an item, which stands in a line of a scope. What has another kind than its item counts as
/// want of memory, here and below.
#[cycle(fire)]
pub fn fire_left(
    alloc: Global,
    left: &mut Left,
    path: &[usize],
    kind: &ItemKind,
    line: u32,
    graph: &Sdfg,
    base: &Base,
    scope: &Scope,
    machine: &mut Machine,
) -> Result<End, NoMemory>
    ensures { IfOk result (λ end. (tells left.old).is_right ≡ true → IsLeftFired left.old (kind_tree kind.now) line (context_of (graph_tree graph.now) base.now scope.now) path.now machine.old end machine.new left.new) }
{
    match left {
        Left::Instance(instance) => {
            fire_instance(alloc, instance, kind, line, graph, base, scope, machine)
        }
        Left::Doing(doing) => doing.step(alloc, line, graph, base, scope, machine),
        Left::Points { points, .. } => {
            fire_points(alloc, points, path, kind, graph, base, scope, machine)
        }
        Left::Sparse { tasks, points, .. } => fire_sparse(
            alloc, tasks, points, path, kind, graph, base, scope, machine,
        ),
        Left::Pool { stream, active, .. } => {
            fire_pool(
                alloc, *stream, active, path, kind, graph, base, scope, machine,
            )
        }
        Left::Nested(run) => fire_nested(alloc, run, path, kind, line, graph, base, scope, machine),
    }
}

/// The move at a path of the points of a map.
#[cycle(fire)]
fn fire_points(
    alloc: Global,
    points: &mut Bodies,
    path: &[usize],
    kind: &ItemKind,
    graph: &Sdfg,
    base: &Base,
    scope: &Scope,
    machine: &mut Machine,
) -> Result<End, NoMemory>
    ensures { IfOk result (λ end. (bodies_tell points.old).is_right ≡ true → ArePointsFired points.old (kind_tree kind.now) (context_of (graph_tree graph.now) base.now scope.now) path.now machine.old end machine.new points.new) }
{
    let Some((number, inner)) = path.split_first() else {
        return Ok(End::Finished);
    };
    let number = *number;
    if number >= points.bodies.len() {
        return Ok(End::Finished);
    }
    let ItemKind::Map {
        params,
        private,
        body,
        ..
    } = kind
    else {
        return Err(NoMemory);
    };
    let point = &mut points.bodies[number];
    let end = fire_point(
        alloc, point, inner, body, params, private, graph, base, scope, machine,
    )?;
    points.count_again(number)?;
    Ok(end)
}

/// The move at a path of a point of a map that stands here.
#[cycle(fire)]
fn fire_point(
    alloc: Global,
    point: &mut Body,
    path: &[usize],
    body: &[Item],
    params: &[(u32, Range)],
    private: &[u32],
    graph: &Sdfg,
    base: &Base,
    scope: &Scope,
    machine: &mut Machine,
) -> Result<End, NoMemory>
    ensures { IfOk result (λ end. (body_tells point.old).is_right ≡ true → AreItemsFired point.old (item_trees body.now) (at_point (context_of (graph_tree graph.now) base.now scope.now) params.now private.now (body_kept point.old).at) path.now machine.old end machine.new point.new) }
{
    let mut inside = scope.inside(alloc, private)?;
    inside.at_point(alloc, scope, params, point.at.as_slice())?;
    fire_body(alloc, point, path, body, graph, base, &inside, machine)
}

/// The move at a path of a consume scope over a stream: the take of a value, or a move of an element in work.
#[cycle(fire)]
fn fire_pool(
    alloc: Global,
    stream: Station,
    active: &mut Bodies,
    path: &[usize],
    kind: &ItemKind,
    graph: &Sdfg,
    base: &Base,
    scope: &Scope,
    machine: &mut Machine,
) -> Result<End, NoMemory>
    ensures { IfOk result (λ end. (bodies_tell active.old).is_right ≡ true → AreElementsFired stream active.old (kind_tree kind.now) (context_of (graph_tree graph.now) base.now scope.now) path.now machine.old end machine.new active.new) }
{
    let Some((choice, rest)) = path.split_first() else {
        return Ok(End::Finished);
    };
    let Some((number, inner)) = rest.split_first() else {
        return Ok(End::Finished);
    };
    let ItemKind::Consume {
        element,
        private,
        body,
        ..
    } = kind
    else {
        return Err(NoMemory);
    };
    if *choice == 0 {
        return take_element(
            alloc, stream, active, *number, body, *element, private, graph, base, scope, machine,
        );
    }
    fire_active(
        alloc, stream, active, *number, inner, body, *element, private, graph, base, scope, machine,
    )
}

/// The move at a path of the element of this number.
#[cycle(fire)]
fn fire_active(
    alloc: Global,
    stream: Station,
    active: &mut Bodies,
    number: usize,
    path: &[usize],
    body: &[Item],
    element: u32,
    private: &[u32],
    graph: &Sdfg,
    base: &Base,
    scope: &Scope,
    machine: &mut Machine,
) -> Result<End, NoMemory>
    ensures { IfOk result (λ end. (from : ℕ) → (bodies_tell active.old).is_right ≡ true → AreElementsFired stream active.old (consume_scope from element private.now (item_trees body.now)) (context_of (graph_tree graph.now) base.now scope.now) (1 ∷ number ∷ path.now) machine.old end machine.new active.new) }
{
    if number >= active.bodies.len() {
        return Ok(End::Finished);
    }
    let now = &mut active.bodies[number];
    let end = fire_element(
        alloc, now, path, body, element, private, graph, base, scope, machine,
    )?;
    active.count_again(number)?;
    Ok(end)
}

/// The move at a path of an element of a consume scope that stands here.
#[cycle(fire)]
fn fire_element(
    alloc: Global,
    now: &mut Body,
    path: &[usize],
    body: &[Item],
    element: u32,
    private: &[u32],
    graph: &Sdfg,
    base: &Base,
    scope: &Scope,
    machine: &mut Machine,
) -> Result<End, NoMemory>
    ensures { IfOk result (λ end. (body_tells now.old).is_right ≡ true → AreItemsFired now.old (item_trees body.now) (at_element (context_of (graph_tree graph.now) base.now scope.now) element private.now (value_at (body_kept now.old).at)) path.now machine.old end machine.new now.new) }
{
    let value = value_of_element(now.at.as_slice())?;
    let mut numbers = vec![in alloc; element; 1]?;
    numbers.extend_from_slice(private)?;
    let mut inside = scope.inside(alloc, numbers.as_slice())?;
    inside.at_element(alloc, scope, element, value)?;
    fire_body(alloc, now, path, body, graph, base, &inside, machine)
}

/// The move at a path of items inside their memory, which stand here.
#[cycle(fire)]
fn fire_body(
    alloc: Global,
    body: &mut Body,
    path: &[usize],
    items: &[Item],
    graph: &Sdfg,
    base: &Base,
    scope: &Scope,
    machine: &mut Machine,
) -> Result<End, NoMemory>
    ensures { IfOk result (λ end. (body_tells body.old).is_right ≡ true → AreItemsFired body.old (item_trees items.now) (context_of (graph_tree graph.now) base.now scope.now) path.now machine.old end machine.new body.new) }
{
    machine.lend(&mut body.own)?;
    let end = fire_parts(alloc, body, path, items, graph, base, scope, machine);
    machine.give_back(&mut body.own);
    end
}

/// The move at a path of items that stand here.
#[cycle(fire)]
fn fire_parts(
    alloc: Global,
    body: &mut Body,
    path: &[usize],
    items: &[Item],
    graph: &Sdfg,
    base: &Base,
    scope: &Scope,
    machine: &mut Machine,
) -> Result<End, NoMemory>
    ensures { IfOk result (λ end. (body_tells body.old).is_right ≡ true → ArePartsFired body.old (item_trees items.now) (context_of (graph_tree graph.now) base.now scope.now) path.now machine.old end machine.new body.new) }
{
    let Some((number, inner)) = path.split_first() else {
        return Ok(End::Finished);
    };
    let number = *number;
    if number >= body.parts.len() {
        return Ok(End::Finished);
    }
    if number >= items.len() {
        return Err(NoMemory);
    }
    let item = &items[number];
    let part = &mut body.parts[number];
    let end = fire_left(
        alloc, part, inner, &item.kind, item.line, graph, base, scope, machine,
    )?;
    body.count_again(alloc, number)?;
    Ok(end)
}

/// The move at a path of a run of an item's graph.
#[cycle(fire)]
fn fire_nested(
    alloc: Global,
    run: &mut Run,
    path: &[usize],
    kind: &ItemKind,
    line: u32,
    graph: &Sdfg,
    base: &Base,
    scope: &Scope,
    machine: &mut Machine,
) -> Result<End, NoMemory>
    ensures { IfOk result (λ end. (run_tells run.old).is_right ≡ true → IsNestedFired run.old (kind_tree kind.now) line (context_of (graph_tree graph.now) base.now scope.now) path.now machine.old end machine.new run.new) }
{
    match kind {
        ItemKind::Nested {
            graph: inner,
            links,
        } => {
            let within = Base::inside(alloc, graph, base, scope, line, inner, links)?;
            fire_run(alloc, run, path, inner, &within, machine)
        }
        _ => Err(NoMemory),
    }
}

/// The move at a path of a run of a graph: one inside its state, or where that is finished the transition.
#[cycle(fire)]
pub fn fire_run(
    alloc: Global,
    run: &mut Run,
    path: &[usize],
    graph: &Sdfg,
    base: &Base,
    machine: &mut Machine,
) -> Result<End, NoMemory>
    ensures { IfOk result (λ end. (run_tells run.old).is_right ≡ true → IsRunFired run.old (graph_tree graph.now) (opening_reach (containers_of (graph_tree graph.now)) base.now) base.now.around path.now machine.old end machine.new run.new) }
{
    if run.ended {
        return Ok(End::Finished);
    }
    if is_body_finished(&run.body) {
        return go_on_run(alloc, run, graph, base, machine);
    }
    let state = run.state;
    fire_state(alloc, &mut run.body, path, state, graph, base, machine)
}

/// The move at a path of the items of a state of a run.
#[cycle(fire)]
fn fire_state(
    alloc: Global,
    body: &mut Body,
    path: &[usize],
    state: u32,
    graph: &Sdfg,
    base: &Base,
    machine: &mut Machine,
) -> Result<End, NoMemory>
    ensures { IfOk result (λ end. (body_tells body.old).is_right ≡ true → AreItemsFired body.old (items_at (states_of_graph (graph_tree graph.now)) state) (state_context (graph_tree graph.now) (opening_reach (containers_of (graph_tree graph.now)) base.now) base.now.around state (body_kept body.old).at) path.now machine.old end machine.new body.new) }
{
    let states = graph.states.as_slice();
    if state as usize >= states.len() {
        return Err(NoMemory);
    }
    let scope = Scope::at_state(alloc, state, body.at.as_slice())?;
    let here = &states[state as usize];
    fire_body(
        alloc,
        body,
        path,
        here.items.as_slice(),
        graph,
        base,
        &scope,
        machine,
    )
}

/// The value of an element.
fn value_of_element(at: &[i128]) -> Result<i64, NoMemory>
    ensures { IfOk result (λ value. value ≡ value_at at.now) }
{
    match at.first() {
        None => Ok(0),
        Some(value) => i64::try_from(*value).map_err(|_| NoMemory),
    }
}
