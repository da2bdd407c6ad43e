//! Items, the points of maps, bodies, states and runs of graphs.
ghost use Rattle.std.specs.Prelude.{◌≡◌, ◌∷◌, ℕ, map, true, IfOk};
ghost use Rattle.sd_range.specs.Points.{points, ranges_of};
ghost use Rattle.sd_graph.specs.PlainTree.{map_scope, nested_graph};
ghost use Rattle.sd_graph.specs.TreeFold.{graph_tree, kind_tree, item_trees};
ghost use Rattle.sd_graph.specs.TreeParts.{containers_of, states_of_graph, items_at};
ghost use Rattle.sd_graph.specs.Wiring.{before};
ghost use Rattle.sd_mem.specs.machine.Coming.{state_context};
ghost use Rattle.sd_scope.specs.scope.Standing.{context_of, opening_reach};
ghost use Rattle.sd_order.specs.table.Told.{told};
ghost use Rattle.sd_left.specs.tree.Begun.{AreBegun, ArePointsBegun};
ghost use Rattle.sd_left.specs.left.Kept.{left_of, body_kept};
ghost use Rattle.sd_left.specs.left.Telling.{all_right};
ghost use Rattle.sd_left.specs.left.Tells.{tells, body_tells, run_tells};
ghost use Rattle.sd_left.specs.left.Waits.{is_counted, is_body_counted, is_run_counted, all_hold};
ghost use Rattle.sd_fire.specs.begin.Begun.{IsItemBegun, IsBodyBegun, IsRunBegun};

use crate::begin::leaf::{begin_copy, begin_pool, begin_reduction, begin_task};
use crate::begin::ordered::copied;
use crate::sparse::{are_tasks, begin_sparse, count_points};
use sd_graph::{Item, ItemKind, Link, Sdfg};
use sd_left::{Body, Left, Run};
use sd_list::NoMemory;
use sd_mem::{Machine, Memory};
use sd_order::{Order, order_of};
use sd_range::Range;
use sd_scope::{Base, Scope, checked_points};
use std::alloc::Global;

/// An item in a line of a scope.
#[cycle(begin)]
pub fn begin_item(
    alloc: Global,
    kind: &ItemKind,
    line: u32,
    graph: &Sdfg,
    base: &Base,
    scope: &Scope,
    machine: &mut Machine,
) -> Result<Left, NoMemory>
    ensures begun { IfOk result (IsItemBegun (kind_tree kind.now) line (context_of (graph_tree graph.now) base.now scope.now)) }
    ensures counted { IfOk result (λ left. is_counted left machine.old.memories ≡ true) }
    ensures right { IfOk result (λ left. (tells left).is_right ≡ true) }
    ensures stays { machine.new ≡ machine.old }
{
    match kind {
        ItemKind::Task { ins, .. } => begin_task(alloc, ins, graph, base, scope),
        ItemKind::Map {
            params,
            private,
            body,
            sequential: marked,
        } => begin_map(
            alloc, body, params, private, *marked, graph, base, scope, machine,
        ),
        ItemKind::Consume { stream, .. } => begin_pool(alloc, *stream, base, scope, machine),
        ItemKind::Nested {
            graph: inner,
            links,
        } => begin_nested(alloc, inner, links, line, graph, base, scope, machine),
        ItemKind::Reduce {
            resolution,
            axis,
            identity,
            from,
            to,
        } => begin_reduction(
            alloc,
            *resolution,
            *axis,
            *identity,
            from,
            to,
            graph,
            base,
            scope,
        ),
        ItemKind::Copy { from, to } => begin_copy(alloc, from, to, graph, base, scope),
    }
}

/// The items of a list, one after another.
#[cycle(begin)]
fn begin_items(
    alloc: Global,
    items: &[Item],
    graph: &Sdfg,
    base: &Base,
    scope: &Scope,
    machine: &mut Machine,
) -> Result<Vec<Left>, NoMemory>
    ensures begun { IfOk result (λ parts. AreBegun (map left_of parts.items) (item_trees items.now) (context_of (graph_tree graph.now) base.now scope.now)) }
    ensures counted { IfOk result (λ parts. all_hold (map is_counted parts.items) machine.old.memories ≡ true) }
    ensures right { IfOk result (λ parts. all_right (map tells parts.items) ≡ true) }
    ensures stays { machine.new ≡ machine.old }
{
    let mut parts = Vec::with_capacity(alloc, items.len())?;
    for item in items {
        let part = begin_item(alloc, &item.kind, item.line, graph, base, scope, machine)?;
        parts.push(part)?;
    }
    Ok(parts)
}

/// A map, sequential or not. Points of tasklets begin with their first moves, others at once.
#[cycle(begin)]
fn begin_map(
    alloc: Global,
    body: &[Item],
    params: &[(u32, Range)],
    private: &[u32],
    sequential: bool,
    graph: &Sdfg,
    base: &Base,
    scope: &Scope,
    machine: &mut Machine,
) -> Result<Left, NoMemory>
    ensures begun { IfOk result (λ left. (line : ℕ) → IsItemBegun (map_scope sequential params.now private.now (item_trees body.now)) line (context_of (graph_tree graph.now) base.now scope.now) left) }
    ensures counted { IfOk result (λ left. is_counted left machine.old.memories ≡ true) }
    ensures right { IfOk result (λ left. (tells left).is_right ≡ true) }
    ensures stays { machine.new ≡ machine.old }
{
    if are_tasks(body) {
        let told = count_points(alloc, params, &scope.values)?;
        if let Some(count) = told {
            return begin_sparse(alloc, body, sequential, count, graph);
        }
    }
    begin_each(
        alloc, body, params, private, sequential, graph, base, scope, machine,
    )
}

/// A map whose points begin at once: at each the items of its body, inside the point's memory.
#[cycle(begin)]
fn begin_each(
    alloc: Global,
    body: &[Item],
    params: &[(u32, Range)],
    private: &[u32],
    sequential: bool,
    graph: &Sdfg,
    base: &Base,
    scope: &Scope,
    machine: &mut Machine,
) -> Result<Left, NoMemory>
    ensures begun { IfOk result (λ left. (line : ℕ) → IsItemBegun (map_scope sequential params.now private.now (item_trees body.now)) line (context_of (graph_tree graph.now) base.now scope.now) left) }
    ensures counted { IfOk result (λ left. is_counted left machine.old.memories ≡ true) }
    ensures right { IfOk result (λ left. (tells left).is_right ≡ true) }
    ensures stays { machine.new ≡ machine.old }
{
    let points = begin_points(alloc, body, params, private, graph, base, scope, machine)?;
    Left::points(alloc, sequential, points)
}

/// The points of a map, in row order.
#[cycle(begin)]
fn begin_points(
    alloc: Global,
    body: &[Item],
    params: &[(u32, Range)],
    private: &[u32],
    graph: &Sdfg,
    base: &Base,
    scope: &Scope,
    machine: &mut Machine,
) -> Result<Vec<Body>, NoMemory>
    ensures begun { IfOk result (λ bodies. ArePointsBegun params.now private.now (item_trees body.now) (context_of (graph_tree graph.now) base.now scope.now) (points (ranges_of params.now) scope.now.values.values) (map body_kept bodies.items)) }
    ensures counted { IfOk result (λ bodies. all_hold (map is_body_counted bodies.items) machine.old.memories ≡ true) }
    ensures right { IfOk result (λ bodies. all_right (map body_tells bodies.items) ≡ true) }
    ensures stays { machine.new ≡ machine.old }
{
    let order = order_of(alloc, body, &graph.containers)?;
    let mut points = checked_points(alloc, params, &scope.values)?;
    let mut point_scope = scope.inside(alloc, private)?;
    let mut bodies = Vec::new(alloc);
    'walk: while points.next() {
        point_scope.at_point(alloc, scope, params, points.at())?;
        let own = Memory::of_scope(alloc, &graph.containers, private)?;
        let at = points.at().to_vec(alloc)?;
        let here = copied(alloc, &order)?;
        let point = begin_ordered(
            alloc,
            body,
            here,
            at,
            own,
            graph,
            base,
            &point_scope,
            machine,
        )?;
        bodies.push(point)?;
    }
    Ok(bodies)
}

/// A nested graph: a run of it over a memory of its own.
#[cycle(begin)]
fn begin_nested(
    alloc: Global,
    inner: &Sdfg,
    links: &[Link],
    line: u32,
    graph: &Sdfg,
    base: &Base,
    scope: &Scope,
    machine: &mut Machine,
) -> Result<Left, NoMemory>
    ensures begun { IfOk result (IsItemBegun (nested_graph (graph_tree inner.now) links.now) line (context_of (graph_tree graph.now) base.now scope.now)) }
    ensures counted { IfOk result (λ left. is_counted left machine.old.memories ≡ true) }
    ensures right { IfOk result (λ left. (tells left).is_right ≡ true) }
    ensures stays { machine.new ≡ machine.old }
{
    let within = Base::inside(alloc, graph, base, scope, line, inner, links)?;
    let own = Memory::of_run(alloc, &inner.containers)?;
    let run = begin_run(alloc, inner, &within, own, machine)?;
    Left::nested(alloc, run)
}

/// Items over a memory of their own, where a scope stands inside it, with these numbers.
#[cycle(begin)]
pub fn begin_body(
    alloc: Global,
    items: &[Item],
    at: Vec<i128>,
    own: Memory,
    graph: &Sdfg,
    base: &Base,
    scope: &Scope,
    machine: &mut Machine,
) -> Result<Body, NoMemory>
    ensures begun { IfOk result (λ body. IsBodyBegun (item_trees items.now) (context_of (graph_tree graph.now) base.now scope.now) at.items own.contents (body_kept body)) }
    ensures counted { IfOk result (λ body. is_body_counted body machine.old.memories ≡ true) }
    ensures right { IfOk result (λ body. (body_tells body).is_right ≡ true) }
    ensures stays { machine.new ≡ machine.old }
{
    let order = order_of(alloc, items, &graph.containers)?;
    begin_ordered(alloc, items, order, at, own, graph, base, scope, machine)
}

/// The same, where their order is known.
#[cycle(begin)]
fn begin_ordered(
    alloc: Global,
    items: &[Item],
    order: Order,
    at: Vec<i128>,
    own: Memory,
    graph: &Sdfg,
    base: &Base,
    scope: &Scope,
    machine: &mut Machine,
) -> Result<Body, NoMemory>
    requires order { told order ≡ before (containers_of (graph_tree graph.now)) (item_trees items.now) }
    ensures begun { IfOk result (λ body. IsBodyBegun (item_trees items.now) (context_of (graph_tree graph.now) base.now scope.now) at.items own.contents (body_kept body)) }
    ensures counted { IfOk result (λ body. is_body_counted body machine.old.memories ≡ true) }
    ensures right { IfOk result (λ body. (body_tells body).is_right ≡ true) }
    ensures stays { machine.new ≡ machine.old }
{
    let mut own = own;
    let parts = begin_inside(alloc, items, graph, base, scope, &mut own, machine)?;
    Body::begin(alloc, at, own, order, parts)
}

/// The items of a list, one after another, inside a memory that is lent to the machine.
#[cycle(begin)]
fn begin_inside(
    alloc: Global,
    items: &[Item],
    graph: &Sdfg,
    base: &Base,
    scope: &Scope,
    own: &mut Memory,
    machine: &mut Machine,
) -> Result<Vec<Left>, NoMemory>
    ensures begun { IfOk result (λ parts. AreBegun (map left_of parts.items) (item_trees items.now) (context_of (graph_tree graph.now) base.now scope.now)) }
    ensures counted { IfOk result (λ parts. all_hold (map is_counted parts.items) (own.old.contents ∷ machine.old.memories) ≡ true) }
    ensures right { IfOk result (λ parts. all_right (map tells parts.items) ≡ true) }
    ensures own { own.new.contents ≡ own.old.contents }
    ensures stays { machine.new ≡ machine.old }
{
    machine.lend(own)?;
    let parts = begin_items(alloc, items, graph, base, scope, machine);
    machine.give_back(own);
    parts
}

/// The items of a state of a run, where the variables have these values; none where there is no such state.
#[cycle(begin)]
pub fn begin_state(
    alloc: Global,
    state: u32,
    values: Vec<i128>,
    own: Memory,
    graph: &Sdfg,
    base: &Base,
    machine: &mut Machine,
) -> Result<Body, NoMemory>
    ensures begun { IfOk result (λ body. IsBodyBegun (items_at (states_of_graph (graph_tree graph.now)) state) (state_context (graph_tree graph.now) (opening_reach (containers_of (graph_tree graph.now)) base.now) base.now.around state values.items) values.items own.contents (body_kept body)) }
    ensures counted { IfOk result (λ body. is_body_counted body machine.old.memories ≡ true) }
    ensures right { IfOk result (λ body. (body_tells body).is_right ≡ true) }
    ensures stays { machine.new ≡ machine.old }
{
    let scope = Scope::at_state(alloc, state, values.as_slice())?;
    let states = graph.states.as_slice();
    if state as usize >= states.len() {
        return begin_body(alloc, &[], values, own, graph, base, &scope, machine);
    }
    let items = states[state as usize].items.as_slice();
    begin_body(alloc, items, values, own, graph, base, &scope, machine)
}

/// A run of a graph over a memory, in its state 0, with all variables 0.
#[cycle(begin)]
pub fn begin_run(
    alloc: Global,
    graph: &Sdfg,
    base: &Base,
    own: Memory,
    machine: &mut Machine,
) -> Result<Run, NoMemory>
    ensures begun { IfOk result (IsRunBegun (graph_tree graph.now) (opening_reach (containers_of (graph_tree graph.now)) base.now) base.now.around own.contents) }
    ensures counted { IfOk result (λ run. is_run_counted run machine.old.memories ≡ true) }
    ensures right { IfOk result (λ run. (run_tells run).is_right ≡ true) }
    ensures stays { machine.new ≡ machine.old }
{
    let values = vec![in alloc; 0; graph.variables.len()]?;
    let body = begin_state(alloc, 0, values, own, graph, base, machine)?;
    Ok(Run::begin(0, body))
}
