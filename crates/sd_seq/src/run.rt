ghost use Rattle.std.specs.Prelude.{◌≡◌, ◌∷◌, ℕ, IfOk, OnOk};
ghost use Rattle.std.specs.Option.{MatchOption};
ghost use Rattle.std.specs.Bool.{⊤};
ghost use Rattle.sd_graph.specs.PlainTree.{nested_graph};
ghost use Rattle.sd_graph.specs.declared.graph.ItemKind.TheViews.{out-Sdfg};
ghost use Rattle.sd_graph.specs.TreeFold.{graph_tree, kind_tree, item_tree, item_trees, state_tree};
ghost use Rattle.sd_graph.specs.TreeParts.{containers_of};
ghost use Rattle.sd_graph.specs.Upwards.{KindLeadsUpwards, ItemsLeadUpwards, LeadsUpwards};
ghost use Rattle.sd_mem.specs.machine.ComesTo.{IsEnd};
ghost use Rattle.sd_mem.specs.machine.Coming.{kind_coming, items_coming, map_coming, from_state, graph_coming};
ghost use Rattle.sd_scope.specs.scope.Standing.{context_of, opening_reach};
ghost use Rattle.sd_rows.specs.consume.Taking.{consume_coming};
ghost use Rattle.sd_rows.specs.tasks.Runners.{AreRunnersOf};

use sd_graph::{Item, ItemKind, Link, Sdfg, State};
use sd_leaves::{Next, next_exit, run_copy, run_reduction, run_task};
use sd_list::NoMemory;
use sd_mem::{End, Machine, Memory};
use sd_range::Range;
use sd_row::Runner;
use sd_rows::{run_elements, run_rows, run_tasks, runners_of};
use sd_scope::{Base, Scope, checked_points, station, values_behind};
use std::alloc::Global;

/// Items one after another.
#[cycle(run)]
#[tactic(auto, using(crate::proofs::Items::item_leads))]
fn run_items(
    alloc: Global,
    items: &[Item],
    graph: &Sdfg,
    base: &Base,
    scope: &Scope,
    machine: &mut Machine,
) -> Result<End, NoMemory>
    requires leads { ItemsLeadUpwards (item_trees items.now) }
    ensures { IfOk result (λ end. IsEnd (items_coming (item_trees items.now) (context_of (graph_tree graph.now) base.now scope.now) machine.old) machine.old end machine.new) }
{
    for item in items {
        let end = run_item(alloc, item, graph, base, scope, machine)?;
        match end {
            End::Finished => {}
            other => return Ok(other),
        }
    }
    Ok(End::Finished)
}

/// One item with its line: it ends as its work does from left to right.
#[cycle(run)]
#[tactic(auto, using(sd_row::proofs::instance_lemmas::Bodies::item_opened))]
pub fn run_item(
    alloc: Global,
    item: &Item,
    graph: &Sdfg,
    base: &Base,
    scope: &Scope,
    machine: &mut Machine,
) -> Result<End, NoMemory>
    requires leads { KindLeadsUpwards (item_tree item.now).1 }
    ensures { IfOk result (λ end. IsEnd (kind_coming (item_tree item.now).1 (item_tree item.now).0 (context_of (graph_tree graph.now) base.now scope.now) machine.old) machine.old end machine.new) }
{
    run_kind(alloc, &item.kind, item.line, graph, base, scope, machine)
}

/// What an item does.
#[cycle(run)]
#[tactic(auto, using(crate::proofs::ItemKinds::map_leads, crate::proofs::ItemKinds::consume_leads, crate::proofs::ItemKinds::nested_leads))]
fn run_kind(
    alloc: Global,
    kind: &ItemKind,
    line: u32,
    graph: &Sdfg,
    base: &Base,
    scope: &Scope,
    machine: &mut Machine,
) -> Result<End, NoMemory>
    requires leads { KindLeadsUpwards (kind_tree kind.now) }
    ensures { IfOk result (λ end. IsEnd (kind_coming (kind_tree kind.now) line (context_of (graph_tree graph.now) base.now scope.now) machine.old) machine.old end machine.new) }
{
    match kind {
        ItemKind::Task { code, ins, outs } => {
            run_task(alloc, code, ins, outs, line, graph, base, scope, machine)
        }
        ItemKind::Map {
            params,
            private,
            body,
            ..
        } => run_map(alloc, body, params, private, graph, base, scope, machine),
        ItemKind::Consume {
            stream,
            element,
            private,
            body,
        } => run_consume(
            alloc, body, *stream, *element, private, graph, base, scope, machine,
        ),
        ItemKind::Nested {
            graph: inner,
            links,
        } => run_nested(alloc, inner, links, line, graph, base, scope, machine),
        ItemKind::Reduce {
            resolution,
            axis,
            identity,
            from,
            to,
        } => run_reduction(
            alloc,
            *resolution,
            *axis,
            *identity,
            from,
            to,
            line,
            graph,
            base,
            scope,
            machine,
        ),
        ItemKind::Copy { from, to } => run_copy(alloc, from, to, line, graph, base, scope, machine),
    }
}

/// The items of a body one after another, by their flat code where each has some.
#[cycle(run)]
fn run_body(
    alloc: Global,
    body: &[Item],
    runners: &mut Option<Vec<Runner>>,
    graph: &Sdfg,
    base: &Base,
    scope: &Scope,
    machine: &mut Machine,
) -> Result<End, NoMemory>
    requires leads { ItemsLeadUpwards (item_trees body.now) }
    requires runners { MatchOption runners.old ⊤ (λ runners. AreRunnersOf body.now runners.items) }
    ensures end { IfOk result (λ end. IsEnd (items_coming (item_trees body.now) (context_of (graph_tree graph.now) base.now scope.now) machine.old) machine.old end machine.new) }
    ensures runners { OnOk result (MatchOption runners.new ⊤ (λ runners. AreRunnersOf body.now runners.items)) }
{
    match runners {
        Some(runners) => run_tasks(alloc, body, runners, graph, base, scope, machine),
        None => run_items(alloc, body, graph, base, scope, machine),
    }
}

/// The body of a map for each point, row by row where it is one tasklet.
#[cycle(run)]
fn run_map(
    alloc: Global,
    body: &[Item],
    params: &[(u32, Range)],
    private: &[u32],
    graph: &Sdfg,
    base: &Base,
    scope: &Scope,
    machine: &mut Machine,
) -> Result<End, NoMemory>
    requires leads { ItemsLeadUpwards (item_trees body.now) }
    ensures { IfOk result (λ end. IsEnd (map_coming (item_trees body.now) params.now private.now (context_of (graph_tree graph.now) base.now scope.now) machine.old) machine.old end machine.new) }
{
    let rows = run_rows(alloc, body, params, private, graph, base, scope, machine)?;
    if let Some(end) = rows {
        return Ok(end);
    }
    let mut points = checked_points(alloc, params, &scope.values)?;
    let mut point_scope = scope.inside(alloc, private)?;
    let mut runners = runners_of(alloc, body)?;
    while points.next() {
        point_scope.at_point(alloc, scope, params, points.at())?;
        let own = Memory::of_scope(alloc, &graph.containers, private)?;
        machine.enter(own)?;
        let end = run_body(
            alloc,
            body,
            &mut runners,
            graph,
            base,
            &point_scope,
            machine,
        )?;
        machine.leave();
        match end {
            End::Finished => {}
            other => return Ok(other),
        }
    }
    Ok(End::Finished)
}

/// The body of a consume scope for each value of its stream, the oldest first, until the stream is empty; by flat code where it is
/// one tasklet with scalar inputs.
#[cycle(run)]
fn run_consume(
    alloc: Global,
    body: &[Item],
    stream: u32,
    element: u32,
    private: &[u32],
    graph: &Sdfg,
    base: &Base,
    scope: &Scope,
    machine: &mut Machine,
) -> Result<End, NoMemory>
    requires leads { ItemsLeadUpwards (item_trees body.now) }
    ensures { IfOk result (λ end. IsEnd (consume_coming (item_trees body.now) stream element private.now (context_of (graph_tree graph.now) base.now scope.now) machine.old) machine.old end machine.new) }
{
    let elements = run_elements(
        alloc, body, stream, element, private, graph, base, scope, machine,
    )?;
    if let Some(end) = elements {
        return Ok(end);
    }
    let from = station(base, scope, stream)?;
    let own_numbers = with_first(alloc, element, private)?;
    let mut element_scope = scope.inside(alloc, own_numbers.as_slice())?;
    let mut runners = runners_of(alloc, body)?;
    for _ in 0..u64::MAX {
        let Some(value) = machine.take(from) else {
            return Ok(End::Finished);
        };
        element_scope.at_element(alloc, scope, element, value)?;
        let own = Memory::of_element(alloc, &graph.containers, element, private, value)?;
        machine.enter(own)?;
        let end = run_body(
            alloc,
            body,
            &mut runners,
            graph,
            base,
            &element_scope,
            machine,
        )?;
        machine.leave();
        match end {
            End::Finished => {}
            other => return Ok(other),
        }
    }
    // So many takes count as want of memory.
    Err(NoMemory)
}

/// A nested graph, over a memory of its own.
#[cycle(run)]
fn run_nested(
    alloc: Global,
    inner: &Sdfg,
    links: &[Link],
    line: u32,
    graph: &Sdfg,
    base: &Base,
    scope: &Scope,
    machine: &mut Machine,
) -> Result<End, NoMemory>
    requires leads { LeadsUpwards (graph_tree inner.now) }
    ensures { IfOk result (λ end. IsEnd (kind_coming (nested_graph (graph_tree inner.now) links.now) line (context_of (graph_tree graph.now) base.now scope.now) machine.old) machine.old end machine.new) }
{
    let within = Base::inside(alloc, graph, base, scope, line, inner, links)?;
    let own = Memory::of_run(alloc, &inner.containers)?;
    machine.enter(own)?;
    let end = run_graph(alloc, inner, &within, machine)?;
    machine.leave();
    Ok(end)
}

/// A run of a graph from its begin, inside its memory.
#[cycle(run)]
pub(crate) fn run_graph(
    alloc: Global,
    graph: &Sdfg,
    base: &Base,
    machine: &mut Machine,
) -> Result<End, NoMemory>
    requires leads { LeadsUpwards (graph_tree graph.now) }
    ensures { IfOk result (λ end. IsEnd (graph_coming (graph_tree graph.now) (opening_reach (containers_of (graph_tree graph.now)) base.now) base.now.around machine.old) machine.old end machine.new) }
{
    let values = vec![in alloc; 0; graph.variables.len()]?;
    run_states(alloc, graph.states.as_slice(), graph, base, values, machine)
}

/// The states of a graph, from state 0 on, with these values of the variables.
#[cycle(run)]
fn run_states(
    alloc: Global,
    states: &[State],
    graph: &Sdfg,
    base: &Base,
    mut values: Vec<i128>,
    machine: &mut Machine,
) -> Result<End, NoMemory>
    requires leads { LeadsUpwards (graph_tree graph.now) }
    requires same { states.now ≡ (out-Sdfg graph.now).states.items }
    ensures { IfOk result (λ end. IsEnd (λ most. from_state (graph_tree graph.now) (opening_reach (containers_of (graph_tree graph.now)) base.now) base.now.around 0 values.items machine.old most most) machine.old end machine.new) }
{
    let mut state: u32 = 0;
    while (state as usize) < states.len() {
        let scope = Scope::at_state(alloc, state, values.as_slice())?;
        let here = &states[state as usize];
        let end = run_state(alloc, here, graph, base, &scope, machine)?;
        match end {
            End::Finished => {}
            other => return Ok(other),
        }
        let exits = here.exits.as_slice();
        match next_exit(alloc, exits, graph, base, &scope, machine)? {
            Next::Nowhere => return Ok(End::Finished),
            Next::Fault(place, kind) => return Ok(End::Fault(place, kind)),
            Next::By(number) => {
                let exit = &exits[number];
                if !machine.pay(exit.back) {
                    return Ok(End::OutOfTurns);
                }
                values = values_behind(alloc, exit, values.as_slice())?;
                state = exit.to;
            }
        }
    }
    Ok(End::Finished)
}

/// The items of a state.
#[cycle(run)]
#[tactic(auto, using(crate::proofs::Transitions::state_opened_here))]
fn run_state(
    alloc: Global,
    state: &State,
    graph: &Sdfg,
    base: &Base,
    scope: &Scope,
    machine: &mut Machine,
) -> Result<End, NoMemory>
    requires leads { ItemsLeadUpwards (state_tree state.now).0 }
    ensures { IfOk result (λ end. IsEnd (items_coming (state_tree state.now).0 (context_of (graph_tree graph.now) base.now scope.now) machine.old) machine.old end machine.new) }
{
    run_items(alloc, state.items.as_slice(), graph, base, scope, machine)
}

/// A number before others.
fn with_first(alloc: Global, first: u32, others: &[u32]) -> Result<Vec<u32>, NoMemory>
    ensures { IfOk result (λ numbers. numbers.items ≡ first ∷ others.now) }
{
    let mut numbers = vec![in alloc; first; 1]?;
    numbers.extend_from_slice(others)?;
    Ok(numbers)
}
