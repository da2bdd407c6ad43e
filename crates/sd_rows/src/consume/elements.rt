ghost use Rattle.std.specs.Prelude.{◌≡◌, [], ◌∷◌, length, IfOk};
ghost use Rattle.std.specs.Option.{MatchOption};
ghost use Rattle.sd_graph.specs.PlainTree.{task, no_item, and_item};
ghost use Rattle.sd_graph.specs.TreeFold.{graph_tree, tasklet_tree, item_trees};
ghost use Rattle.sd_mem.specs.machine.ComesTo.{IsEnd};
ghost use Rattle.sd_tcode.specs.tcode.Held.{IsReady, given};
ghost use Rattle.sd_scope.specs.scope.Standing.{context_of, IsInside};
ghost use Rattle.sd_rows.specs.consume.Body.{HasSingles};
ghost use Rattle.sd_rows.specs.consume.Pool.{IsPool, pool_of, pool_coming};
ghost use Rattle.sd_rows.specs.consume.Taking.{consume_coming};

use crate::consume::setup::Setup;
use crate::consume::taking::{TakingEnd, take_values};
use sd_graph::{Item, ItemKind, Link, Sdfg, Tasklet};
use sd_list::NoMemory;
use sd_mem::{End, Machine, Memory, Station};
use sd_scope::{Base, Scope, place_of};
use std::alloc::Global;

/// Runs a consume scope whose body is one tasklet with scalar inputs that writes to no container of the elements; `None` where the
/// scope is of another kind, and then nothing is done.
pub fn run_elements(
    alloc: Global,
    body: &[Item],
    stream: u32,
    element: u32,
    private: &[u32],
    graph: &Sdfg,
    base: &Base,
    scope: &Scope,
    machine: &mut Machine,
) -> Result<Option<End>, NoMemory>
    ensures { IfOk result (λ end. MatchOption end (machine.new ≡ machine.old)
        (λ end. IsEnd (consume_coming (item_trees body.now) stream element private.now (context_of (graph_tree graph.now) base.now scope.now) machine.old) machine.old end machine.new)) }
{
    if body.len() != 1 || !private.is_empty() || stream == element {
        return Ok(None);
    }
    match &body[0].kind {
        ItemKind::Task { code, ins, outs } => run_task_elements(
            alloc,
            code,
            ins.as_slice(),
            outs.as_slice(),
            body[0].line,
            stream,
            element,
            private,
            graph,
            base,
            scope,
            machine,
        ),
        _ => Ok(None),
    }
}

/// The same of the tasklet that is the body.
fn run_task_elements(
    alloc: Global,
    tasklet: &Tasklet,
    ins: &[Link],
    outs: &[Link],
    line: u32,
    stream: u32,
    element: u32,
    private: &[u32],
    graph: &Sdfg,
    base: &Base,
    scope: &Scope,
    machine: &mut Machine,
) -> Result<Option<End>, NoMemory>
    requires none { private.now ≡ [] }
    requires other { (stream ≡ element) → ⊥ }
    ensures { IfOk result (λ end. MatchOption end (machine.new ≡ machine.old)
        (λ end. IsEnd (consume_coming (and_item line (task (tasklet_tree tasklet.now) ins.now outs.now) no_item) stream element private.now (context_of (graph_tree graph.now) base.now scope.now) machine.old) machine.old end machine.new)) }
{
    let setup = Setup::of(
        alloc, tasklet, ins, outs, stream, element, private, graph, base, scope,
    )?;
    match setup {
        None => Ok(None),
        Some(mut setup) => {
            let end = run_set_up(
                alloc, &mut setup, tasklet, ins, outs, line, stream, element, private, graph, base,
                scope, machine,
            )?;
            Ok(Some(end))
        }
    }
}

/// The same with what its elements need, inside the memory of the elements.
fn run_set_up(
    alloc: Global,
    setup: &mut Setup,
    tasklet: &Tasklet,
    ins: &[Link],
    outs: &[Link],
    line: u32,
    stream: u32,
    element: u32,
    private: &[u32],
    graph: &Sdfg,
    base: &Base,
    scope: &Scope,
    machine: &mut Machine,
) -> Result<End, NoMemory>
    requires ready { IsReady setup.old.runner.code setup.old.runner.frame }
    requires singles { HasSingles (length setup.old.sources.items) (given setup.old.runner.frame) }
    requires inside { IsInside (element ∷ private.now) scope.now setup.old.inner }
    requires pool { IsPool setup.old.runner.code (given setup.old.runner.frame) setup.old.accesses setup.old.sources.items setup.old.from element outs.now (context_of (graph_tree graph.now) base.now setup.old.inner)
        (pool_of (tasklet_tree tasklet.now) ins.now outs.now line stream element private.now (context_of (graph_tree graph.now) base.now scope.now)) }
    ensures { IfOk result (λ end. IsEnd (pool_coming (pool_of (tasklet_tree tasklet.now) ins.now outs.now line stream element private.now (context_of (graph_tree graph.now) base.now scope.now)) machine.old) machine.old end machine.new) }
{
    let own = Memory::of_element(alloc, &graph.containers, element, private, 0)?;
    machine.enter(own)?;
    let width = machine.width(Station {
        level: 0,
        container: element,
    });
    let end = take_values(
        alloc,
        &setup.accesses,
        &setup.sources,
        &mut setup.runner,
        setup.from,
        width,
        outs,
        graph,
        base,
        &setup.inner,
        machine,
    )?;
    machine.leave();
    match end {
        TakingEnd::Finished => Ok(End::Finished),
        TakingEnd::OutOfTurns => Ok(End::OutOfTurns),
        TakingEnd::Fault(value, kind) => {
            setup.inner.at_element(alloc, scope, element, value)?;
            let place = place_of(alloc, graph, base, &setup.inner, line)?;
            Ok(End::Fault(place, kind))
        }
    }
}
