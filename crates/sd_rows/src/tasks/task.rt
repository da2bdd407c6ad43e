ghost use Rattle.std.specs.Prelude.{IfOk, OnOk};
ghost use Rattle.sd_graph.specs.PlainTree.{task};
ghost use Rattle.sd_graph.specs.TreeFold.{graph_tree, tasklet_tree};
ghost use Rattle.sd_mem.specs.machine.ComesTo.{IsEnd};
ghost use Rattle.sd_mem.specs.machine.Coming.{kind_coming};
ghost use Rattle.sd_scope.specs.scope.Standing.{context_of};
ghost use Rattle.sd_row.specs.instance.Fit.{IsCodeFor, IsRunner};

use crate::tasks::viewing::run_viewing_task;
use sd_graph::{Link, Sdfg, Tasklet};
use sd_leaves::{end_of, run_task};
use sd_list::NoMemory;
use sd_mem::{End, Machine};
use sd_row::{Accesses, Runner, are_scalar_links, run_instance};
use sd_scope::{Base, Scope};
use std::alloc::Global;

/// An instance of a tasklet by its flat code: it spends a turn, reads, evaluates and performs its effects.
pub(crate) fn run_task_by(
    alloc: Global,
    runner: &mut Runner,
    code: &Tasklet,
    ins: &[Link],
    outs: &[Link],
    line: u32,
    graph: &Sdfg,
    base: &Base,
    scope: &Scope,
    machine: &mut Machine,
) -> Result<End, NoMemory>
    requires runner { IsCodeFor (tasklet_tree code.now) ins.now outs.now runner.old.code runner.old.frame }
    ensures end { IfOk result (λ end. IsEnd (kind_coming (task (tasklet_tree code.now) ins.now outs.now) line (context_of (graph_tree graph.now) base.now scope.now) machine.old) machine.old end machine.new) }
    ensures runner { OnOk result (IsCodeFor (tasklet_tree code.now) ins.now outs.now runner.new.code runner.new.frame) }
{
    if are_scalar_links(ins) {
        return run_scalar_task(
            alloc, runner, code, ins, outs, line, graph, base, scope, machine,
        );
    }
    run_viewing_task(
        alloc, runner, code, ins, outs, line, graph, base, scope, machine,
    )
}

/// The same of a tasklet with scalar inputs, where its accesses are inside.
fn run_scalar_task(
    alloc: Global,
    runner: &mut Runner,
    code: &Tasklet,
    ins: &[Link],
    outs: &[Link],
    line: u32,
    graph: &Sdfg,
    base: &Base,
    scope: &Scope,
    machine: &mut Machine,
) -> Result<End, NoMemory>
    requires runner { IsRunner (tasklet_tree code.now) ins.now outs.now runner.old.code runner.old.frame }
    ensures end { IfOk result (λ end. IsEnd (kind_coming (task (tasklet_tree code.now) ins.now outs.now) line (context_of (graph_tree graph.now) base.now scope.now) machine.old) machine.old end machine.new) }
    ensures runner { OnOk result (IsRunner (tasklet_tree code.now) ins.now outs.now runner.new.code runner.new.frame) }
{
    if !runner.shape(alloc, ins, outs, scope)? {
        return run_task(alloc, code, ins, outs, line, graph, base, scope, machine);
    }
    let Some(accesses) = Accesses::at(alloc, code, ins, outs, graph, base, scope)? else {
        return run_task(alloc, code, ins, outs, line, graph, base, scope, machine);
    };
    if !machine.pay(true) {
        return Ok(End::OutOfTurns);
    }
    let fault = run_instance(
        alloc,
        &accesses,
        &runner.code,
        &mut runner.frame,
        0,
        outs,
        graph,
        base,
        scope,
        machine,
    )?;
    end_of(alloc, fault, graph, base, scope, line)
}
