ghost use Rattle.std.specs.Prelude.{IfOk};
ghost use Rattle.sd_graph.specs.PlainTree.{task};
ghost use Rattle.sd_graph.specs.TreeFold.{graph_tree, tasklet_tree};
ghost use Rattle.sd_mem.specs.machine.ComesTo.{IsEnd};
ghost use Rattle.sd_mem.specs.machine.Coming.{kind_coming};
ghost use Rattle.sd_scope.specs.scope.Standing.{context_of};
ghost use Rattle.sd_leaves.specs.leaves.Done.{IsDone, instance_work};

use crate::leaves::effects::perform_all;
use crate::leaves::ending::end_of;
use crate::leaves::evaluation::{evaluated, inputs_of};
use crate::leaves::reading::values_of_links;
use sd_graph::{FaultKind, Link, Sdfg, Tasklet};
use sd_list::NoMemory;
use sd_mem::{End, Machine};
use sd_scope::{Base, Scope};
use std::alloc::Global;

/// An instance of a tasklet: it spends a turn, reads, evaluates and performs its effects.
pub fn run_task(
    alloc: Global,
    code: &Tasklet,
    ins: &[Link],
    outs: &[Link],
    line: u32,
    graph: &Sdfg,
    base: &Base,
    scope: &Scope,
    machine: &mut Machine,
) -> Result<End, NoMemory>
    ensures { IfOk result (λ end. IsEnd (kind_coming (task (tasklet_tree code.now) ins.now outs.now) line (context_of (graph_tree graph.now) base.now scope.now) machine.old) machine.old end machine.new) }
{
    if !machine.pay(true) {
        return Ok(End::OutOfTurns);
    }
    let fault = do_instance(alloc, code, ins, outs, graph, base, scope, machine)?;
    end_of(alloc, fault, graph, base, scope, line)
}

/// What an instance does once its turn is spent.
fn do_instance(
    alloc: Global,
    code: &Tasklet,
    ins: &[Link],
    outs: &[Link],
    graph: &Sdfg,
    base: &Base,
    scope: &Scope,
    machine: &mut Machine,
) -> Result<Option<FaultKind>, NoMemory>
    ensures { IfOk result (λ fault. IsDone (instance_work (context_of (graph_tree graph.now) base.now scope.now) (tasklet_tree code.now) ins.now outs.now) machine.old fault machine.new) }
{
    let Some(read) = values_of_links(alloc, ins, graph, base, scope, machine)? else {
        return Ok(Some(FaultKind::Subscript));
    };
    let inputs = inputs_of(alloc, code, ins, outs, scope, read)?;
    match evaluated(alloc, code, &inputs)? {
        Ok(effects) => perform_all(
            alloc,
            effects.list.as_slice(),
            &inputs,
            ins,
            outs,
            graph,
            base,
            scope,
            machine,
        ),
        Err(kind) => Ok(Some(kind)),
    }
}
