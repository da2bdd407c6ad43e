ghost use Rattle.std.specs.Prelude.{IfOk, OnOk};
ghost use Rattle.sd_graph.specs.TreeFold.{graph_tree, item_tree, item_trees};
ghost use Rattle.sd_mem.specs.machine.ComesTo.{IsEnd};
ghost use Rattle.sd_mem.specs.machine.Coming.{kind_coming, items_coming};
ghost use Rattle.sd_scope.specs.scope.Standing.{context_of};
ghost use Rattle.sd_rows.specs.tasks.Runners.{IsRunnerOf, AreRunnersOf};

use crate::tasks::task::run_task_by;
use sd_graph::{Item, ItemKind, Sdfg};
use sd_list::NoMemory;
use sd_mem::{End, Machine};
use sd_row::Runner;
use sd_scope::{Base, Scope};
use std::alloc::Global;

/// An item with its line, by its flat code.
fn run_item(
    alloc: Global,
    item: &Item,
    runner: &mut Runner,
    graph: &Sdfg,
    base: &Base,
    scope: &Scope,
    machine: &mut Machine,
) -> Result<End, NoMemory>
    requires runner { IsRunnerOf item.now runner.old }
    ensures end { IfOk result (λ end. IsEnd (kind_coming (item_tree item.now).1 (item_tree item.now).0 (context_of (graph_tree graph.now) base.now scope.now) machine.old) machine.old end machine.new) }
    ensures runner { OnOk result (IsRunnerOf item.now runner.new) }
{
    match &item.kind {
        ItemKind::Task { code, ins, outs } => run_task_by(
            alloc,
            runner,
            code,
            ins.as_slice(),
            outs.as_slice(),
            item.line,
            graph,
            base,
            scope,
            machine,
        ),
        _ => unreachable!(),
    }
}

/// The items of a list one after another, each by its flat code.
pub fn run_tasks(
    alloc: Global,
    items: &[Item],
    runners: &mut Vec<Runner>,
    graph: &Sdfg,
    base: &Base,
    scope: &Scope,
    machine: &mut Machine,
) -> Result<End, NoMemory>
    requires runners { AreRunnersOf items.now runners.old.items }
    ensures end { IfOk result (λ end. IsEnd (items_coming (item_trees items.now) (context_of (graph_tree graph.now) base.now scope.now) machine.old) machine.old end machine.new) }
    ensures runners { OnOk result (AreRunnersOf items.now runners.new.items) }
{
    for number in 0..items.len() {
        let item = &items[number];
        let end = run_item(
            alloc,
            item,
            &mut runners[number],
            graph,
            base,
            scope,
            machine,
        )?;
        match end {
            End::Finished => {}
            other => return Ok(other),
        }
    }
    Ok(End::Finished)
}
