ghost use Rattle.std.specs.Prelude.{IfOk};
ghost use Rattle.sd_work.specs.BigStep.{big_step};
ghost use Rattle.sd_graph.specs.TreeFold.{graph_tree, item_tree};
ghost use Rattle.sd_graph.specs.TreeParts.{containers_of};
ghost use Rattle.sd_graph.specs.Upwards.{KindLeadsUpwards};
ghost use Rattle.sd_mem.specs.machine.ComesTo.{IsEnd};
ghost use Rattle.sd_cut.specs.Windowed.{reach_in};
ghost use Rattle.sd_part.specs.Part.{part_term};

use sd_cut::{Window, windowed_base};
use sd_graph::{Item, Sdfg};
use sd_list::NoMemory;
use sd_mem::{End, Machine};
use sd_scope::Scope;
use sd_seq::run_item;
use std::alloc::Global;

/// Runs an item of a state from left to right, inside a machine's innermost memory; its containers are reached through windows.
pub(crate) fn run_over(
    alloc: Global,
    graph: &Sdfg,
    state: u32,
    values: &[i128],
    item: &Item,
    windows: &[Option<Window>],
    machine: &mut Machine,
) -> Result<End, NoMemory>
    requires leads { KindLeadsUpwards (item_tree item.now).1 }
    ensures { IfOk result (λ end. IsEnd (λ most. big_step (part_term (graph_tree graph.now) (reach_in (containers_of (graph_tree graph.now)) windows.now) state values.now (item_tree item.now).1 (item_tree item.now).0) most machine.old.memories machine.old.turns) machine.old end machine.new) }
{
    let base = windowed_base(alloc, graph, windows)?;
    let scope = Scope::at_state(alloc, state, values)?;
    run_item(alloc, item, graph, &base, &scope, machine)
}
