ghost use Rattle.std.specs.Prelude.{IfOk};
ghost use Rattle.sd_work.specs.LeafMove.{leaf_move};
ghost use Rattle.sd_graph.specs.TreeFold.{graph_tree, kind_tree};
ghost use Rattle.sd_graph.specs.Context.{place_at};
ghost use Rattle.sd_scope.specs.scope.Standing.{context_of};
ghost use Rattle.sd_leaves.specs.moves.Left.{instance_left};
ghost use Rattle.sd_leaves.specs.moves.Moved.{IsMoved};
ghost use Rattle.sd_left.specs.tree.Evaluated.{evaluation_in};

use sd_graph::{ItemKind, Sdfg};
use sd_leaves::Instance;
use sd_list::NoMemory;
use sd_mem::{End, Machine};
use sd_scope::{Base, Scope};
use std::alloc::Global;

/// The next move of an instance of an item.
pub(crate) fn fire_instance(
    alloc: Global,
    instance: &mut Instance,
    kind: &ItemKind,
    line: u32,
    graph: &Sdfg,
    base: &Base,
    scope: &Scope,
    machine: &mut Machine,
) -> Result<End, NoMemory>
    ensures { IfOk result (λ end. IsMoved (leaf_move (place_at (context_of (graph_tree graph.now) base.now scope.now) line) (instance_left (evaluation_in (kind_tree kind.now) (context_of (graph_tree graph.now) base.now scope.now)) instance.old) machine.old.memories) (instance_left (evaluation_in (kind_tree kind.now) (context_of (graph_tree graph.now) base.now scope.now)) instance.old) machine.old end machine.new (instance_left (evaluation_in (kind_tree kind.now) (context_of (graph_tree graph.now) base.now scope.now)) instance.new)) }
{
    match kind {
        ItemKind::Task { code, ins, outs } => {
            instance.step(alloc, code, ins, outs, line, graph, base, scope, machine)
        }
        _ => Err(NoMemory),
    }
}
