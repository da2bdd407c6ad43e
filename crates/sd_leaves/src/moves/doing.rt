ghost use Rattle.std.specs.Prelude.{◌≡◌, IfOk, OnErr};
ghost use Rattle.sd_work.specs.Leaf.{is_done};
ghost use Rattle.sd_work.specs.LeafMove.{leaf_move};
ghost use Rattle.sd_graph.specs.TreeFold.{graph_tree};
ghost use Rattle.sd_graph.specs.Context.{place_at};
ghost use Rattle.sd_scope.specs.scope.Standing.{context_of};
ghost use Rattle.sd_leaves.specs.moves.Left.{doing_left};
ghost use Rattle.sd_leaves.specs.moves.Moved.{IsMoved};

use crate::moves::todo::{Todo, perform};
use sd_graph::{FaultKind, Sdfg};
use sd_list::NoMemory;
use sd_mem::{End, Machine};
use sd_scope::{Base, Scope, place_of};
use std::alloc::Global;

/// Things to do one after another, and how many of them are done.
#[derive(Drop)]
pub struct Doing {
    pub todo: Vec<Todo>,
    pub done: usize,
}

impl Doing {
    /// Whether nothing is left to do.
    pub fn is_done(&self) -> bool
        ensures { result ≡ is_done (doing_left self.now) }
    {
        self.done >= self.todo.len()
    }

    /// The next move, in a line where a scope stands: the next thing is done. Where nothing is left nothing is changed.
    pub fn step(
        &mut self,
        alloc: Global,
        line: u32,
        graph: &Sdfg,
        base: &Base,
        scope: &Scope,
        machine: &mut Machine,
    ) -> Result<End, NoMemory>
        ensures moved { IfOk result (λ end. IsMoved (leaf_move (place_at (context_of (graph_tree graph.now) base.now scope.now) line) (doing_left self.old) machine.old.memories) (doing_left self.old) machine.old end machine.new (doing_left self.new)) }
        ensures refused { OnErr result (self.new ≡ self.old) }
    {
        if self.done >= self.todo.len() {
            return Ok(End::Finished);
        }
        if perform(self.todo[self.done], machine)? {
            self.done += 1;
            return Ok(End::Finished);
        }
        let place = place_of(alloc, graph, base, scope, line)?;
        Ok(End::Fault(place, FaultKind::Subscript))
    }
}
