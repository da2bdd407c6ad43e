ghost use Rattle.std.specs.Prelude.{◌≡◌, ◌<◌, List, Option, true, length, nat_lt, option_map, IfOk, OnErr};
ghost use Rattle.sd_work.specs.Memory.{Reference, seen};
ghost use Rattle.sd_work.specs.Leaf.{Leaf, Evaluation, reading, is_done};
ghost use Rattle.sd_work.specs.LeafMove.{leaf_move, read_move, evaluation_move};
ghost use Rattle.sd_work.specs.Settle.{is_empty};
ghost use Rattle.sd_graph.specs.PlainTree.{TaskletTree};
ghost use Rattle.sd_graph.specs.TreeFold.{graph_tree, tasklet_tree};
ghost use Rattle.sd_graph.specs.Context.{place_at};
ghost use Rattle.sd_graph.specs.Unfold.{task_of};
ghost use Rattle.sd_graph.specs.declared.link.Link.{Link as LinkNow};
ghost use Rattle.sd_mem.specs.machine.Stack.{reference_of};
ghost use Rattle.sd_scope.specs.scope.Standing.{context_of};
ghost use Rattle.sd_leaves.specs.leaves.Done.{evaluation_of};
ghost use Rattle.sd_leaves.specs.moves.Left.{instance_left, reading_left};
ghost use Rattle.sd_leaves.specs.moves.Moved.{IsMoved};
ghost use Rattle.sd_leaves.specs.moves.Evaluated.{IsEvaluated, IsCounted};

use crate::moves::begin::cells_of_links;
use crate::moves::doing::Doing;
use crate::moves::effects::effects_of;
use crate::moves::todo::Todo;
use sd_graph::{FaultKind, Link, Sdfg, Tasklet};
use sd_list::NoMemory;
use sd_mem::{Address, End, Machine};
use sd_scope::{Base, Scope, place_of};
use std::alloc::Global;

/// The elements that an instance reads, and the values of the first ones, which were read. Behind the last one it evaluates.
#[derive(Drop)]
pub struct Reading {
    pub cells: Vec<Option<Address>>,
    pub values: Vec<i64>,
}

/// What an instance of a tasklet has still to do.
#[derive(Drop)]
pub enum Instance {
    /// Its reads, and its evaluation.
    Reading(Reading),
    /// Its effects.
    Doing(Doing),
}

impl Reading {
    /// Whether an element is left to read.
    fn has_more(&self) -> bool
        ensures { result ≡ nat_lt (length self.now.values.items) (length self.now.cells.items) }
    {
        self.values.len() < self.cells.len()
    }

    /// Reads the next element, in a line where a scope stands.
    fn read(
        &mut self,
        alloc: Global,
        line: u32,
        graph: &Sdfg,
        base: &Base,
        scope: &Scope,
        machine: &mut Machine,
    ) -> Result<End, NoMemory>
        requires left { length self.old.values.items < length self.old.cells.items }
        ensures moved { IfOk result (λ end. (evaluation : Evaluation) → IsMoved (leaf_move (place_at (context_of (graph_tree graph.now) base.now scope.now) line) (reading_left evaluation self.old) machine.old.memories) (reading_left evaluation self.old) machine.old end machine.new (reading_left evaluation self.new)) }
        ensures refused { OnErr result ((evaluation : Evaluation) → reading_left evaluation self.new ≡ reading_left evaluation self.old) }
    {
        let cell = self.cells[self.values.len()];
        read(
            alloc,
            cell,
            &mut self.values,
            line,
            graph,
            base,
            scope,
            machine,
        )
    }
}

impl Instance {
    /// One that has not begun, with these inputs, where a scope stands.
    pub fn new(
        alloc: Global,
        ins: &[Link],
        graph: &Sdfg,
        base: &Base,
        scope: &Scope,
    ) -> Result<Instance, NoMemory>
        ensures { IfOk result (λ instance. (code : TaskletTree) (outs : List LinkNow) → instance_left (evaluation_of (context_of (graph_tree graph.now) base.now scope.now) code ins.now outs) instance ≡ task_of (context_of (graph_tree graph.now) base.now scope.now) code ins.now outs) }
    {
        let cells = cells_of_links(alloc, ins, graph, base, scope)?;
        let values = Vec::new(alloc);
        Ok(Instance::Reading(Reading { cells, values }))
    }

    /// Whether nothing is left to do.
    pub fn is_done(&self) -> bool
        ensures { (evaluation : Evaluation) → result ≡ is_done (instance_left evaluation self.now) }
    {
        match self {
            Instance::Reading(_) => false,
            Instance::Doing(doing) => doing.is_done(),
        }
    }

    /// The next move of an instance of this code, with these connectors, in a line where a scope stands: it reads an element,
    /// evaluates, or performs an effect; the first one spends a turn. Where nothing is left nothing is changed.
    pub fn step(
        &mut self,
        alloc: Global,
        code: &Tasklet,
        ins: &[Link],
        outs: &[Link],
        line: u32,
        graph: &Sdfg,
        base: &Base,
        scope: &Scope,
        machine: &mut Machine,
    ) -> Result<End, NoMemory>
        ensures moved { IfOk result (λ end. IsMoved (leaf_move (place_at (context_of (graph_tree graph.now) base.now scope.now) line) (instance_left (evaluation_of (context_of (graph_tree graph.now) base.now scope.now) (tasklet_tree code.now) ins.now outs.now) self.old) machine.old.memories) (instance_left (evaluation_of (context_of (graph_tree graph.now) base.now scope.now) (tasklet_tree code.now) ins.now outs.now) self.old) machine.old end machine.new (instance_left (evaluation_of (context_of (graph_tree graph.now) base.now scope.now) (tasklet_tree code.now) ins.now outs.now) self.new)) }
        ensures refused { OnErr result ((evaluation : Evaluation) → instance_left evaluation self.new ≡ instance_left evaluation self.old) }
    {
        let reading = match self {
            Instance::Doing(doing) => return doing.step(alloc, line, graph, base, scope, machine),
            Instance::Reading(reading) => reading,
        };
        if reading.has_more() {
            return reading.read(alloc, line, graph, base, scope, machine);
        }
        let values = reading.values.as_slice();
        let evaluated = evaluate(
            alloc, code, ins, outs, line, graph, base, scope, values, machine,
        )?;
        match evaluated {
            Ok(todo) => {
                *self = Instance::Doing(Doing { todo, done: 0 });
                Ok(End::Finished)
            }
            Err(end) => Ok(end),
        }
    }
}

/// Reads the next element, behind those that have these values, in a line where a scope stands.
fn read(
    alloc: Global,
    cell: Option<Address>,
    values: &mut Vec<i64>,
    line: u32,
    graph: &Sdfg,
    base: &Base,
    scope: &Scope,
    machine: &mut Machine,
) -> Result<End, NoMemory>
    ensures moved { IfOk result (λ end. (old : Leaf) (left : List (Option Reference)) (evaluation : Evaluation) → IsMoved (read_move (place_at (context_of (graph_tree graph.now) base.now scope.now) line) (is_empty values.old.items) (seen (option_map reference_of cell) machine.old.memories) left values.old.items evaluation) old machine.old end machine.new (reading true left values.new.items evaluation)) }
    ensures counted { IfOk result (λ end. IsCounted end values.old.items values.new.items) }
    ensures refused { OnErr result (values.new.items ≡ values.old.items) }
{
    let wanted = values.is_empty();
    let Some(cell) = cell else {
        let place = place_of(alloc, graph, base, scope, line)?;
        if machine.pay(wanted) {
            return Ok(End::Fault(place, FaultKind::Subscript));
        }
        return Ok(End::OutOfTurns);
    };
    values.push(machine.look(cell))?;
    if machine.pay(wanted) {
        return Ok(End::Finished);
    }
    Ok(End::OutOfTurns)
}

/// Evaluates the values that were read, in a line where a scope stands: what is then to do, or how the work ends.
fn evaluate(
    alloc: Global,
    code: &Tasklet,
    ins: &[Link],
    outs: &[Link],
    line: u32,
    graph: &Sdfg,
    base: &Base,
    scope: &Scope,
    values: &[i64],
    machine: &mut Machine,
) -> Result<Result<Vec<Todo>, End>, NoMemory>
    ensures { IfOk result (IsEvaluated (evaluation_move (place_at (context_of (graph_tree graph.now) base.now scope.now) line) (is_empty values.now) (evaluation_of (context_of (graph_tree graph.now) base.now scope.now) (tasklet_tree code.now) ins.now outs.now values.now)) machine.old machine.new) }
{
    let wanted = values.is_empty();
    match effects_of(alloc, code, ins, outs, graph, base, scope, values)? {
        Ok(todo) => {
            if machine.pay(wanted) {
                return Ok(Ok(todo));
            }
            Ok(Err(End::OutOfTurns))
        }
        Err(kind) => {
            let place = place_of(alloc, graph, base, scope, line)?;
            if machine.pay(wanted) {
                return Ok(Err(End::Fault(place, kind)));
            }
            Ok(Err(End::OutOfTurns))
        }
    }
}
