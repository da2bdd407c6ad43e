ghost use Rattle.std.specs.Prelude.{◌≡◌, ◌<◌, ◌↔◌, [], zero, length, true, IfOk, OnOk, OnErr};
ghost use Rattle.sd_work.specs.Residual.{finished};
ghost use Rattle.sd_work.specs.Step.{opening, next_moves};
ghost use Rattle.sd_work.specs.Run.{memory_of};
ghost use Rattle.sd_graph.specs.TreeFold.{graph_tree};
ghost use Rattle.sd_graph.specs.Unfold.{run_of};
ghost use Rattle.sd_core.specs.Kept.{machine_of};
ghost use Rattle.sd_core.specs.Released.{IsReleased};
ghost use Rattle.sd_core.specs.Stepped.{IsStepped};

use crate::release::release_run;
use crate::stepped::Stepped;
use sd_fire::{begin_run, fire_run, settle_run};
use sd_graph::{Bound, Sdfg};
use sd_left::{Run, moves_of_run, place_in_run};
use sd_list::NoMemory;
use sd_mem::{End, Machine as Stack, Memory};
use sd_scope::Base;
use std::alloc::Global;
use std::marker::Model;

/// What is left of a run of a graph, and the turns that are left. Behind a step with a fault, without turns or without memory
/// nothing is kept: the machine has no next move.
#[derive(Drop)]
pub struct Machine<'a> {
    graph: &'a Sdfg,
    base: Base,
    run: Option<Run>,
    /// Where the last move was.
    place: Vec<usize>,
    /// Of memories it has none between steps.
    stack: Stack,
}

impl<'a> Model for Machine<'a> {
    ghost use Rattle.std.specs.Coded.{codes};
    ghost use Rattle.sd_graph.specs.contracts.graph.Sdfg as graphs;
    ghost use Rattle.sd_left.specs.contracts.left.left.Run as runs;
    ghost use Rattle.sd_core.specs.Kept.{Kept, kept_of, IsKept};

    ghost Value = { Kept };

    ghost coded = { Prim.hlevel (codes, graphs.the_row.coded, runs.the_row.coded) };

    ghost view = { kept_of };

    ghost invariant = { IsKept };
}

impl<'a> Machine<'a> {
    /// A run of a graph over a memory that begins, with so many turns.
    pub fn new(
        alloc: Global,
        bound: &'a Bound,
        memory: Memory,
        turns: u64,
    ) -> Result<Machine<'a>, NoMemory>
        ensures { IfOk result (λ machine. machine_of machine ≡ opening (run_of (graph_tree bound.now.graph) memory.contents) turns) }
    {
        let graph = &bound.graph;
        let base = Base::outermost(alloc);
        let mut none = Memory::empty(alloc);
        let mut stack = Stack::new(alloc, Memory::empty(alloc), turns)?;
        stack.give_back(&mut none);
        let mut run = begin_run(alloc, graph, &base, memory, &mut stack)?;
        settle_run(alloc, &mut run, &mut stack)?;
        Ok(Machine {
            graph,
            base,
            run: Some(run),
            place: Vec::new(alloc),
            stack,
        })
    }

    /// How many moves come next: none exactly where nothing is left.
    pub fn moves(&self) -> u64
        ensures moves { result ≡ length (next_moves (machine_of self.now)) }
        ensures none { (result ≡ zero) ↔ (finished (machine_of self.now).term ≡ true) }
    {
        match &self.run {
            Some(run) => moves_of_run(run),
            None => 0,
        }
    }

    /// Makes the next move whose number is the pick modulo the number of moves.
    pub fn step(&mut self, alloc: Global, pick: u64) -> Result<Stepped, NoMemory>
        requires { zero < length (next_moves (machine_of self.old)) }
        ensures stepped { IfOk result (λ stepped. IsStepped (machine_of self.old) pick stepped (machine_of self.new)) }
        ensures wanted { OnErr result (next_moves (machine_of self.new) ≡ []) }
    {
        let moves = self.moves();
        let Some(mut run) = self.run.take() else {
            return Err(NoMemory);
        };
        let place = place_in_run(alloc, &run, pick % moves)?;
        match fire_run(
            alloc,
            &mut run,
            &place,
            self.graph,
            &self.base,
            &mut self.stack,
        )? {
            End::Finished => {}
            End::Fault(place, kind) => return Ok(Stepped::Fault(place, kind)),
            End::OutOfTurns => return Ok(Stepped::Spent),
        }
        settle_run(alloc, &mut run, &mut self.stack)?;
        let left = moves_of_run(&run);
        self.run = Some(run);
        self.place = place;
        if left == 0 {
            return Ok(Stepped::Done);
        }
        Ok(Stepped::Moved)
    }

    /// Lets go of what the point or element holds that the last step finished: its private containers, and all that is kept of its
    /// items. Nothing looks at it any more. One in which a consume scope is open keeps all.
    pub fn release(&mut self, alloc: Global) -> Result<(), NoMemory>
        ensures released { OnOk result (IsReleased (machine_of self.old).term (machine_of self.new).term) }
        ensures turns { (machine_of self.new).turns ≡ (machine_of self.old).turns }
        ensures wanted { OnErr result (next_moves (machine_of self.new) ≡ []) }
    {
        let Some(mut run) = self.run.take() else {
            return Ok(());
        };
        release_run(alloc, &mut run, self.place.as_slice())?;
        self.run = Some(run);
        Ok(())
    }

    /// How many turns are left.
    pub fn turns(&self) -> u64
        ensures { result ≡ (machine_of self.now).turns }
    {
        self.stack.turns()
    }

    /// The memory of the run.
    pub fn into_memory(self) -> Memory
        ensures { result.contents ≡ memory_of (machine_of self.entry).term }
    {
        let Machine { run, stack, .. } = self;
        match run {
            Some(run) => run.body.own,
            None => stack.into_memory(),
        }
    }
}
