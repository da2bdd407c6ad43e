//! What stands behind a board's lock.
ghost use Rattle.std.specs.Prelude.{◌≡◌, ◌+◌, ◌<◌, ◌≤◌, ◌^◌, ℕ, length, IfOk, IfErr};
ghost use Rattle.sd_order.specs.table.Told.{told};
ghost use Rattle.sd_board.specs.Assignment.{IsEndOf, IsLikeOpening, HaveEnds};
ghost use Rattle.sd_board.specs.Boards as definition;

use crate::assigned::Assigned;
use crate::job::{Closed, FinishError, Job, Step};
use crate::progress::{Asked, Progress};
use sd_cut::Overlay;
use sd_list::NoMemory;
use sd_mem::Memory;
use sd_order::Order;
use sd_part::{Kept, PartEnd};
use std::alloc::Global;
use std::marker::Model;
use std::sync::ledger::{Book, Ledger, Share};

/// The progress of a board's pieces, the memory and the turns of those that are finished, and what stopped it.
#[derive(Drop)]
pub struct BoardState<A: Assigned + Ledger> {
    progress: Progress<A>,
    memory: Memory,
    turns: u64,
    stop: Option<Kept>,
    budget: u64,
}

impl<A: Assigned + Ledger> Model for BoardState<A> {
    ghost use Rattle.std.specs.Prelude.{◌≡◌};
    ghost use Rattle.sd_board.specs.Boards.{Board, IsFor};

    ghost Value = { Board };

    ghost view = { λ s. record { progress = s.progress; memory = s.memory; turns = s.turns; stop = s.stop } };

    ghost invariant = { λ s. (s.budget ≡ A.assignment.budget) × IsFor A.assignment (record { progress = s.progress; memory = s.memory; turns = s.turns; stop = s.stop }) };
}

/// Stops a board where it has more turns than its budget.
fn note_turns(budget: u64, turns: u64, stop: &mut Option<Kept>)
    ensures { stop.new ≡ definition.stop_after budget turns stop.old }
{
    if budget < turns {
        *stop = Some(Kept::Turns(turns));
    }
}

impl<A: Assigned + Ledger> BoardState<A> {
    /// A board on which nothing is begun: the items of at most 2^20 pieces in this order, the memory that the work opens with, and the budget of at most
    /// 2^40 turns. The memory comes back for want of memory.
    pub fn open(
        alloc: Global,
        items: Vec<u32>,
        order: Order,
        memory: Memory,
        budget: u64,
        book: Book<A>,
    ) -> Result<BoardState<A>, (NoMemory, Memory)>
        requires items { items.items ≡ definition.items_of A.assignment }
        requires few { length items.items ≤ 2 ^ 20 }
        requires order { (from to : ℕ) → told order from to ≡ A.assignment.work.before from to }
        requires memory { memory ≡ A.assignment.opening }
        requires like { IsLikeOpening A.assignment memory }
        requires budget { budget ≡ A.assignment.budget }
        requires small { budget ≤ 2 ^ 40 }
        requires ends { HaveEnds A.assignment }
        requires book { book.total ≡ 0 }
        ensures ok { IfOk result (λ state. state ≡ definition.opened items.items order memory) }
        ensures err { IfErr result (λ refused. refused.1 ≡ memory) }
    {
        match Progress::opened(alloc, items, order, book) {
            Err(_) => Err((NoMemory, memory)),
            Ok(progress) => Ok(BoardState {
                progress,
                memory,
                turns: 0,
                stop: None,
                budget,
            }),
        }
    }

    /// The memory after the pieces that are finished.
    pub fn memory(&self) -> &Memory
        ensures is { result.now ≡ self.now.memory }
        ensures like { IsLikeOpening A.assignment self.now.memory }
    {
        &self.memory
    }

    /// What a worker has to do: the first piece that is to begin and for which all pieces of the items before its item are finished. It waits where there
    /// is none yet; nothing is left to do where all are finished or the board is stopped.
    pub fn take_step(&mut self) -> Step
        ensures step { definition.IsStep self.old result self.new }
        ensures there { definition.IsOf A.assignment (definition.told_by result) }
    {
        if self.stop.is_some() {
            return Step::Over;
        }
        match self.progress.ask() {
            Asked::Begin(number) => Step::Job(Job { number }),
            Asked::Wait => Step::Wait,
            Asked::Over => Step::Over,
        }
    }

    /// Finishes a job whose piece ended so on what was cut for it. A piece that is done enters the history, its effects go into the memory, and the share counts it; more turns
    /// than the budget stop the board. A piece that is stopped stops the board. It is refused exactly where the piece is not in work, or the memory has not any more
    /// what was there at the cut; or for want of memory. Then nothing changes, and all is handed back.
    pub fn finish_step(
        &mut self,
        share: &mut Share<A>,
        job: Job,
        cut: Overlay,
        end: PartEnd,
    ) -> Result<(), (FinishError, Job, Overlay, PartEnd)>
        requires share { 0 < share.old.parts }
        requires end { IsEndOf A.assignment job.number cut end }
        ensures finish { definition.IsFinish A.assignment.budget self.old job cut end result self.new }
        ensures parts { share.new.parts ≡ share.old.parts }
        ensures amount { share.new.amount ≡ share.old.amount + definition.count_added end result }
    {
        if !self.progress.is_in_work(job.number) || !cut.agrees(&self.memory) {
            return Err((FinishError::NotInWork, job, cut, end));
        }
        match end {
            PartEnd::Stopped(kept) => {
                let Job { number: _ } = job;
                self.stop = Some(kept);
                Ok(())
            }
            PartEnd::Done(spent) => {
                if let Err((_, cut)) = cut.commit(&mut self.memory) {
                    return Err((FinishError::Memory, job, cut, PartEnd::Done(spent)));
                }
                let Job { number } = job;
                self.progress.finish(share, number);
                self.turns += spent;
                note_turns(self.budget, self.turns, &mut self.stop);
                Ok(())
            }
        }
    }

    /// Takes a job back: its piece is to begin again, where it was in work.
    pub fn give_back_step(&mut self, job: Job)
        ensures { definition.IsReturn self.old job.number self.new }
    {
        let Job { number } = job;
        if self.progress.is_in_work(number) {
            self.progress.give_back(number);
        }
    }

    /// Closes a board. A share with all parts has counted its history.
    pub fn close(self, all: &mut Share<A>) -> Closed
        requires { all.old.parts ≡ A.parts }
        ensures closed { definition.IsClosed A.assignment result }
        ensures is { (result.memory ≡ self.memory) × (result.history.items ≡ self.progress.history) × (result.turns ≡ self.turns) × (result.stopped ≡ self.stop) }
        ensures counted { length result.history.items ≡ all.old.amount }
    {
        let BoardState {
            progress,
            memory,
            turns,
            stop,
            budget: _,
        } = self;
        let (history, is_whole) = progress.close(all);
        Closed {
            memory,
            history,
            is_whole,
            turns,
            stopped: stop,
        }
    }
}
