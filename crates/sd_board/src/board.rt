//! A board that workers share: its state behind a lock, on whose changes they wait.
ghost use Rattle.std.specs.Prelude.{◌≡◌, ℕ, ◌+◌, ◌<◌, ◌≤◌, ◌^◌, All, sum_by, length, vec_len, IfOk, IfErr};
ghost use Rattle.sd_order.specs.table.Told.{told};
ghost use Rattle.sd_board.specs.Assignment.{HaveEnds, IsEndOf, IsLikeOpening};
ghost use Rattle.sd_board.specs.Boards as definition;
ghost use Rattle.sd_board.specs.declared.job.FinishError.TheVariants.{Memory as OutOfMemory};
ghost use Rattle.sd_board.specs.Taking.{IsCutBy};

use crate::assigned::Assigned;
use crate::job::{Closed, FinishError, Job, Step};
use crate::pieces::Pieces;
use crate::state::BoardState;
use sd_cut::Overlay;
use sd_io::Gate;
use sd_list::NoMemory;
use sd_mem::Memory;
use sd_order::Order;
use sd_part::PartEnd;
use std::alloc::Global;
use std::sync::ledger::{Blank, Ledger, Share};
use std::sync::{Condvar, Mutex, Wait};
use std::thread;
use std::thread::Threads;

/// What a worker is given.
pub enum Taken<T> {
    /// A piece to do, with what was cut for it.
    Job(Job, T),
    /// Nothing is left to do.
    Over,
}

/// What a board opens with.
#[derive(Drop)]
pub struct Opening {
    /// The number of the item of each piece; at most 2^20.
    pub items: Vec<u32>,
    /// Which items are before which.
    pub order: Order,
    pub memory: Memory,
    /// How many turns all pieces may take together; at most 2^40.
    pub budget: u64,
}

/// A board that workers share.
#[derive(Drop)]
pub struct Board<A: Assigned + Ledger> {
    state: Mutex<BoardState<A>>,
    changed: Condvar,
}

impl<A: Assigned + Ledger> Board<A> {
    /// A board on which nothing is begun.
    pub fn new(state: BoardState<A>) -> Board<A> {
        Board {
            state: Mutex::new(state),
            changed: Condvar::new(),
        }
    }

    /// Takes a piece and what is cut for it, and waits where there is none yet. For want of memory the piece is given back.
    pub fn take<R: Wait, P: Pieces<A>>(&self, rt: &R, pieces: &P) -> Result<Taken<P::Cut>, NoMemory>
        ensures { IfOk result (IsCutBy (P.is_cut pieces.now)) }
    {
        let mut state = self.state.lock(rt);
        for _ in rt.forever() {
            match state.take_step() {
                Step::Over => return Ok(Taken::Over),
                Step::Wait => state = self.changed.wait(rt, state),
                Step::Job(job) => match pieces.cut(job.number, state.memory()) {
                    Ok(cut) => return Ok(Taken::Job(job, cut)),
                    Err(refusal) => {
                        state.give_back_step(job);
                        self.changed.notify_all();
                        return Err(refusal);
                    }
                },
            }
        }
        unreachable!()
    }

    /// Finishes a job whose piece ended so on what was cut for it, or hands all back. Only a piece that is done may want memory.
    pub fn finish<R: Wait>(
        &self,
        rt: &R,
        share: &mut Share<A>,
        job: Job,
        cut: Overlay,
        end: PartEnd,
    ) -> Result<(), (FinishError, Job, Overlay, PartEnd)>
        requires share { 0 < share.old.parts }
        requires end { IsEndOf A.assignment job.number cut end }
        ensures handed_back { IfErr result (λ refused. (refused.1 ≡ job) × (refused.2 ≡ cut) × (refused.3 ≡ end)) }
        ensures memory { IfErr result (λ refused. refused.0 ≡ OutOfMemory → definition.count_of end ≡ 1) }
        ensures parts { share.new.parts ≡ share.old.parts }
        ensures amount { share.new.amount ≡ share.old.amount + definition.count_added end result }
    {
        let done = self.state.lock(rt).finish_step(share, job, cut, end);
        self.changed.notify_all();
        done
    }

    /// Gives a job back behind the lock, as `BoardState::give_back_step` tells.
    pub fn give_back<R: Wait>(&self, rt: &R, job: Job) {
        self.state.lock(rt).give_back_step(job);
        self.changed.notify_all();
    }

    /// Closes a board. The shares of its workers, with what is left of them all, have counted its history.
    pub fn close(self, shares: Vec<Share<A>>, left: Share<A>) -> Closed
        requires { left.parts + sum_by (λ s. s.parts) shares.items ≡ A.parts }
        ensures closed { definition.IsClosed A.assignment result }
        ensures counted { length result.history.items ≡ left.amount + sum_by (λ s. s.amount) shares.items }
    {
        let mut all = merged(shares, left);
        self.state.into_inner().close(&mut all)
    }
}

/// A share with all that these have.
fn merged<A: Ledger>(shares: Vec<Share<A>>, left: Share<A>) -> Share<A>
    ensures parts { result.parts ≡ left.parts + sum_by (λ s. s.parts) shares.items }
    ensures amount { result.amount ≡ left.amount + sum_by (λ s. s.amount) shares.items }
{
    let mut all = left;
    for share in shares {
        all.merge(share);
    }
    all
}

/// Does a job, and tells whether it was finished; one that is not is given back.
fn do_job<A: Assigned + Ledger, R: Wait, P: Pieces<A>, G: Gate + Sync>(
    rt: &R,
    board: &Board<A>,
    pieces: &P,
    gate: &G,
    share: &mut Share<A>,
    job: Job,
    cut: P::Cut,
) -> bool
    requires share { 0 < share.old.parts }
    requires cut { P.is_cut pieces.now job.number cut }
    ensures { share.new.parts ≡ share.old.parts }
{
    gate.pass(job.number as u64);
    match pieces.run(job.number, cut) {
        Err(_) => {
            board.give_back(rt, job);
            false
        }
        Ok((cut, end)) => match board.finish(rt, share, job, cut, end) {
            Ok(()) => true,
            Err((_, job, _, _)) => {
                board.give_back(rt, job);
                false
            }
        },
    }
}

/// A worker: it takes, does and finishes pieces until nothing is left, or until it finds no memory or may not finish one, which it gives back.
fn work<A: Assigned + Ledger, R: Wait, P: Pieces<A>, G: Gate + Sync>(
    rt: &R,
    board: &Board<A>,
    pieces: &P,
    gate: &G,
    share: &mut Share<A>,
)
    requires { share.old.parts ≡ 1 }
    ensures { share.new.parts ≡ 1 }
{
    for _ in rt.forever() {
        match board.take(rt, pieces) {
            Err(_) => return,
            Ok(Taken::Over) => return,
            Ok(Taken::Job(job, cut)) => {
                if !do_job(rt, board, pieces, gate, share, job, cut) {
                    return;
                }
            }
        }
    }
    unreachable!()
}

/// The workers, on as many threads as the runtime makes.
fn work_all<
    A: Assigned + Ledger + Sync + Send,
    R: Threads + Wait + Sync,
    P: Pieces<A> + Sync + Send,
    G: Gate + Sync + Send,
>(rt: &R, board: &Board<A>, pieces: &P, gate: &G, shares: &mut Vec<Share<A>>, workers: usize)
    requires workers { 0 < workers }
    requires parts { All (λ s. s.parts ≡ 1) shares.old.items }
    ensures parts { All (λ s. s.parts ≡ 1) shares.new.items }
    ensures count { vec_len shares.new ≡ vec_len shares.old }
{
    let turn = |_: usize, share: &mut Share<A>|
        requires { share.old.parts ≡ 1 }
        ensures { share.new.parts ≡ 1 }
    { work(rt, board, pieces, gate, share) };
    thread::for_each_mut(rt, shares.as_mut_slice(), workers, &turn);
}

/// A share for each worker.
fn shares_of<A: Ledger>(
    alloc: Global,
    all: &mut Share<A>,
    workers: usize,
) -> Result<Vec<Share<A>>, NoMemory>
    requires parts { all.old.parts ≡ workers }
    requires amount { all.old.amount ≡ 0 }
    ensures parts { IfOk result (λ shares. (all.new.parts ≡ 0) × (vec_len shares ≡ workers) × All (λ s. s.parts ≡ 1) shares.items) }
    ensures amount { IfOk result (λ shares. all.new.amount ≡ 0) }
{
    let mut shares = Vec::new(alloc);
    for _i in 0..workers {
        shares.push(all.split_off(1, 0))?;
    }
    Ok(shares)
}

/// Does the pieces of a board by so many workers, who pass a gate before each. Where workers were stopped, or found no memory, the closed board
/// has pieces left, and tells so. Where no board is opened for want of memory, the opening memory comes back.
pub fn run_board<
    A: Assigned + Ledger + Sync + Send,
    R: Threads + Wait + Sync,
    P: Pieces<A> + Sync + Send,
    G: Gate + Sync + Send,
>(
    rt: &R,
    alloc: Global,
    blank: Blank,
    opening: Opening,
    pieces: &P,
    gate: &G,
    workers: usize,
) -> Result<Closed, (NoMemory, Memory)>
    requires name { blank.name ≡ A.name }
    requires parts { blank.parts ≡ A.parts }
    requires workers { 0 < workers }
    requires one_each { blank.parts ≡ workers }
    requires items { opening.items.items ≡ definition.items_of A.assignment }
    requires few { length opening.items.items ≤ 2 ^ 20 }
    requires order { (from to : ℕ) → told opening.order from to ≡ A.assignment.work.before from to }
    requires memory { opening.memory ≡ A.assignment.opening }
    requires like { IsLikeOpening A.assignment opening.memory }
    requires budget { opening.budget ≡ A.assignment.budget }
    requires small { opening.budget ≤ 2 ^ 40 }
    requires ends { HaveEnds A.assignment }
    ensures ok { IfOk result (definition.IsClosed A.assignment) }
    ensures err { IfErr result (λ refused. refused.1 ≡ opening.memory) }
{
    let Opening {
        items,
        order,
        memory,
        budget,
    } = opening;
    let (book, mut all) = blank.open::<A>();
    let mut shares = match shares_of(alloc, &mut all, workers) {
        Ok(shares) => shares,
        Err(refusal) => return Err((refusal, memory)),
    };
    let state = match BoardState::open(alloc, items, order, memory, budget, book) {
        Ok(state) => state,
        Err(refused) => return Err(refused),
    };
    let board = Board::new(state);
    work_all(rt, &board, pieces, gate, &mut shares, workers);
    Ok(board.close(shares, all))
}
