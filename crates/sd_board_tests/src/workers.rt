ghost use Rattle.std.specs.Prelude.{◌≡◌};
ghost use Rattle.sd_board_tests.specs.Small.{small};

use crate::steps::{cut_nothing, open_small};
use sd_board::{Assigned, Board, Closed, Opening, Pieces, Taken, run_board};
use sd_cut::Overlay;
use sd_io::{Gate, Open};
use sd_list::NoMemory;
use sd_mem::Memory;
use sd_order::Order;
use sd_part::PartEnd;
use std::alloc::Global;
use std::marker::{Brand, Model, PhantomData};
use std::sync::Wait;
use std::sync::ledger::{Blank, Ledger};
use std::test::Fail;
use std::thread::Threads;

/// The pieces of the small board: they have nothing to do.
#[derive(Drop)]
struct Idle<A: Assigned> {
    alloc: Global,
    of: PhantomData<A>,
}

impl<A: Assigned> Model for Idle<A> {
    ghost use Rattle.std.specs.Prelude.{◌≡◌, ℕ};
    ghost use Rattle.sd_board_tests.specs.Small.{small};

    ghost Value = { ℕ };

    ghost view = { λ idle. 0 };

    ghost invariant = { λ idle. A.assignment ≡ small };
}

impl<A: Assigned> Pieces<A> for Idle<A> {
    ghost use Rattle.sd_board_tests.specs.Small.{ChangesNothing};

    type Cut = Overlay;

    ghost is_cut = { λ idle number cut. ChangesNothing cut };

    fn cut(&self, _number: usize, _memory: &Memory) -> Result<Overlay, NoMemory> {
        cut_nothing(self.alloc)
    }

    fn run(&self, _number: usize, cut: Overlay) -> Result<(Overlay, PartEnd), NoMemory> {
        let _opened = self.alloc;
        Ok((cut, PartEnd::Done(0)))
    }
}

/// Three threads do the small board, behind a gate.
fn do_small<A: Assigned + Ledger + Sync + Send, R: Threads + Wait + Sync, G: Gate + Sync + Send>(
    rt: &R,
    alloc: Global,
    blank: Blank,
    gate: &G,
) -> Result<Closed, Fail>
    requires assignment { A.assignment ≡ small }
    requires name { blank.name ≡ A.name }
    requires parts { blank.parts ≡ A.parts }
    requires three { blank.parts ≡ 3 }
{
    let opening = Opening {
        items: vec![in alloc; 0, 0, 1]?,
        order: Order {
            count: 2,
            table: vec![in alloc; false, false, true, false]?,
        },
        memory: Memory::empty(alloc),
        budget: 7,
    };
    let idle = Idle::<A> {
        alloc,
        of: PhantomData,
    };
    match run_board::<A, R, Idle<A>, G>(rt, alloc, blank, opening, &idle, gate, 3) {
        Ok(closed) => Ok(closed),
        Err(_) => Err(Fail::new("no board")),
    }
}

#[test]
fn three_threads_do_all_pieces_of_a_board(rt: HostRuntime) -> Result<(), Fail> {
    let closed = do_small::<Brand, HostRuntime, Open>(&rt, rt.alloc(), Blank::new(3), &Open)?;
    assert!(&rt; closed.is_whole && closed.history.len() == 3 && closed.history[2] == 2);
    assert!(&rt; closed.turns == 0 && closed.stopped.is_none());
    Ok(())
}

/// Takes a piece and gives it back, and tells its number, if there was one.
fn give_back_taken<A: Assigned + Ledger, R: Wait>(
    rt: &R,
    board: &Board<A>,
    idle: &Idle<A>,
) -> Option<usize> {
    match board.take(rt, idle) {
        Ok(Taken::Job(job, _cut)) => {
            let number = job.number();
            board.give_back(rt, job);
            Some(number)
        }
        Ok(Taken::Over) => None,
        Err(_) => None,
    }
}

/// Takes the same piece twice, and gives it back each time; then closes the board.
fn take_twice<A: Assigned + Ledger, R: Wait>(
    rt: &R,
    alloc: Global,
    blank: Blank,
) -> Result<(Option<usize>, Option<usize>, Closed), Fail>
    requires assignment { A.assignment ≡ small }
    requires name { blank.name ≡ A.name }
    requires parts { blank.parts ≡ A.parts }
{
    let (book, all) = blank.open::<A>();
    let board = Board::new(open_small(alloc, book)?);
    let idle = Idle::<A> {
        alloc,
        of: PhantomData,
    };
    let first = give_back_taken(rt, &board, &idle);
    let second = give_back_taken(rt, &board, &idle);
    Ok((first, second, board.close(Vec::new(alloc), all)))
}

#[test]
fn a_piece_that_is_given_back_is_taken_again(rt: HostRuntime) -> Result<(), Fail> {
    let (first, second, closed) = take_twice::<Brand, HostRuntime>(&rt, rt.alloc(), Blank::new(1))?;
    assert!(&rt; first == Some(0) && second == Some(0));
    assert!(&rt; closed.history.is_empty() && !closed.is_whole);
    Ok(())
}
