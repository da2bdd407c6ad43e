ghost use Rattle.std.specs.Prelude.{◌≡◌, ◌<◌, IfOk};
ghost use Rattle.sd_board_tests.specs.Small.{small, ChangesNothing};

use sd_board::{Assigned, BoardState, Closed, Job, Step};
use sd_cut::Overlay;
use sd_list::NoMemory;
use sd_mem::Memory;
use sd_order::Order;
use sd_part::PartEnd;
use std::alloc::Global;
use std::marker::Brand;
use std::sync::ledger::{Blank, Book, Ledger, Share};
use std::test::Fail;

/// A cut of nothing.
pub(crate) fn cut_nothing(alloc: Global) -> Result<Overlay, NoMemory>
    ensures { IfOk result ChangesNothing }
{
    match Overlay::cut(alloc, &Memory::empty(alloc), Vec::new(alloc), &[]) {
        Ok(cut) => Ok(cut),
        Err(_) => Err(NoMemory),
    }
}

/// Three pieces of two items, of which the first is before the second.
pub(crate) fn open_small<A: Assigned + Ledger>(
    alloc: Global,
    book: Book<A>,
) -> Result<BoardState<A>, Fail>
    requires assignment { A.assignment ≡ small }
    requires book { book.total ≡ 0 }
{
    let items = vec![in alloc; 0, 0, 1]?;
    let order = Order {
        count: 2,
        table: vec![in alloc; false, false, true, false]?,
    };
    match BoardState::open(alloc, items, order, Memory::empty(alloc), 7, book) {
        Ok(state) => Ok(state),
        Err(_) => Err(Fail::new("no board")),
    }
}

/// The job that a worker is told to do, if there is one.
fn begin<A: Assigned + Ledger>(state: &mut BoardState<A>) -> Option<Job> {
    match state.take_step() {
        Step::Job(job) => Some(job),
        Step::Wait | Step::Over => None,
    }
}

/// Finishes a job whose piece has nothing to do, and tells whether it was finished.
fn finish<A: Assigned + Ledger>(
    state: &mut BoardState<A>,
    share: &mut Share<A>,
    job: Option<Job>,
    cut: Overlay,
) -> bool
    requires assignment { A.assignment ≡ small }
    requires cut { ChangesNothing cut }
    requires share { 0 < share.old.parts }
    ensures { share.new.parts ≡ share.old.parts }
{
    match job {
        None => false,
        Some(job) => match state.finish_step(share, job, cut, PartEnd::Done(0)) {
            Ok(()) => true,
            Err((_, job, _, _)) => {
                state.give_back_step(job);
                false
            }
        },
    }
}

/// Gives a job back, and tells whether there was one.
fn give_back<A: Assigned + Ledger>(state: &mut BoardState<A>, job: Option<Job>) -> bool {
    match job {
        None => false,
        Some(job) => {
            state.give_back_step(job);
            true
        }
    }
}

/// Three workers take and finish the pieces; the second one gives its first piece back.
fn do_small<A: Assigned + Ledger>(alloc: Global, blank: Blank) -> Result<([bool; 6], Closed), Fail>
    requires assignment { A.assignment ≡ small }
    requires name { blank.name ≡ A.name }
    requires parts { blank.parts ≡ A.parts }
    requires three { blank.parts ≡ 3 }
{
    let (book, mut third) = blank.open::<A>();
    let mut first = third.split_off(1, 0);
    let mut second = third.split_off(1, 0);
    let mut state = open_small(alloc, book)?;
    let cuts = (
        cut_nothing(alloc)?,
        cut_nothing(alloc)?,
        cut_nothing(alloc)?,
    );
    let one = begin(&mut state);
    let two = begin(&mut state);
    let early = begin(&mut state);
    let mut told = [false; 6];
    told[0] = give_back(&mut state, early);
    told[1] = finish(&mut state, &mut first, one, cuts.0);
    told[2] = give_back(&mut state, two);
    let again = begin(&mut state);
    told[3] = finish(&mut state, &mut second, again, cuts.1);
    let last = begin(&mut state);
    told[4] = finish(&mut state, &mut third, last, cuts.2);
    let none = begin(&mut state);
    told[5] = give_back(&mut state, none);
    third.merge(first);
    third.merge(second);
    Ok((told, state.close(&mut third)))
}

#[test]
fn pieces_wait_for_those_of_items_before_theirs(rt: HostRuntime) -> Result<(), Fail> {
    let (told, closed) = do_small::<Brand>(rt.alloc(), Blank::new(3))?;
    assert!(&rt; told == [false, true, true, true, true, false]);
    assert!(&rt; closed.history.as_slice() == [0, 1, 2].as_slice());
    assert!(&rt; closed.is_whole && closed.turns == 0 && closed.stopped.is_none());
    Ok(())
}

/// A board that is closed with nothing begun.
fn close_at_once<A: Assigned + Ledger>(alloc: Global, blank: Blank) -> Result<Closed, Fail>
    requires assignment { A.assignment ≡ small }
    requires name { blank.name ≡ A.name }
    requires parts { blank.parts ≡ A.parts }
{
    let (book, mut all) = blank.open::<A>();
    let state = open_small(alloc, book)?;
    Ok(state.close(&mut all))
}

#[test]
fn a_board_is_closed_with_nothing_begun(rt: HostRuntime) -> Result<(), Fail> {
    let closed = close_at_once::<Brand>(rt.alloc(), Blank::new(1))?;
    assert!(&rt; closed.history.is_empty() && !closed.is_whole);
    assert!(&rt; closed.turns == 0 && closed.stopped.is_none());
    Ok(())
}
