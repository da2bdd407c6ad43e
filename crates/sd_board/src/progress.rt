//! How far the pieces of a board's work are, and the order in which they were finished.
ghost use Rattle.std.specs.Prelude.{◌≡◌, ◌↔◌, ◌+◌, ◌<◌, ◌≤◌, length, replicate, slice_get, Some, IfOk, IsTrue};
ghost use Rattle.std.specs.Option.{MatchOption};
ghost use Rattle.sd_board.specs.declared.mark.Mark.TheVariants.{ToBegin, InWork};
ghost use Rattle.sd_board.specs.Progress as definition;

use crate::left::{count_off, left_before, table_of};
use crate::mark::Mark;
use sd_order::Order;
use std::alloc::{AllocError, Global};
use std::marker::Model;
use std::sync::ledger::{Book, Ledger, Share};

/// What one who asks for work is told.
#[derive(Clone, Copy, Debug, PartialEq, Eq)]
pub enum Asked {
    /// The piece of this number is in work now.
    Begin(usize),
    /// No piece may begin yet.
    Wait,
    /// All pieces are finished.
    Over,
}

/// The progress of pieces, with a ledger's book that counts those that are finished.
#[derive(Drop)]
pub struct Progress<A: Ledger> {
    items: Vec<u32>,
    order: Order,
    marks: Vec<Mark>,
    /// For each item, how many pieces of the items before it are not finished.
    left: Vec<usize>,
    history: Vec<usize>,
    book: Book<A>,
}

impl<A: Ledger> Model for Progress<A> {
    ghost use Rattle.std.specs.Prelude.{vec_capacity};
    ghost use Rattle.sd_board.specs.Progress.{Progress, progress_of, standing_of, IsKept, AreCounted};

    ghost Value = { Progress };

    ghost view = { λ p. progress_of p.items.items p.order p.marks.items p.history.items };

    ghost invariant = { λ p. IsKept (progress_of p.items.items p.order p.marks.items p.history.items) (vec_capacity p.history) p.book.total
        × AreCounted (standing_of p.items.items p.order p.marks.items) p.left.items };
}

/// Whether all pieces are finished.
fn are_finished(marks: &[Mark]) -> bool
    ensures { IsTrue result ↔ definition.AreAllFinished marks.now }
{
    for mark in marks {
        if !mark.is_finished() {
            return false;
        }
    }
    true
}

/// As many marks, each to begin.
fn fresh_marks(alloc: Global, count: usize) -> Result<Vec<Mark>, AllocError>
    ensures { IfOk result (λ marks. marks.items ≡ replicate count ToBegin) }
{
    vec![in alloc; Mark::ToBegin; count]
}

/// The item of a piece, if there is such a piece.
fn item_of(items: &[u32], number: usize) -> Option<u32>
    ensures { result ≡ slice_get items.now number }
{
    items.get(number).copied()
}

/// Whether a piece is to begin.
fn is_to_begin(marks: &[Mark], number: usize) -> bool
    ensures { IsTrue result ↔ (slice_get marks.now number ≡ Some ToBegin) }
{
    match marks.get(number) {
        Some(mark) => mark.is_to_begin(),
        None => false,
    }
}

/// Whether a piece is in work.
fn is_working(marks: &[Mark], number: usize) -> bool
    ensures { IsTrue result ↔ (slice_get marks.now number ≡ Some InWork) }
{
    match marks.get(number) {
        Some(mark) => mark.is_in_work(),
        None => false,
    }
}

impl<A: Ledger> Progress<A> {
    /// Pieces of items in this order, of which none is begun, with room for all of their history.
    pub(crate) fn opened(
        alloc: Global,
        items: Vec<u32>,
        order: Order,
        book: Book<A>,
    ) -> Result<Progress<A>, AllocError>
        requires { book.total ≡ 0 }
        ensures { IfOk result (λ progress. progress ≡ definition.not_begun items.items order) }
    {
        let marks = fresh_marks(alloc, items.len())?;
        let left = table_of(alloc, &order, items.as_slice(), marks.as_slice())?;
        let history = Vec::with_capacity(alloc, items.len())?;
        Ok(Progress {
            items,
            order,
            marks,
            left,
            history,
            book,
        })
    }

    /// Whether each piece of the items before this one is finished.
    fn is_ready(&self, item: u32) -> bool
        ensures { IsTrue result ↔ definition.IsReady self.now.pieces item }
    {
        left_before(self.left.as_slice(), item as usize) == 0
    }

    /// Whether a piece may begin.
    fn may_begin(&self, number: usize) -> bool
        ensures { IsTrue result ↔ definition.MayBegin self.now.pieces number }
    {
        match item_of(self.items.as_slice(), number) {
            Some(item) => is_to_begin(self.marks.as_slice(), number) && self.is_ready(item),
            None => false,
        }
    }

    /// The number of the first piece that may begin.
    fn first_to_begin(&self) -> Option<usize>
        ensures { MatchOption result (definition.NoneMayBegin self.now.pieces) (λ number. definition.IsFirst self.now.pieces number) }
    {
        for number in 0..self.items.len() {
            if self.may_begin(number) {
                return Some(number);
            }
        }
        None
    }

    /// Tells one who asks for work what there is: the first piece that may begin, which is in work then.
    pub(crate) fn ask(&mut self) -> Asked
        ensures { definition.IsTold self.old result self.new }
    {
        match self.first_to_begin() {
            Some(number) => {
                self.marks[number] = Mark::InWork;
                Asked::Begin(number)
            }
            None => {
                if are_finished(self.marks.as_slice()) {
                    Asked::Over
                } else {
                    Asked::Wait
                }
            }
        }
    }

    /// Whether a piece is in work. One that is may follow on the history.
    pub(crate) fn is_in_work(&self, number: usize) -> bool
        ensures is { IsTrue result ↔ definition.Is self.now.pieces number InWork }
        ensures next { IsTrue result → definition.IsNext self.now number }
    {
        is_working(self.marks.as_slice(), number)
    }

    /// Enters a piece that is in work into the history, and counts it for a share.
    pub(crate) fn finish(&mut self, share: &mut Share<A>, number: usize)
        requires share { 0 < share.old.parts }
        requires in_work { definition.Is self.old.pieces number InWork }
        ensures finished { self.new ≡ definition.with_finished number self.old }
        ensures parts { share.new.parts ≡ share.old.parts }
        ensures amount { share.new.amount ≡ share.old.amount + 1 }
    {
        self.marks[number] = Mark::Finished;
        count_off(&self.order, self.items[number] as usize, &mut self.left);
        self.history.push_reserved(number);
        self.book.add(share, 1);
    }

    /// A piece that is in work is to begin again.
    pub(crate) fn give_back(&mut self, number: usize)
        requires { definition.Is self.old.pieces number InWork }
        ensures { self.new ≡ definition.turned number ToBegin self.old }
    {
        self.marks[number] = Mark::ToBegin;
    }

    /// The history, and whether it has all pieces. A share with all parts counts as many.
    pub(crate) fn close(self, all: &mut Share<A>) -> (Vec<usize>, bool)
        requires { all.old.parts ≡ A.parts }
        ensures history { result.0.items ≡ self.history }
        ensures whole { IsTrue result.1 ↔ definition.HasEach self }
        ensures counted { length self.history ≡ all.old.amount }
    {
        let whole = are_finished(self.marks.as_slice());
        let Progress {
            items: _,
            order: _,
            marks: _,
            left: _,
            history,
            mut book,
        } = self;
        book.audit(all);
        (history, whole)
    }
}
