//! Pieces of a map, each cut of a memory, run on what was cut, and committed.
ghost use Rattle.sd_graph.specs.TreeFold.{graph_tree};
ghost use Rattle.sd_validity.specs.rules.Valid.{IsValid};
ghost use Rattle.sd_mem.specs.mem.Shaped.{alone};
ghost use Rattle.sd_cut.specs.Fits.{AreValuesOfWidth};

use crate::neighbours::shifted;
use crate::sure::sure;
use sd_graph::{Bound, FaultKind};
use sd_list::Sequence;
use sd_mem::{Elements, Memory};
use sd_part::{Kept, PartEnd, values_of_streams_are_of_their_widths};
use sd_piece::{PieceAt, PieceEnd, cut_piece, run_piece};
use sd_validate::validate;
use std::alloc::Global;
use std::process::Abort;

/// The memory of the elements 1 to 4 with which a graph opens. The graph is valid.
fn opened(rt: &impl Abort, alloc: Global, bound: &Bound) -> Memory
    ensures valid { IsValid (graph_tree bound.now.graph) }
    ensures values { AreValuesOfWidth (alone result) }
{
    values_of_streams_are_of_their_widths();
    match validate(alloc, bound) {
        Ok(()) => {}
        Err(_) => panic!(rt; "not valid"),
    }
    let elements = Sequence::from(sure(rt, vec![in alloc; 1, 2, 3, 4]));
    match Memory::opening(alloc, bound, sure(rt, vec![in alloc; elements])) {
        Ok(memory) => memory,
        Err(_) => panic!(rt; "no memory"),
    }
}

/// Cuts so many points from one on out of a memory, and runs them.
fn done(
    rt: &impl Abort,
    alloc: Global,
    bound: &Bound,
    memory: &Memory,
    points: (u128, u128),
    turns: u64,
) -> PieceEnd
    requires valid { IsValid (graph_tree bound.now.graph) }
    requires values { AreValuesOfWidth (alone memory.now) }
{
    let at = PieceAt {
        state: 0,
        item: 0,
        first: points.0,
        count: points.1,
    };
    match cut_piece(alloc, bound, at, &[0], memory) {
        Ok(piece) => sure(rt, run_piece(alloc, bound, piece, turns)),
        Err(_) => panic!(rt; "not cut"),
    }
}

/// The turns of a piece that is done; 100 more than those wanted; 200 for an index that is outside.
fn told(end: &PartEnd) -> u64 {
    match end {
        PartEnd::Done(turns) => *turns,
        PartEnd::Stopped(Kept::Turns(turns)) => turns.saturating_add(100),
        PartEnd::Stopped(Kept::Fault(_, FaultKind::Subscript)) => 200,
        PartEnd::Stopped(Kept::Fault(_, FaultKind::Division)) => 300,
    }
}

/// Commits a piece where it agrees, and tells whether it did.
fn commits(memory: &mut Memory, piece: PieceEnd) -> bool {
    piece.cut.agrees(memory) && piece.cut.commit(memory).is_ok()
}

/// Whether these are the elements.
fn has(memory: &Memory, wanted: &[i64]) -> bool {
    match memory.cells(0) {
        Elements::W64(cells) => cells == wanted,
        Elements::W32(_) => false,
    }
}

#[test]
fn two_pieces_one_after_the_other_are_the_map(rt: HostRuntime) {
    let bound = shifted(&rt, rt.alloc(), 2);
    let mut memory = opened(&rt, rt.alloc(), &bound);
    let first = done(&rt, rt.alloc(), &bound, &memory, (0, 2), 9);
    let second = done(&rt, rt.alloc(), &bound, &memory, (2, 1), 9);
    assert!(rt; told(&first.end) == 2 && told(&second.end) == 1);
    assert!(rt; has(&memory, &[1, 2, 3, 4]));
    assert!(rt; commits(&mut memory, first) && commits(&mut memory, second));
    assert!(rt; has(&memory, &[2, 3, 4, 4]));
}

#[test]
fn a_piece_does_not_agree_where_another_one_has_changed_what_it_read(rt: HostRuntime) {
    let bound = shifted(&rt, rt.alloc(), 2);
    let mut memory = opened(&rt, rt.alloc(), &bound);
    let first = done(&rt, rt.alloc(), &bound, &memory, (0, 2), 9);
    let second = done(&rt, rt.alloc(), &bound, &memory, (2, 1), 9);
    assert!(rt; commits(&mut memory, second) && !commits(&mut memory, first));
    assert!(rt; has(&memory, &[1, 2, 4, 4]));
}

#[test]
fn a_piece_is_stopped_by_a_fault_or_for_want_of_a_turn(rt: HostRuntime) {
    let bound = shifted(&rt, rt.alloc(), 3);
    let memory = opened(&rt, rt.alloc(), &bound);
    assert_eq!(rt;
        told(&done(&rt, rt.alloc(), &bound, &memory, (0, 3), 2).end),
        103
    );
    assert_eq!(rt;
        told(&done(&rt, rt.alloc(), &bound, &memory, (2, 2), 9).end),
        200
    );
}
