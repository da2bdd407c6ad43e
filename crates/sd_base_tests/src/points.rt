//! Pieces of the points of parameters.
ghost use Rattle.std.specs.Prelude.{◌≡◌, None, [], IfOk};
ghost use Rattle.sd_range.specs.Points.{tuples};
ghost use Rattle.sd_range.specs.Range.{IsRange, IsEvaluableRange};

use crate::sure::sure;
use sd_list::{NoMemory, Sequence};
use sd_range::{Affine, Env, Points, Range};
use std::alloc::Global;
use std::process::Abort;

/// 2^41 + 3 and 2^41 + 5.
fn two(alloc: Global) -> Result<Range, NoMemory>
    ensures range { IfOk result IsRange }
    ensures evaluable { IfOk result (IsEvaluableRange []) }
{
    let ends = vec![in alloc; Affine::constant(alloc, 2_199_023_255_558)]?;
    Ok(Range {
        begin: Affine::constant(alloc, 2_199_023_255_555),
        ends: Sequence::from(ends),
        step: 2,
    })
}

/// The points of two parameters with that range.
fn of_two(alloc: Global) -> Result<Points, NoMemory>
    ensures before { IfOk result (λ points. points.current ≡ None) }
    ensures all_left { IfOk result (λ points. points.left ≡ tuples points.parameters) }
{
    let parameters = vec![in alloc; (0, two(alloc)?), (1, two(alloc)?)]?;
    let values = Sequence::new(alloc);
    Points::of_parameters(alloc, parameters.as_slice(), &Env { values })
}

/// The points of a piece.
fn piece(rt: &impl Abort, alloc: Global, first: u128, count: u128) -> String {
    let Ok(mut points) = of_two(alloc) else {
        panic!(rt; "no memory")
    };
    let most = points.first_count();
    if first <= most && count <= most - first {
        points.piece(first, count);
    }
    let mut told = String::new(alloc);
    for _ in 0..5 {
        if points.next() {
            sure(rt, write!(&mut told, "{:?}", points.at()));
        }
    }
    told
}

#[test]
fn a_piece_keeps_its_values_of_the_first_parameter(rt: HostRuntime) {
    let last = "[2199023255557, 2199023255555][2199023255557, 2199023255557]";
    assert_eq!(rt; piece(&rt, rt.alloc(), 1, 1).as_str(), last);
    let all = piece(&rt, rt.alloc(), 0, 2);
    assert!(rt; all.as_str().matches('[').count() == 4);
    assert_eq!(rt; piece(&rt, rt.alloc(), 2, 0).as_str(), "");
}
