//! A piece that is run on what was cut for it.
ghost use Rattle.std.specs.Prelude.{◌≡◌, IfOk};
ghost use Rattle.sd_graph.specs.TreeFold.{graph_tree};
ghost use Rattle.sd_mem.specs.mem.Shaped.{Shaped};
ghost use Rattle.sd_cut.specs.Fits.{with_left};
ghost use Rattle.sd_part.specs.Marking.{with_boxes};
ghost use Rattle.sd_piece.specs.Run.{IsPieceRun, MayRun};

use crate::piece::{Piece, PieceEnd};
use sd_graph::Bound;
use sd_list::NoMemory;
use sd_part::run_part;
use std::alloc::Global;

/// Runs a piece from left to right on what was cut for it, with so many turns. What is left of the cut is marked with all that the piece may
/// touch.
pub fn run_piece(
    alloc: Global,
    bound: &Bound,
    piece: Piece,
    turns: u64,
) -> Result<PieceEnd, NoMemory>
    requires may { MayRun (graph_tree bound.now.graph) piece }
    ensures ran { IfOk result (λ ended. IsPieceRun (graph_tree bound.now.graph) piece turns ended.cut ended.end) }
    ensures marked { IfOk result (λ ended. (left : Shaped) × (ended.cut ≡ with_left left (with_boxes piece.boxes.items piece.cut))) }
{
    let Piece {
        state,
        values,
        item,
        boxes,
        mut cut,
    } = piece;
    let values = values.as_slice();
    let boxes = boxes.as_slice();
    let graph = &bound.graph;
    let end = run_part(alloc, graph, state, values, &item, boxes, &mut cut, turns)?;
    Ok(PieceEnd { cut, end })
}
