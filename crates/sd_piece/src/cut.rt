//! What is cut of a memory for a piece.
ghost use Rattle.std.specs.Prelude.{◌≡◌, None, Some, length, IfOk, IfErr};
ghost use Rattle.std.specs.Option.{MatchOption};
ghost use Rattle.sd_graph.specs.TreeFold.{graph_tree, item_tree};
ghost use Rattle.sd_validity.specs.rules.Valid.{IsValid};
ghost use Rattle.sd_mem.specs.mem.Shaped.{alone};
ghost use Rattle.sd_graph.specs.TreeParts.{containers_of};
ghost use Rattle.sd_safe.specs.pieces.ItemPieces.{state_items};
ghost use Rattle.sd_cut.specs.Fits.{AreValuesOfWidth};
ghost use Rattle.sd_part.specs.Cut.{IsJustCut};
ghost use Rattle.sd_part.specs.Outline.{IsOutline};
ghost use Rattle.sd_part.specs.Hulls.{AreBelow, AreEven};
ghost use Rattle.sd_piece.specs.Piece as definition;
ghost use Rattle.sd_piece.specs.Piece.{item_of, IsOutlineOf};
ghost use Rattle.sd_piece.specs.Run.{IsCutFrom, IsRefusal, IsUncut};

use crate::error::PieceError;
use crate::held::has_touched;
use crate::item::{has_piece, item_at};
use crate::piece::{Piece, PieceAt};
use sd_cut::{CutError, Overlay};
use sd_graph::{Bound, Item, Sdfg};
use sd_list::NoMemory;
use sd_mem::Memory;
use sd_part::{NumberBox, Outline, outline_of, piece_boxes, piece_of, streams_of, windows_of};
use sd_safe::show_normal_forms;
use std::alloc::Global;

/// A number above that of each container of boxes.
fn numbers_below(boxes: &[NumberBox]) -> Result<u32, NoMemory>
    ensures { IfOk result (λ number. AreBelow number boxes.now) }
{
    let mut above: u32 = 0;
    for one in boxes {
        above = above.max(one.container().checked_add(1).ok_or(NoMemory)?);
    }
    Ok(above)
}

/// Cuts the windows and the streams of boxes out of a memory.
fn cut_for(alloc: Global, memory: &Memory, boxes: &[NumberBox]) -> Result<Overlay, CutError>
    requires even { AreEven boxes.now }
    ensures just { IfOk result (IsJustCut boxes.now memory.now) }
    ensures below { IfOk result (λ cut. AreBelow (length cut.windows) boxes.now) }
    ensures refused { IfErr result (IsUncut boxes.now memory.now) }
{
    let least = numbers_below(boxes)?;
    let windows = windows_of(alloc, least, boxes)?;
    let streams = streams_of(alloc, boxes)?;
    Overlay::cut(alloc, memory, windows, streams.as_slice())
}

/// The same values once more.
fn copied(alloc: Global, values: &[i128]) -> Result<Vec<i128>, NoMemory>
    ensures { IfOk result (λ copy. copy.items ≡ values.now) }
{
    Ok(values.to_vec(alloc)?)
}

/// Cuts what a piece of an item touches out of a memory that has it.
fn cut_item(
    alloc: Global,
    graph: &Sdfg,
    item: &Item,
    outline: &Outline,
    at: PieceAt,
    values: &[i128],
    memory: &Memory,
) -> Result<Piece, PieceError>
    requires valid { IsValid (graph_tree graph.now) }
    requires outline { IsOutline (containers_of (graph_tree graph.now)) (item_tree item.now).1 outline.now }
    requires values { AreValuesOfWidth (alone memory.now) }
    requires item { definition.item_meant (graph_tree graph.now) at ≡ Some (item_tree item.now) }
    requires piece { definition.HasValues values.now at.first at.count (item_tree item.now).1 }
    ensures ok { IfOk result (IsCutFrom (graph_tree graph.now) memory.now values.now at) }
    ensures err { IfErr result (IsRefusal (graph_tree graph.now) memory.now values.now at) }
{
    show_normal_forms(graph);
    let containers = &graph.containers;
    let boxes = piece_boxes(alloc, containers, outline, values, at.first, at.count)?;
    if !has_touched(alloc, containers, memory, boxes.as_slice())? {
        return Err(PieceError::Foreign);
    }
    let cut = match cut_for(alloc, memory, boxes.as_slice()) {
        Ok(cut) => cut,
        Err(CutError::Outside(_)) => return Err(PieceError::Foreign),
        Err(CutError::Memory) => return Err(PieceError::Memory),
    };
    let piece = piece_of(alloc, item, values, at.first, at.count)?;
    let values = copied(alloc, values)?;
    Ok(Piece {
        state: at.state,
        values,
        item: piece,
        boxes,
        cut,
    })
}

/// The outline of an item of a graph, of which each of its pieces is cut; `None` where the graph has no such item.
pub fn outline_at(
    alloc: Global,
    bound: &Bound,
    state: u32,
    item: u32,
) -> Result<Option<Outline>, NoMemory>
    ensures { IfOk result (λ found. MatchOption found (item_of (state_items (graph_tree bound.now.graph) state) item ≡ None) (IsOutlineOf (graph_tree bound.now.graph) state item)) }
{
    match item_at(&bound.graph, state, item) {
        None => Ok(None),
        Some(item) => Ok(Some(outline_of(alloc, &bound.graph.containers, item)?)),
    }
}

/// Cuts what a piece of an item of a valid graph may touch out of a memory, where the variables have these values. The memory stays.
///
/// `NoItem` is told only where the state, the item, or one of so many values of it is not there, or no value is asked for. `Foreign` is told only
/// where the piece is there, and the memory has not, as the graph has it, an array of which the piece has elements, or a stream that it pushes into
/// or takes from. In each of these cases no piece is cut. `Memory` may come in place of any answer.
pub fn cut_piece(
    alloc: Global,
    bound: &Bound,
    at: PieceAt,
    values: &[i128],
    memory: &Memory,
) -> Result<Piece, PieceError>
    requires valid { IsValid (graph_tree bound.now.graph) }
    requires values { AreValuesOfWidth (alone memory.now) }
    ensures ok { IfOk result (IsCutFrom (graph_tree bound.now.graph) memory.now values.now at) }
    ensures err { IfErr result (IsRefusal (graph_tree bound.now.graph) memory.now values.now at) }
{
    match outline_at(alloc, bound, at.state, at.item)? {
        None => Err(PieceError::NoItem),
        Some(outline) => cut_outlined(alloc, bound, &outline, at, values, memory),
    }
}

/// The same, by an outline of the item that was made before: one serves all pieces of the item.
pub fn cut_outlined(
    alloc: Global,
    bound: &Bound,
    outline: &Outline,
    at: PieceAt,
    values: &[i128],
    memory: &Memory,
) -> Result<Piece, PieceError>
    requires valid { IsValid (graph_tree bound.now.graph) }
    requires values { AreValuesOfWidth (alone memory.now) }
    requires outline { IsOutlineOf (graph_tree bound.now.graph) at.state at.item outline.now }
    ensures ok { IfOk result (IsCutFrom (graph_tree bound.now.graph) memory.now values.now at) }
    ensures err { IfErr result (IsRefusal (graph_tree bound.now.graph) memory.now values.now at) }
{
    let Some(item) = item_at(&bound.graph, at.state, at.item) else {
        return Err(PieceError::NoItem);
    };
    if !has_piece(alloc, &item.kind, values, at)? {
        return Err(PieceError::NoItem);
    }
    cut_item(alloc, &bound.graph, item, outline, at, values, memory)
}
