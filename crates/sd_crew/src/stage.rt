//! The items of a state, done by workers on a board.
ghost use Rattle.std.specs.Prelude.{◌≡◌, ◌<◌, ◌≤◌, ◌^◌, [], length, map, None, true, IfOk};
ghost use Rattle.std.specs.List.{AllZip};
ghost use Rattle.sd_graph.specs.TreeParts.{containers_of};
ghost use Rattle.sd_graph.specs.Wiring.{before};
ghost use Rattle.sd_order.specs.table.Told.{told};
ghost use Rattle.sd_part.specs.Whole.{IsOfWidths};
ghost use Rattle.sd_race.specs.race.Pairs.{IsGraphAccepted};
ghost use Rattle.sd_safe.specs.normal.NormalForm.{IsGraphNormal};
ghost use Rattle.sd_safe.specs.pieces.ItemPieces.{state_items};
ghost use Rattle.sd_validity.specs.rules.Valid.{IsValid};
ghost use Rattle.sd_board.specs.Boards.{IsClosed};
ghost use Rattle.sd_crew.specs.Stage as definition;
ghost use Rattle.sd_crew.specs.Work.{IsWorkAt};

use crate::places::{items_at, items_of, places_of};
use crate::work::StatePieces;
use sd_board::{Assigned, Closed, Opening, run_board};
use sd_graph::Bound;
use sd_io::Gate;
use sd_list::NoMemory;
use sd_mem::Memory;
use sd_order::order_of;
use sd_piece::PieceAt;
use std::alloc::Global;
use std::marker::{Brand, PhantomData};
use std::sync::Wait;
use std::sync::ledger::{Blank, Ledger};
use std::thread::Threads;

/// A state of a graph, where the variables have these values.
#[derive(Clone, Copy)]
pub(crate) struct Stage<'a> {
    pub(crate) bound: &'a Bound,
    pub(crate) state: u32,
    pub(crate) values: &'a [i128],
    /// How many workers there are at most.
    pub(crate) workers: u64,
    /// How many turns its items may take together.
    pub(crate) turns: u64,
}

/// What a board of a stage's pieces opens with.
fn opening_of(
    alloc: Global,
    stage: &Stage,
    places: &[PieceAt],
    memory: Memory,
) -> Result<Opening, NoMemory>
    ensures items { IfOk result (λ opening. opening.items.items ≡ map (λ at. at.item) places.now) }
    ensures order { IfOk result (λ opening. told opening.order ≡ before (containers_of (definition.tree_of stage.now)) (state_items (definition.tree_of stage.now) stage.now.state)) }
    ensures memory { IfOk result (λ opening. opening.memory ≡ memory) }
    ensures budget { IfOk result (λ opening. opening.budget ≡ stage.now.turns) }
{
    let graph = &stage.bound.graph;
    let items = items_of(graph, stage.state);
    let order = order_of(alloc, items, &graph.containers)?;
    Ok(Opening {
        items: items_at(alloc, places)?,
        order,
        memory,
        budget: stage.turns,
    })
}

/// Does the pieces of a stage, each at its place, on so many threads.
fn on_board<A: Assigned + Ledger + Sync + Send, R: Threads + Wait + Sync, G: Gate + Sync + Send>(
    rt: &R,
    alloc: Global,
    blank: Blank,
    stage: &Stage,
    places: &[PieceAt],
    memory: Memory,
    gate: &G,
    threads: usize,
) -> Result<Closed, NoMemory>
    requires assignment { A.assignment ≡ definition.work_of stage.now memory }
    requires name { blank.name ≡ A.name }
    requires parts { blank.parts ≡ A.parts }
    requires one_each { blank.parts ≡ threads }
    requires threads { 0 < threads }
    requires pieces { definition.IsInPieces stage.now }
    requires places { AllZip (IsWorkAt (definition.tree_of stage.now) stage.now.values.now) places.now (definition.work_of stage.now memory).work.pieces }
    requires few { length places.now ≤ 2 ^ 20 }
    requires widths { IsOfWidths memory }
    requires turns { stage.now.turns ≤ 2 ^ 40 }
    ensures { IfOk result (IsClosed A.assignment) }
{
    let opening = opening_of(alloc, stage, places, memory)?;
    let pieces = StatePieces::<A> {
        alloc,
        bound: stage.bound,
        values: stage.values,
        places,
        turns: stage.turns,
        of: PhantomData,
    };
    match run_board::<A, R, StatePieces<'_, A>, G>(
        rt, alloc, blank, opening, &pieces, gate, threads,
    ) {
        Ok(closed) => Ok(closed),
        Err(_) => Err(NoMemory),
    }
}

/// A board that has no piece is done at once.
fn done_at_once(alloc: Global, memory: Memory) -> Closed
    ensures is { (result.memory ≡ memory) × (result.turns ≡ 0) }
    ensures history { (result.history.items ≡ []) × (result.is_whole ≡ true) × (result.stopped ≡ None) }
{
    Closed {
        memory,
        history: Vec::new(alloc),
        is_whole: true,
        turns: 0,
        stopped: None,
    }
}

/// Does the items of a stage by workers, from a memory with elements and values of its containers' widths.
pub(crate) fn run_stage<R: Threads + Wait + Sync, G: Gate + Sync + Send>(
    rt: &R,
    alloc: Global,
    stage: &Stage,
    memory: Memory,
    gate: &G,
) -> Result<Closed, NoMemory>
    requires valid { IsValid (definition.tree_of stage.now) }
    requires normal { IsGraphNormal (definition.tree_of stage.now) }
    requires accepted { IsGraphAccepted (definition.tree_of stage.now) }
    requires widths { IsOfWidths memory }
    requires some { 0 < stage.now.workers }
    requires few { stage.now.workers ≤ 64 }
    requires turns { stage.now.turns ≤ 2 ^ 40 }
    ensures { IfOk result (IsClosed (definition.work_of stage.now memory)) }
{
    let items = items_of(&stage.bound.graph, stage.state);
    let places = places_of(alloc, items, stage.state, stage.values, stage.workers)?;
    if places.is_empty() {
        return Ok(done_at_once(alloc, memory));
    }
    if places.len() > 1 << 20 {
        return Err(NoMemory);
    }
    let threads = places.len().min(stage.workers as usize);
    let places = places.as_slice();
    let blank = Blank::new(threads as u64);
    on_board::<Brand, R, G>(rt, alloc, blank, stage, places, memory, gate, threads)
}
