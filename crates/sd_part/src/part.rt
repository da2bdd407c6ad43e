ghost use Rattle.std.specs.Prelude.{◌≡◌, ℕ, List, [], map, IfOk};
ghost use Rattle.sd_graph.specs.TreeFold.{graph_tree, item_tree};
ghost use Rattle.sd_graph.specs.TreeParts.{containers_of};
ghost use Rattle.sd_graph.specs.Context.{own_reach};
ghost use Rattle.sd_graph.specs.Upwards.{KindLeadsUpwards};
ghost use Rattle.sd_work.specs.Memory.{Memories};
ghost use Rattle.sd_work.specs.BigStep.{Coming, big_step};
ghost use Rattle.sd_graph.specs.declared.place.Place.{Place};
ghost use Rattle.sd_mem.specs.machine.ComesTo.{ComesTo, outcome_of};
ghost use Rattle.sd_prop.specs.propagation.Accesses.{kind_accesses};
ghost use Rattle.sd_race.specs.cover.Fit.{IsFit};
ghost use Rattle.sd_mem.specs.mem.Shaped.{Shaped, alone};
ghost use Rattle.sd_part.specs.Boxes.{number_box};
ghost use Rattle.sd_part.specs.Part.{part_term, PartComesTo};

use crate::boxes::NumberBox;
use crate::kept::Kept;
use crate::part_end::PartEnd;
use crate::run::run_over;
use crate::store::Store;
use sd_graph::{Item, Sdfg};
use sd_list::NoMemory;
use sd_mem::{End, Machine, Memory};
use std::alloc::Global;

/// Runs a part of a state from left to right on a store, with so many turns: an item, or a piece of one. The boxes are those of its accesses.
pub fn run_part<S: Store>(
    alloc: Global,
    graph: &Sdfg,
    state: u32,
    values: &[i128],
    item: &Item,
    boxes: &[NumberBox],
    store: &mut S,
    turns: u64,
) -> Result<PartEnd, NoMemory>
    requires fits { IsFit (item_tree item.now).1 [] }
    requires leads { KindLeadsUpwards (item_tree item.now).1 }
    requires boxes { (nodes : List ℕ) × (boxes.now ≡ map (number_box (containers_of (graph_tree graph.now)) values.now) (kind_accesses (item_tree item.now).1 (containers_of (graph_tree graph.now)) nodes)) }
    requires holds { S.holds store.old boxes.now }
    ensures windows { S.windows store.new ≡ S.windows store.old }
    ensures store { IfOk result (λ end. (lent left : Shaped) × (between : S) × S.lends store.old boxes.now lent between × S.takes between left store.new) }
    ensures end { IfOk result (λ end. (over after : Shaped) → S.fits store.old (containers_of (graph_tree graph.now)) over → S.stands store.new over after
        → (before : Shaped) × S.stands store.old over before × ((most : ℕ) → PartComesTo end turns (alone after)
        (big_step (part_term (graph_tree graph.now) (own_reach (containers_of (graph_tree graph.now))) state values.now (item_tree item.now).1 (item_tree item.now).0) most (alone before) turns))) }
{
    let mut machine = Machine::new(alloc, Memory::empty(alloc), turns)?;
    machine.leave();
    let mut lent = store.lend(alloc, boxes)?;
    if machine.lend(&mut lent).is_err() {
        store.take_back(lent);
        return Err(NoMemory);
    }
    let end = run_over(
        alloc,
        graph,
        state,
        values,
        item,
        store.windows(),
        &mut machine,
    );
    let left = machine.turns();
    store.take_back(machine.into_memory());
    ended(end?, turns, left)
}

/// The end of a part that had so many turns, and has so many left.
fn ended(end: End, turns: u64, left: u64) -> Result<PartEnd, NoMemory>
    ensures { IfOk result (λ part. (after : Memories) (coming : Coming Place) → ComesTo coming (outcome_of end (record { memories = after; turns = left })) → PartComesTo part turns after coming) }
{
    match end {
        End::Finished => Ok(PartEnd::Done(turns.checked_sub(left).ok_or(NoMemory)?)),
        End::Fault(place, kind) => Ok(PartEnd::Stopped(Kept::Fault(place, kind))),
        End::OutOfTurns => {
            let wanted = turns.checked_add(1).ok_or(NoMemory)?;
            Ok(PartEnd::Stopped(Kept::Turns(wanted)))
        }
    }
}
