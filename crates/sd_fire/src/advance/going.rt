ghost use Rattle.std.specs.Prelude.{◌≡◌, true, false, IfOk};
ghost use Rattle.sd_work.specs.Residual.{finished};
ghost use Rattle.sd_work.specs.Moves.{Path};
ghost use Rattle.sd_graph.specs.TreeFold.{graph_tree};
ghost use Rattle.sd_graph.specs.TreeParts.{containers_of};
ghost use Rattle.sd_scope.specs.scope.Standing.{opening_reach};
ghost use Rattle.sd_left.specs.tree.Standing.{state_left};
ghost use Rattle.sd_left.specs.left.Kept.{run_kept};
ghost use Rattle.sd_left.specs.left.Tells.{run_tells};
ghost use Rattle.sd_fire.specs.advance.Entered.{IsStateEntered};
ghost use Rattle.sd_fire.specs.advance.Right.{IsRunFired};

use crate::begin::begin_state;
use sd_graph::Sdfg;
use sd_leaves::{Entry, Onward, go_on};
use sd_left::Run;
use sd_list::NoMemory;
use sd_mem::{End, Machine, Memory};
use sd_scope::Base;
use std::alloc::Global;
use std::mem::swap;

/// The transition of a run whose state is finished.
pub fn go_on_run(
    alloc: Global,
    run: &mut Run,
    graph: &Sdfg,
    base: &Base,
    machine: &mut Machine,
) -> Result<End, NoMemory>
    ensures { IfOk result (λ end. (path : Path) → (run_kept run.old).ended ≡ false → finished (state_left (run_kept run.old) (graph_tree graph.now) (opening_reach (containers_of (graph_tree graph.now)) base.now) base.now.around) ≡ true → (run_tells run.old).is_right ≡ true → IsRunFired run.old (graph_tree graph.now) (opening_reach (containers_of (graph_tree graph.now)) base.now) base.now.around path machine.old end machine.new run.new) }
{
    machine.lend(&mut run.body.own)?;
    let onward = go_on(
        alloc,
        run.state,
        run.body.at.as_slice(),
        graph,
        base,
        machine,
    );
    machine.give_back(&mut run.body.own);
    match onward? {
        Onward::Nowhere => {
            run.ended = true;
            Ok(End::Finished)
        }
        Onward::Fault(place, kind) => Ok(End::Fault(place, kind)),
        Onward::State(entry) => enter_state(alloc, run, entry, graph, base, machine),
    }
}

/// A state begins: its items in the place of those of the state before, over the run's memory. The turn is spent last.
fn enter_state(
    alloc: Global,
    run: &mut Run,
    entry: Entry,
    graph: &Sdfg,
    base: &Base,
    machine: &mut Machine,
) -> Result<End, NoMemory>
    ensures entered { IfOk result (λ end. IsStateEntered (graph_tree graph.now) (opening_reach (containers_of (graph_tree graph.now)) base.now) base.now.around (run_kept run.old) entry machine.old end machine.new (run_kept run.new)) }
    ensures right { IfOk result (λ _. (run_tells run.old).is_right ≡ true → (run_tells run.new).is_right ≡ true) }
{
    let Entry {
        state,
        values,
        marked,
    } = entry;
    let none = Memory::empty(alloc);
    let mut next = begin_state(alloc, state, values, none, graph, base, machine)?;
    if !machine.pay(marked) {
        return Ok(End::OutOfTurns);
    }
    swap(&mut next.own, &mut run.body.own);
    *run = Run {
        state,
        ended: false,
        body: next,
    };
    Ok(End::Finished)
}
