ghost use Rattle.std.specs.Prelude.{◌≡◌, List, length, None, IfOk, OnOk};
ghost use Rattle.sd_work.specs.Memory.{Memory};
ghost use Rattle.sd_graph.specs.PlainTree.{TaskletTree};
ghost use Rattle.sd_graph.specs.TreeFold.{graph_tree};
ghost use Rattle.sd_graph.specs.Context.{Context};
ghost use Rattle.sd_graph.specs.declared.link.Link.{Link as LinkNow};
ghost use Rattle.sd_tcode.specs.tcode.Held.{IsReady, given};
ghost use Rattle.sd_scope.specs.scope.Standing.{context_of};
ghost use Rattle.sd_leaves.specs.leaves.Done.{IsDone, instance_work};
ghost use Rattle.sd_row.specs.row.Point.{IsOver};
ghost use Rattle.sd_row.specs.instance.Known.{IsSetUp, AreKnown, HasRoom, AreOutward};

use crate::instance::accesses::Accesses;
use crate::instance::performing::perform_all;
use crate::row::{load, set_variables};
use sd_graph::{FaultKind, Link, Sdfg};
use sd_list::NoMemory;
use sd_mem::Machine;
use sd_scope::{Base, Scope};
use sd_tcode::{Code, Frame, run};
use std::alloc::Global;

/// What an instance does once its turn is spent, where its accesses are known at the point of this number: it reads, evaluates
/// and performs its effects. Places are looked up where the scope stands, which may be at another point. Only a push, and a
/// place that is looked up, take memory.
#[inline(always)]
pub fn run_instance(
    alloc: Global,
    accesses: &Accesses,
    code: &Code,
    frame: &mut Frame,
    k: u32,
    outs: &[Link],
    graph: &Sdfg,
    base: &Base,
    scope: &Scope,
    machine: &mut Machine,
) -> Result<Option<FaultKind>, NoMemory>
    requires ready { IsReady code.now frame.old }
    requires room { HasRoom (length accesses.now.reads.items) (length accesses.now.variables.items) (given frame.old) }
    ensures done { IfOk result (λ fault. (here : Context) (tree : TaskletTree) (ins : List LinkNow) → IsSetUp tree ins outs.now code.now (given frame.old) here
        → AreKnown tree ins outs.now k here (context_of (graph_tree graph.now) base.now scope.now) accesses.now → IsDone (instance_work here tree ins outs.now) machine.old fault machine.new) }
    ensures own { IfOk result (λ fault. (here : Context) (tree : TaskletTree) (ins : List LinkNow) (own : Memory) → IsSetUp tree ins outs.now code.now (given frame.old) here
        → AreKnown tree ins outs.now k here (context_of (graph_tree graph.now) base.now scope.now) accesses.now → AreOutward here outs.now → fault ≡ None → IsOver own machine.old → IsOver own machine.new) }
    ensures ready { OnOk result (IsReady code.now frame.new) }
    ensures room { OnOk result (HasRoom (length accesses.now.reads.items) (length accesses.now.variables.items) (given frame.new)) }
    ensures extents { OnOk result ((given frame.new).extents ≡ (given frame.old).extents) }
{
    load(frame, &accesses.reads, k, machine);
    set_variables(frame, &accesses.variables, k);
    if let Err(kind) = run(code, frame) {
        return Ok(Some(kind));
    }
    let inputs = accesses.reads.len();
    perform_all(
        alloc,
        frame.effects(),
        inputs,
        &accesses.targets,
        outs,
        k,
        graph,
        base,
        scope,
        machine,
    )
}
