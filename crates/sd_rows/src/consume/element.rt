//! One element.
ghost use Rattle.std.specs.Prelude.{◌≡◌, ℕ, List, length, None, IfOk, OnOk};
ghost use Rattle.std.specs.List.{AllZip};
ghost use Rattle.sd_work.specs.Memory.{Memory};
ghost use Rattle.sd_graph.specs.PlainTree.{TaskletTree};
ghost use Rattle.sd_graph.specs.TreeFold.{graph_tree};
ghost use Rattle.sd_graph.specs.Context.{Context};
ghost use Rattle.sd_graph.specs.declared.link.Link.{Link as LinkNow};
ghost use Rattle.sd_tcode.specs.tcode.Held.{IsReady, given};
ghost use Rattle.sd_scope.specs.scope.Standing.{context_of};
ghost use Rattle.sd_leaves.specs.leaves.Done.{IsDone, instance_work};
ghost use Rattle.sd_row.specs.row.Point.{IsOver};
ghost use Rattle.sd_row.specs.instance.Known.{AreKnown, AreOutward};
ghost use Rattle.sd_rows.specs.consume.Body.{IsBody, HasSingles};
ghost use Rattle.sd_rows.specs.consume.Own.{HasValue, IsSource, with_own};

use crate::consume::source::{Source, load_element};
use sd_graph::{FaultKind, Link, Sdfg};
use sd_list::NoMemory;
use sd_mem::Machine;
use sd_row::{Accesses, perform_all};
use sd_scope::{Base, Scope};
use sd_tcode::{Code, Frame, run};
use std::alloc::Global;

/// What the tasklet does for an element that shows a value once its turn is spent: it reads, evaluates and performs its effects, which go
/// outward. The code has the values of its variables. The innermost memory is one that an element has, of whatever value.
#[inline(always)]
pub(crate) fn run_element(
    alloc: Global,
    accesses: &Accesses,
    sources: &[Source],
    value: i64,
    code: &Code,
    frame: &mut Frame,
    outs: &[Link],
    graph: &Sdfg,
    base: &Base,
    scope: &Scope,
    machine: &mut Machine,
) -> Result<Option<FaultKind>, NoMemory>
    requires ready { IsReady code.now frame.old }
    requires singles { HasSingles (length sources.now) (given frame.old) }
    ensures done { IfOk result (λ fault. (here : Context) (tree : TaskletTree) (ins : List LinkNow) (element : ℕ) (own other : Memory) → IsBody tree ins outs.now code.now (given frame.old) here
        → AreKnown tree ins outs.now 0 here (context_of (graph_tree graph.now) base.now scope.now) accesses.now → AreOutward here outs.now
        → AllZip (IsSource element) accesses.now.reads.items sources.now → HasValue own element value → IsOver other machine.old
        → IsDone (instance_work here tree ins outs.now) (with_own own machine.old) fault (with_own own machine.new)) }
    ensures own { IfOk result (λ fault. (here : Context) (tree : TaskletTree) (ins : List LinkNow) (own : Memory) → IsBody tree ins outs.now code.now (given frame.old) here
        → AreKnown tree ins outs.now 0 here (context_of (graph_tree graph.now) base.now scope.now) accesses.now → AreOutward here outs.now → fault ≡ None → IsOver own machine.old → IsOver own machine.new) }
    ensures ready { OnOk result (IsReady code.now frame.new) }
    ensures singles { OnOk result (HasSingles (length sources.now) (given frame.new)) }
    ensures extents { OnOk result ((given frame.new).extents ≡ (given frame.old).extents) }
    ensures variables { OnOk result ((given frame.new).variables ≡ (given frame.old).variables) }
{
    load_element(frame, sources, value, machine);
    if let Err(kind) = run(code, frame) {
        return Ok(Some(kind));
    }
    let inputs = accesses.reads.len();
    perform_all(
        alloc,
        frame.effects(),
        inputs,
        &accesses.targets,
        outs,
        0,
        graph,
        base,
        scope,
        machine,
    )
}
