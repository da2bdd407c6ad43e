//! The values of a stream one after another.
ghost use Rattle.std.specs.Prelude.{◌≡◌, ℕ, ℤ, length, IfOk};
ghost use Rattle.sd_graph.specs.TreeFold.{graph_tree};
ghost use Rattle.sd_tcode.specs.tcode.Held.{IsReady, given};
ghost use Rattle.sd_mem.specs.machine.ComesTo.{IsEnd};
ghost use Rattle.sd_scope.specs.scope.Standing.{context_of};
ghost use Rattle.sd_row.specs.row.Point.{IsOver, below};
ghost use Rattle.sd_rows.specs.consume.Body.{HasSingles};
ghost use Rattle.sd_rows.specs.consume.Pool.{Pool, IsPool, element_width, pool_memory, pool_coming, end_of_taking};

use crate::consume::element::run_element;
use crate::consume::source::Source;
use sd_graph::{FaultKind, Link, Sdfg};
use sd_list::NoMemory;
use sd_mem::{Machine, Station};
use sd_num::{Width, wrap};
use sd_row::{Accesses, Runner};
use sd_scope::{Base, Scope};
use std::alloc::Global;

/// How the taking of values ends.
#[derive(Clone, Copy)]
pub(crate) enum TakingEnd {
    Finished,
    /// At this value.
    Fault(i64, FaultKind),
    /// A turn was wanted, and none was left.
    OutOfTurns,
}

/// Takes the values of a stream until it is empty and runs the code for each, inside the memory of an element, which shows a value
/// by this width.
pub(crate) fn take_values(
    alloc: Global,
    accesses: &Accesses,
    sources: &[Source],
    runner: &mut Runner,
    from: Station,
    width: Width,
    outs: &[Link],
    graph: &Sdfg,
    base: &Base,
    inner: &Scope,
    machine: &mut Machine,
) -> Result<TakingEnd, NoMemory>
    requires ready { IsReady runner.old.code runner.old.frame }
    requires singles { HasSingles (length sources.now) (given runner.old.frame) }
    ensures { IfOk result (λ end. (pool : Pool) (held : ℤ) (element : ℕ) → IsPool runner.old.code (given runner.old.frame) accesses.now sources.now from element outs.now (context_of (graph_tree graph.now) base.now inner.now) pool
        → width ≡ element_width pool → IsOver (pool_memory pool held) machine.old
        → IsEnd (pool_coming pool (below machine.old)) (below machine.old) (end_of_taking pool end) (below machine.new)) }
{
    for _ in 0..u64::MAX {
        let Some(value) = machine.take(from) else {
            return Ok(TakingEnd::Finished);
        };
        if !machine.pay(true) {
            return Ok(TakingEnd::OutOfTurns);
        }
        let shown = wrap(width, value);
        let fault = run_element(
            alloc,
            accesses,
            sources,
            shown,
            &runner.code,
            &mut runner.frame,
            outs,
            graph,
            base,
            inner,
            machine,
        )?;
        if let Some(kind) = fault {
            return Ok(TakingEnd::Fault(value, kind));
        }
    }
    // So many takes count as want of memory.
    Err(NoMemory)
}
