ghost use Rattle.std.specs.Prelude.{IfOk};
ghost use Rattle.sd_graph.specs.PlainTree.{copy as copying};
ghost use Rattle.sd_graph.specs.TreeFold.{graph_tree};
ghost use Rattle.sd_mem.specs.machine.ComesTo.{IsEnd};
ghost use Rattle.sd_mem.specs.machine.Coming.{kind_coming};
ghost use Rattle.sd_scope.specs.scope.Standing.{context_of};
ghost use Rattle.sd_leaves.specs.leaves.Done.{IsDone, performing, copied};

use crate::leaves::changes::transfer;
use crate::leaves::ending::end_of;
use sd_graph::{FaultKind, Link, Sdfg};
use sd_list::NoMemory;
use sd_mem::{End, Machine};
use sd_scope::{Base, Indices, Scope, cell_at};
use std::alloc::Global;

/// Copies each element of `from`, in row order, to the one of `to` at the same position; what one of them has more is left.
pub fn run_copy(
    alloc: Global,
    from: &Link,
    to: &Link,
    line: u32,
    graph: &Sdfg,
    base: &Base,
    scope: &Scope,
    machine: &mut Machine,
) -> Result<End, NoMemory>
    ensures { IfOk result (λ end. IsEnd (kind_coming (copying from.now to.now) line (context_of (graph_tree graph.now) base.now scope.now) machine.old) machine.old end machine.new) }
{
    let fault = transfer_all(alloc, from, to, graph, base, scope, machine)?;
    end_of(alloc, fault, graph, base, scope, line)
}

/// Copies elements one after another; an element is looked up when its turn comes.
fn transfer_all(
    alloc: Global,
    from: &Link,
    to: &Link,
    graph: &Sdfg,
    base: &Base,
    scope: &Scope,
    machine: &mut Machine,
) -> Result<Option<FaultKind>, NoMemory>
    ensures { IfOk result (λ fault. IsDone (performing (copied (context_of (graph_tree graph.now) base.now scope.now) from.now to.now)) machine.old fault machine.new) }
{
    let mut sources = Indices::of(alloc, scope, from)?;
    let mut targets = Indices::of(alloc, scope, to)?;
    'sources: while sources.next() {
        if !targets.next() {
            return Ok(None);
        }
        let source = cell_at(
            alloc,
            graph,
            base,
            scope,
            from.memlet.container,
            sources.at(),
        )?;
        let target = cell_at(alloc, graph, base, scope, to.memlet.container, targets.at())?;
        match transfer(source, target, None, machine) {
            None => {}
            Some(kind) => return Ok(Some(kind)),
        }
    }
    Ok(None)
}
