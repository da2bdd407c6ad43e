//! Rows of a tasklet whose effects are kept until they are performed.
ghost use Rattle.std.specs.Prelude.{◌≡◌, [], true, length, IfOk, OnOk};
ghost use Rattle.std.specs.Option.{MatchOption};
ghost use Rattle.std.specs.Bool.{⊤};
ghost use Rattle.std.specs.List.{AllByRecursion};
ghost use Rattle.sd_mem.specs.machine.ComesTo.{IsEnd};
ghost use Rattle.sd_tcode.specs.tcode.Held.{given};
ghost use Rattle.sd_scope.specs.scope.Standing.{IsInside};
ghost use Rattle.sd_row.specs.row.Point.{IsOver, below};
ghost use Rattle.sd_row.specs.row.Setting.{row_coming, end_of_row};
ghost use Rattle.sd_row.specs.instance.Fit.{IsRunner};
ghost use Rattle.sd_row.specs.instance.Known.{HasRoom};
ghost use Rattle.sd_rows.specs.rows.Along.{IsLast};
ghost use Rattle.sd_rows.specs.rows.Kept.{IsKeptRow};
ghost use Rattle.sd_rows.specs.rows.Map.{tree_of, standing, coming_of, row_at};
ghost use Rattle.sd_rows.specs.rows.Still.{is_still};

use crate::rows::map::TaskMap;
use crate::rows::pointwise::{end_at, run_points};
use crate::rows::steps::Steps;
use crate::rows::still::are_still;
use crate::rows::targets::accesses_between;
use sd_list::NoMemory;
use sd_mem::{End, Machine, Memory};
use sd_range::Range;
use sd_row::{Accesses, RowEnd, Runner, Scatter, run_directly};
use sd_scope::{Scope, checked_points};
use std::alloc::Global;

/// The code of a tasklet with scalar inputs, the subsets of whose outputs are of one element each or do not depend on the last parameter;
/// `None` of another one.
pub(crate) fn kept_code(
    alloc: Global,
    task: &TaskMap<'_>,
    last: u32,
) -> Result<Option<Runner>, NoMemory>
    ensures runner { IfOk result (λ runner. MatchOption runner ⊤ (λ runner. IsRunner (tree_of task.now) task.now.ins.now task.now.outs.now runner.code runner.frame)) }
    ensures still { IfOk result (λ runner. MatchOption runner ⊤ (λ runner. AllByRecursion (λ link. is_still last link.memlet.subset.dims ≡ true) task.now.outs.now)) }
{
    if !are_still(task.outs, last) {
        return Ok(None);
    }
    Runner::of(alloc, task.tasklet, task.ins, task.outs)
}

/// All rows, one after another.
pub(crate) fn run_kept_rows(
    alloc: Global,
    task: &TaskMap<'_>,
    runner: &mut Runner,
    steps: &Steps,
    outer: &[(u32, Range)],
    machine: &mut Machine,
) -> Result<End, NoMemory>
    requires none { task.now.private.now ≡ [] }
    requires runner { IsRunner (tree_of task.now) task.now.ins.now task.now.outs.now runner.old.code runner.old.frame }
    requires still { AllByRecursion (λ link. is_still steps.now.variable link.memlet.subset.dims ≡ true) task.now.outs.now }
    requires steps { IsLast task.now.params.now outer.now task.now.scope.now.values.values steps.now }
    ensures end { IfOk result (λ end. IsEnd (coming_of task.now machine.old) machine.old end machine.new) }
{
    let mut rows = checked_points(alloc, outer, &task.scope.values)?;
    let mut first = task.scope.inside(alloc, task.private)?;
    let mut last = task.scope.inside(alloc, task.private)?;
    while rows.next() {
        let end = run_kept_row(
            alloc,
            task,
            runner,
            steps,
            outer,
            rows.at(),
            &mut first,
            &mut last,
            machine,
        )?;
        match end {
            End::Finished => {}
            other => return Ok(other),
        }
    }
    Ok(End::Finished)
}

/// One row: by accesses that are known, or else by looking them up at each point.
fn run_kept_row(
    alloc: Global,
    task: &TaskMap<'_>,
    runner: &mut Runner,
    steps: &Steps,
    outer: &[(u32, Range)],
    row: &[i128],
    first: &mut Scope,
    last: &mut Scope,
    machine: &mut Machine,
) -> Result<End, NoMemory>
    requires none { task.now.private.now ≡ [] }
    requires runner { IsRunner (tree_of task.now) task.now.ins.now task.now.outs.now runner.old.code runner.old.frame }
    requires still { AllByRecursion (λ link. is_still steps.now.variable link.memlet.subset.dims ≡ true) task.now.outs.now }
    requires steps { IsLast task.now.params.now outer.now task.now.scope.now.values.values steps.now }
    requires first { IsInside task.now.private.now task.now.scope.now first.old }
    requires last { IsInside task.now.private.now task.now.scope.now last.old }
    ensures end { IfOk result (λ end. IsEnd (row_coming (row_at task.now row.now steps.now) 0 steps.now.count machine.old) machine.old end machine.new) }
    ensures runner { OnOk result (IsRunner (tree_of task.now) task.now.ins.now task.now.outs.now runner.new.code runner.new.frame) }
    ensures first { OnOk result (IsInside task.now.private.now task.now.scope.now first.new) }
    ensures last { OnOk result (IsInside task.now.private.now task.now.scope.now last.new) }
{
    match find_accesses(alloc, task, runner, steps, outer, row, first, last)? {
        Some(accesses) => {
            run_known(
                alloc, task, &accesses, runner, steps, row, first, last, machine,
            )
        }
        None => run_points(alloc, task, steps, row, last, machine),
    }
}

/// Where the accesses lead at the points of a row, with the extents of the connectors; `None` where it has no point or an element is
/// outside at an end.
fn find_accesses(
    alloc: Global,
    task: &TaskMap<'_>,
    runner: &mut Runner,
    steps: &Steps,
    outer: &[(u32, Range)],
    row: &[i128],
    first: &mut Scope,
    last: &mut Scope,
) -> Result<Option<Accesses>, NoMemory>
    requires runner { IsRunner (tree_of task.now) task.now.ins.now task.now.outs.now runner.old.code runner.old.frame }
    requires still { AllByRecursion (λ link. is_still steps.now.variable link.memlet.subset.dims ≡ true) task.now.outs.now }
    requires steps { IsLast task.now.params.now outer.now task.now.scope.now.values.values steps.now }
    requires first { IsInside task.now.private.now task.now.scope.now first.old }
    requires last { IsInside task.now.private.now task.now.scope.now last.old }
    ensures row { IfOk result (λ accesses. MatchOption accesses ⊤ (λ accesses. IsKeptRow (row_at task.now row.now steps.now) runner.new.code (given runner.new.frame) (standing task.now first.new) accesses steps.now.count)) }
    ensures some { IfOk result (λ accesses. MatchOption accesses ⊤ (λ accesses. HasRoom (length accesses.reads.items) (length accesses.variables.items) (given runner.new.frame))) }
    ensures runner { OnOk result (IsRunner (tree_of task.now) task.now.ins.now task.now.outs.now runner.new.code runner.new.frame) }
    ensures first { OnOk result (IsInside task.now.private.now task.now.scope.now first.new) }
    ensures last { OnOk result (IsInside task.now.private.now task.now.scope.now last.new) }
{
    let Some(gaps) = steps.count.checked_sub(1) else {
        return Ok(None);
    };
    if row.len() != outer.len() {
        return Ok(None);
    }
    steps.go_to(alloc, task, 0, first, row)?;
    steps.go_to(alloc, task, gaps, last, row)?;
    if !runner.shape(alloc, task.ins, task.outs, first)? {
        return Ok(None);
    }
    accesses_between(alloc, task, steps, gaps, first, last)
}

/// A row by accesses that are known, inside the memory of its points, which holds nothing.
fn run_known(
    alloc: Global,
    task: &TaskMap<'_>,
    accesses: &Accesses,
    runner: &mut Runner,
    steps: &Steps,
    row: &[i128],
    first: &Scope,
    inner: &mut Scope,
    machine: &mut Machine,
) -> Result<End, NoMemory>
    requires none { task.now.private.now ≡ [] }
    requires runner { IsRunner (tree_of task.now) task.now.ins.now task.now.outs.now runner.old.code runner.old.frame }
    requires room { HasRoom (length accesses.now.reads.items) (length accesses.now.variables.items) (given runner.old.frame) }
    requires row { IsKeptRow (row_at task.now row.now steps.now) runner.old.code (given runner.old.frame) (standing task.now first.now) accesses.now steps.now.count }
    requires inside { IsInside task.now.private.now task.now.scope.now inner.old }
    ensures end { IfOk result (λ end. IsEnd (row_coming (row_at task.now row.now steps.now) 0 steps.now.count machine.old) machine.old end machine.new) }
    ensures runner { OnOk result (IsRunner (tree_of task.now) task.now.ins.now task.now.outs.now runner.new.code runner.new.frame) }
    ensures inside { OnOk result (IsInside task.now.private.now task.now.scope.now inner.new) }
{
    let own = Memory::of_scope(alloc, &task.graph.containers, task.private)?;
    machine.enter(own)?;
    let end = run_instances(alloc, task, accesses, runner, steps, row, first, machine)?;
    machine.leave();
    end_at(alloc, task, steps, row, inner, end)
}

/// The instances of a row, one after another.
fn run_instances(
    alloc: Global,
    task: &TaskMap<'_>,
    accesses: &Accesses,
    runner: &mut Runner,
    steps: &Steps,
    row: &[i128],
    first: &Scope,
    machine: &mut Machine,
) -> Result<RowEnd, NoMemory>
    requires none { task.now.private.now ≡ [] }
    requires runner { IsRunner (tree_of task.now) task.now.ins.now task.now.outs.now runner.old.code runner.old.frame }
    requires room { HasRoom (length accesses.now.reads.items) (length accesses.now.variables.items) (given runner.old.frame) }
    requires row { IsKeptRow (row_at task.now row.now steps.now) runner.old.code (given runner.old.frame) (standing task.now first.now) accesses.now steps.now.count }
    requires over { IsOver (row_at task.now row.now steps.now).own machine.old }
    ensures end { IfOk result (λ end. IsEnd (row_coming (row_at task.now row.now steps.now) 0 steps.now.count (below machine.old)) (below machine.old) (end_of_row (row_at task.now row.now steps.now) end) (below machine.new)) }
    ensures runner { OnOk result (IsRunner (tree_of task.now) task.now.ins.now task.now.outs.now runner.new.code runner.new.frame) }
{
    let scatter = Scatter::of(&runner.code, accesses);
    for k in 0..steps.count {
        if !machine.pay(true) {
            return Ok(RowEnd::OutOfTurns);
        }
        let fault = run_directly(
            alloc,
            &scatter,
            accesses,
            &runner.code,
            &mut runner.frame,
            k,
            task.outs,
            task.graph,
            task.base,
            first,
            machine,
        )?;
        if let Some(kind) = fault {
            return Ok(RowEnd::Fault(k, kind));
        }
    }
    Ok(RowEnd::Finished)
}
