//! The points of a row one by one, and how a row ends.
ghost use Rattle.std.specs.Prelude.{◌≡◌, IfOk, OnOk};
ghost use Rattle.sd_mem.specs.machine.ComesTo.{IsEnd};
ghost use Rattle.sd_scope.specs.scope.Standing.{IsInside};
ghost use Rattle.sd_row.specs.row.Setting.{row_coming, end_of_row};
ghost use Rattle.sd_rows.specs.rows.Map.{row_at};

use crate::rows::map::TaskMap;
use crate::rows::steps::Steps;
use sd_leaves::run_task;
use sd_list::NoMemory;
use sd_mem::{End, Machine, Memory};
use sd_row::RowEnd;
use sd_scope::{Scope, place_of};
use std::alloc::Global;

/// A row point by point.
pub(crate) fn run_points(
    alloc: Global,
    task: &TaskMap<'_>,
    steps: &Steps,
    row: &[i128],
    inner: &mut Scope,
    machine: &mut Machine,
) -> Result<End, NoMemory>
    requires inside { IsInside task.now.private.now task.now.scope.now inner.old }
    ensures end { IfOk result (λ end. IsEnd (row_coming (row_at task.now row.now steps.now) 0 steps.now.count machine.old) machine.old end machine.new) }
    ensures inside { OnOk result (IsInside task.now.private.now task.now.scope.now inner.new) }
{
    for k in 0..steps.count {
        steps.go_to(alloc, task, k, inner, row)?;
        let own = Memory::of_scope(alloc, &task.graph.containers, task.private)?;
        machine.enter(own)?;
        let end = run_task(
            alloc,
            task.tasklet,
            task.ins,
            task.outs,
            task.line,
            task.graph,
            task.base,
            inner,
            machine,
        )?;
        machine.leave();
        match end {
            End::Finished => {}
            other => return Ok(other),
        }
    }
    Ok(End::Finished)
}

/// How the map ends where a row ends so, with the place of a fault.
pub(crate) fn end_at(
    alloc: Global,
    task: &TaskMap<'_>,
    steps: &Steps,
    row: &[i128],
    inner: &mut Scope,
    ended: RowEnd,
) -> Result<End, NoMemory>
    requires inside { IsInside task.now.private.now task.now.scope.now inner.old }
    ensures end { IfOk result (λ told. told ≡ end_of_row (row_at task.now row.now steps.now) ended) }
    ensures inside { OnOk result (IsInside task.now.private.now task.now.scope.now inner.new) }
{
    match ended {
        RowEnd::Finished => Ok(End::Finished),
        RowEnd::OutOfTurns => Ok(End::OutOfTurns),
        RowEnd::Fault(k, kind) => {
            steps.go_to(alloc, task, k, inner, row)?;
            let place = place_of(alloc, task.graph, task.base, inner, task.line)?;
            Ok(End::Fault(place, kind))
        }
    }
}
