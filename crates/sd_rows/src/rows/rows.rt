ghost use Rattle.std.specs.Prelude.{◌≡◌, [], ◌++◌, true, IsTrue, IfOk, OnOk};
ghost use Rattle.std.specs.Option.{MatchOption};
ghost use Rattle.std.specs.Bool.{⊤};
ghost use Rattle.std.specs.List.{AllByRecursion};
ghost use Rattle.sd_scope.specs.even.Even.{is_scalar};
ghost use Rattle.sd_graph.specs.TreeFold.{graph_tree, item_trees};
ghost use Rattle.sd_mem.specs.machine.ComesTo.{IsEnd};
ghost use Rattle.sd_mem.specs.machine.Coming.{map_coming};
ghost use Rattle.sd_scope.specs.scope.Standing.{context_of, IsInside};
ghost use Rattle.sd_row.specs.row.Setting.{row_coming, IsRowOf};
ghost use Rattle.sd_rows.specs.rows.Along.{IsLast};
ghost use Rattle.sd_rows.specs.rows.Band.{IsAcross, IsBand};
ghost use Rattle.sd_rows.specs.rows.Code.{IsInstance, AreColumnsOf};
ghost use Rattle.sd_rows.specs.rows.Map.{tree_of, coming_of, row_at, own_memory};

use crate::rows::band::{Band, across_of};
use crate::rows::between::row_between;
use crate::rows::instance::Instance;
use crate::rows::kept::{kept_code, run_kept_rows};
use crate::rows::map::TaskMap;
use crate::rows::pointwise::{end_at, run_points};
use crate::rows::steps::Steps;
use sd_graph::{Item, ItemKind, Sdfg};
use sd_list::NoMemory;
use sd_mem::{End, Machine, Memory};
use sd_range::Range;
use sd_row::{Row, run_row};
use sd_scope::{Base, Scope, checked_points};
use sd_tcode::Code;
use std::alloc::Global;

/// Runs a map whose body is one tasklet with scalar inputs; `None` where the map is of another kind, and then nothing is done.
pub fn run_rows(
    alloc: Global,
    body: &[Item],
    params: &[(u32, Range)],
    private: &[u32],
    graph: &Sdfg,
    base: &Base,
    scope: &Scope,
    machine: &mut Machine,
) -> Result<Option<End>, NoMemory>
    ensures { IfOk result (λ end. MatchOption end (machine.new ≡ machine.old)
        (λ end. IsEnd (map_coming (item_trees body.now) params.now private.now (context_of (graph_tree graph.now) base.now scope.now) machine.old) machine.old end machine.new)) }
{
    if body.len() != 1 || !private.is_empty() {
        return Ok(None);
    }
    match &body[0].kind {
        ItemKind::Task { code, ins, outs } => {
            let task = TaskMap {
                tasklet: code,
                ins: ins.as_slice(),
                outs: outs.as_slice(),
                line: body[0].line,
                params,
                private,
                graph,
                base,
                scope,
            };
            run_task_rows(alloc, &task, machine)
        }
        _ => Ok(None),
    }
}

/// The same of the tasklet that is the body.
fn run_task_rows(
    alloc: Global,
    task: &TaskMap<'_>,
    machine: &mut Machine,
) -> Result<Option<End>, NoMemory>
    requires none { task.now.private.now ≡ [] }
    ensures { IfOk result (λ end. MatchOption end (machine.new ≡ machine.old) (λ end. IsEnd (coming_of task.now machine.old) machine.old end machine.new)) }
{
    let Some((last, outer)) = task.params.split_last() else {
        return Ok(None);
    };
    let Some(steps) = Steps::of(alloc, last, &task.scope.values)? else {
        return Ok(None);
    };
    if let Some(mut instance) = Instance::of(alloc, task, steps.count)? {
        let end = run_all(alloc, task, &mut instance, &steps, outer, machine)?;
        return Ok(Some(end));
    }
    let Some(mut runner) = kept_code(alloc, task, steps.variable)? else {
        return Ok(None);
    };
    let end = run_kept_rows(alloc, task, &mut runner, &steps, outer, machine)?;
    Ok(Some(end))
}

/// All rows, one after another.
fn run_all(
    alloc: Global,
    task: &TaskMap<'_>,
    instance: &mut Instance,
    steps: &Steps,
    outer: &[(u32, Range)],
    machine: &mut Machine,
) -> Result<End, NoMemory>
    requires none { task.now.private.now ≡ [] }
    requires instance { IsInstance (tree_of task.now) task.now.ins.now task.now.outs.now instance.old.code instance.old.frame }
    requires columns { AreColumnsOf instance.old.code instance.old.columns }
    requires steps { IsLast task.now.params.now outer.now task.now.scope.now.values.values steps.now }
    ensures end { IfOk result (λ end. IsEnd (coming_of task.now machine.old) machine.old end machine.new) }
{
    let mut rows = checked_points(alloc, outer, &task.scope.values)?;
    let mut first = task.scope.inside(alloc, task.private)?;
    let mut last = task.scope.inside(alloc, task.private)?;
    let mut own = Memory::of_scope(alloc, &task.graph.containers, task.private)?;
    let across = across_of(alloc, outer, steps, &task.scope.values)?;
    let mut band = Band::none(alloc, steps);
    while rows.next() {
        let end = run_one(
            alloc,
            task,
            instance,
            steps,
            across,
            outer,
            rows.at(),
            &mut first,
            &mut last,
            &mut band,
            &mut own,
            machine,
        )?;
        match end {
            End::Finished => {}
            other => return Ok(other),
        }
    }
    Ok(End::Finished)
}

/// One row: by the tracks of a band or its own, or else point by point.
fn run_one(
    alloc: Global,
    task: &TaskMap<'_>,
    instance: &mut Instance,
    steps: &Steps,
    across: Option<Steps>,
    outer: &[(u32, Range)],
    row: &[i128],
    first: &mut Scope,
    last: &mut Scope,
    band: &mut Band,
    own: &mut Memory,
    machine: &mut Machine,
) -> Result<End, NoMemory>
    requires none { task.now.private.now ≡ [] }
    requires instance { IsInstance (tree_of task.now) task.now.ins.now task.now.outs.now instance.old.code instance.old.frame }
    requires columns { AreColumnsOf instance.old.code instance.old.columns }
    requires steps { IsLast task.now.params.now outer.now task.now.scope.now.values.values steps.now }
    requires across { MatchOption across ⊤ (λ across. IsAcross outer.now task.now.scope.now.values.values across steps.now) }
    requires first { IsInside task.now.private.now task.now.scope.now first.old }
    requires last { IsInside task.now.private.now task.now.scope.now last.old }
    requires band { IsBand task.now steps.now instance.old.code band.old }
    requires own { own.old.contents ≡ own_memory task.now }
    ensures end { IfOk result (λ end. IsEnd (row_coming (row_at task.now row.now steps.now) 0 steps.now.count machine.old) machine.old end machine.new) }
    ensures instance { OnOk result (IsInstance (tree_of task.now) task.now.ins.now task.now.outs.now instance.new.code instance.new.frame) }
    ensures columns { OnOk result (AreColumnsOf instance.new.code instance.new.columns) }
    ensures first { OnOk result (IsInside task.now.private.now task.now.scope.now first.new) }
    ensures last { OnOk result (IsInside task.now.private.now task.now.scope.now last.new) }
    ensures band { OnOk result (IsBand task.now steps.now instance.new.code band.new) }
    ensures own { OnOk result (own.new.contents ≡ own_memory task.now) }
{
    if find_in_band(
        alloc,
        task,
        &instance.code,
        steps,
        across,
        outer,
        row,
        first,
        last,
        band,
    )? {
        let tracks = &band.tracks;
        return run_tracks(
            alloc, task, tracks, instance, steps, row, first, own, machine,
        );
    }
    match find_tracks(alloc, task, &instance.code, steps, outer, row, first, last)? {
        Some(tracks) => run_tracks(
            alloc, task, &tracks, instance, steps, row, first, own, machine,
        ),
        None => run_points(alloc, task, steps, row, first, machine),
    }
}

/// Goes on to a row in the band, or in another one that begins with it; `false` where it has no tracks in it.
fn find_in_band(
    alloc: Global,
    task: &TaskMap<'_>,
    code: &Code,
    steps: &Steps,
    across: Option<Steps>,
    outer: &[(u32, Range)],
    row: &[i128],
    first: &mut Scope,
    last: &mut Scope,
    band: &mut Band,
) -> Result<bool, NoMemory>
    requires scalars { AllByRecursion (λ link. is_scalar link.memlet.subset.dims ≡ true) (task.now.ins.now ++ task.now.outs.now) }
    requires steps { IsLast task.now.params.now outer.now task.now.scope.now.values.values steps.now }
    requires across { MatchOption across ⊤ (λ across. IsAcross outer.now task.now.scope.now.values.values across steps.now) }
    requires first { IsInside task.now.private.now task.now.scope.now first.old }
    requires last { IsInside task.now.private.now task.now.scope.now last.old }
    requires band { IsBand task.now steps.now code.now band.old }
    ensures tracks { IfOk result (λ found. IsTrue found → IsRowOf (row_at task.now row.now steps.now) code.now band.new.tracks steps.now.count) }
    ensures first { OnOk result (IsInside task.now.private.now task.now.scope.now first.new) }
    ensures last { OnOk result (IsInside task.now.private.now task.now.scope.now last.new) }
    ensures band { OnOk result (IsBand task.now steps.now code.now band.new) }
{
    if band.go_on(task, steps, outer, row)? {
        return Ok(true);
    }
    let Some(across) = across else {
        return Ok(false);
    };
    *band = Band::from(alloc, task, code, steps, &across, outer, row, first, last)?;
    band.go_on(task, steps, outer, row)
}

/// The tracks of a row, where it has a point and each access is inside at both ends.
fn find_tracks(
    alloc: Global,
    task: &TaskMap<'_>,
    code: &Code,
    steps: &Steps,
    outer: &[(u32, Range)],
    row: &[i128],
    first: &mut Scope,
    last: &mut Scope,
) -> Result<Option<Row>, NoMemory>
    requires scalars { AllByRecursion (λ link. is_scalar link.memlet.subset.dims ≡ true) (task.now.ins.now ++ task.now.outs.now) }
    requires steps { IsLast task.now.params.now outer.now task.now.scope.now.values.values steps.now }
    requires first { IsInside task.now.private.now task.now.scope.now first.old }
    requires last { IsInside task.now.private.now task.now.scope.now last.old }
    ensures tracks { IfOk result (λ tracks. MatchOption tracks ⊤ (λ tracks. IsRowOf (row_at task.now row.now steps.now) code.now tracks steps.now.count)) }
    ensures first { OnOk result (IsInside task.now.private.now task.now.scope.now first.new) }
    ensures last { OnOk result (IsInside task.now.private.now task.now.scope.now last.new) }
{
    let Some(order) = code.plain() else {
        return Ok(None);
    };
    let Some(gaps) = steps.count.checked_sub(1) else {
        return Ok(None);
    };
    if row.len() != outer.len() {
        return Ok(None);
    }
    steps.go_to(alloc, task, 0, first, row)?;
    steps.go_to(alloc, task, gaps, last, row)?;
    row_between(alloc, task, order, steps, gaps, first, last)
}

/// A row by its tracks, inside the memory of its points, which holds nothing.
fn run_tracks(
    alloc: Global,
    task: &TaskMap<'_>,
    tracks: &Row,
    instance: &mut Instance,
    steps: &Steps,
    row: &[i128],
    inner: &mut Scope,
    own: &mut Memory,
    machine: &mut Machine,
) -> Result<End, NoMemory>
    requires none { task.now.private.now ≡ [] }
    requires instance { IsInstance (tree_of task.now) task.now.ins.now task.now.outs.now instance.old.code instance.old.frame }
    requires columns { AreColumnsOf instance.old.code instance.old.columns }
    requires own { own.old.contents ≡ own_memory task.now }
    requires tracks { IsRowOf (row_at task.now row.now steps.now) instance.old.code tracks.now steps.now.count }
    requires inside { IsInside task.now.private.now task.now.scope.now inner.old }
    ensures end { IfOk result (λ end. IsEnd (row_coming (row_at task.now row.now steps.now) 0 steps.now.count machine.old) machine.old end machine.new) }
    ensures instance { OnOk result (IsInstance (tree_of task.now) task.now.ins.now task.now.outs.now instance.new.code instance.new.frame) }
    ensures columns { OnOk result (AreColumnsOf instance.new.code instance.new.columns) }
    ensures code { instance.new.code ≡ instance.old.code }
    ensures inside { OnOk result (IsInside task.now.private.now task.now.scope.now inner.new) }
    ensures own { OnOk result (own.new.contents ≡ own_memory task.now) }
{
    machine.lend(own)?;
    let end = run_row(
        tracks,
        &instance.code,
        &mut instance.frame,
        &mut instance.columns,
        steps.count,
        machine,
    );
    machine.give_back(own);
    end_at(alloc, task, steps, row, inner, end)
}
