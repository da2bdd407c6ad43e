//! Rows that differ in the value of the last parameter but one alone.
ghost use Rattle.std.specs.Prelude.{◌≡◌, ◌+◌, ◌<◌, ◌∷◌, [], ◌++◌, length, true, IsTrue, IfOk, OnOk};
ghost use Rattle.std.specs.Option.{MatchOption};
ghost use Rattle.std.specs.Bool.{⊤};
ghost use Rattle.std.specs.List.{AllByRecursion};
ghost use Rattle.sd_tcode.specs.tcode.Compiled.{Compiled};
ghost use Rattle.sd_scope.specs.scope.Standing.{IsInside};
ghost use Rattle.sd_scope.specs.even.Even.{is_scalar};
ghost use Rattle.sd_row.specs.row.Setting.{IsRowOf};
ghost use Rattle.sd_rows.specs.declared.rows.map.TaskMap.{TaskMap as TaskMapNow};
ghost use Rattle.sd_rows.specs.declared.rows.steps.Steps.{Steps as StepsNow};
ghost use Rattle.sd_rows.specs.rows.Along.{IsLast, step_to};
ghost use Rattle.sd_rows.specs.rows.Map.{row_at};
ghost use Rattle.sd_rows.specs.rows.Band.{IsAcross, IsBand, edge_at};

use crate::rows::between::row_between;
use crate::rows::map::TaskMap;
use crate::rows::moving::move_row;
use crate::rows::steps::{Steps, followed_by};
use sd_list::NoMemory;
use sd_range::{Env, Range};
use sd_row::Row;
use sd_scope::Scope;
use sd_tcode::Code;
use std::alloc::Global;

/// Where the accesses lead at the first and at the last points of rows that differ in the value of one parameter alone, the last
/// but one.
#[derive(Drop)]
pub(crate) struct Band {
    /// The values of that parameter.
    pub across: Steps,
    /// The values of the parameters before it.
    pub others: Vec<i128>,
    pub near: Row,
    pub far: Row,
    /// How many of the rows are known.
    pub rows: u32,
    /// The number of the row that comes next.
    pub next: u32,
    /// Where the accesses lead in the row before that one.
    pub tracks: Row,
}

/// The values of the last one of these parameters, where there are some at equal distances, and it is another one than that of a row.
pub(crate) fn across_of(
    alloc: Global,
    outer: &[(u32, Range)],
    steps: &Steps,
    env: &Env,
) -> Result<Option<Steps>, NoMemory>
    ensures { IfOk result (λ across. MatchOption across ⊤ (λ across. IsAcross outer.now env.now.values across steps.now)) }
{
    let Some((last, _)) = outer.split_last() else {
        return Ok(None);
    };
    let Some(across) = Steps::of(alloc, last, env)? else {
        return Ok(None);
    };
    if across.variable == steps.variable {
        return Ok(None);
    }
    Ok(Some(across))
}

/// A row without accesses.
fn no_row(alloc: Global) -> Row {
    Row {
        reads: Vec::new(alloc),
        variables: Vec::new(alloc),
        writes: Vec::new(alloc),
    }
}

/// A row of so many accesses as another one.
fn another(alloc: Global, row: &Row) -> Result<Row, NoMemory> {
    Ok(Row {
        reads: row.reads.as_slice().to_vec(alloc)?,
        variables: row.variables.as_slice().to_vec(alloc)?,
        writes: row.writes.as_slice().to_vec(alloc)?,
    })
}

/// Whether two lists have the same numbers.
fn are_same(numbers: &[i128], others: &[i128]) -> bool
    ensures { IsTrue result → numbers.now ≡ others.now }
{
    numbers == others
}

impl Band {
    /// One of no rows.
    pub(crate) fn none(alloc: Global, steps: &Steps) -> Band
        ensures { (here : TaskMapNow) (steps : StepsNow) (code : Compiled) → IsBand here steps code result }
    {
        Band {
            across: *steps,
            others: Vec::new(alloc),
            near: no_row(alloc),
            far: no_row(alloc),
            rows: 0,
            next: 0,
            tracks: no_row(alloc),
        }
    }

    /// That of the rows which begin with one; of no rows where it is not the first of them, or where an access is outside at a point
    /// at their corners.
    pub(crate) fn from(
        alloc: Global,
        task: &TaskMap<'_>,
        code: &Code,
        steps: &Steps,
        across: &Steps,
        outer: &[(u32, Range)],
        row: &[i128],
        first: &mut Scope,
        last: &mut Scope,
    ) -> Result<Band, NoMemory>
        requires scalars { AllByRecursion (λ link. is_scalar link.memlet.subset.dims ≡ true) (task.now.ins.now ++ task.now.outs.now) }
        requires steps { IsLast task.now.params.now outer.now task.now.scope.now.values.values steps.now }
        requires across { IsAcross outer.now task.now.scope.now.values.values across.now steps.now }
        requires first { IsInside task.now.private.now task.now.scope.now first.old }
        requires last { IsInside task.now.private.now task.now.scope.now last.old }
        ensures band { IfOk result (IsBand task.now steps.now code.now) }
        ensures first { OnOk result (IsInside task.now.private.now task.now.scope.now first.new) }
        ensures last { OnOk result (IsInside task.now.private.now task.now.scope.now last.new) }
    {
        let Some((value, others)) = row.split_last() else {
            return Ok(Band::none(alloc, steps));
        };
        let Some(gaps) = steps.count.checked_sub(1) else {
            return Ok(Band::none(alloc, steps));
        };
        if row.len() != outer.len() || *value != across.value(0)? {
            return Ok(Band::none(alloc, steps));
        }
        let near = edge_between(
            alloc, task, code, steps, across, outer, others, 0, first, last,
        )?;
        let Some(near) = near else {
            return Ok(Band::none(alloc, steps));
        };
        let far = edge_between(
            alloc, task, code, steps, across, outer, others, gaps, first, last,
        )?;
        let Some(far) = far else {
            return Ok(Band::none(alloc, steps));
        };
        let tracks = another(alloc, &near)?;
        Ok(Band {
            across: *across,
            others: others.to_vec(alloc)?,
            near,
            far,
            rows: across.count,
            next: 0,
            tracks,
        })
    }

    /// Whether a row is the one that comes next.
    fn is_next(&self, row: &[i128]) -> Result<bool, NoMemory>
        ensures row { IfOk result (λ is. IsTrue is → row.now ≡ self.now.others.items ++ step_to self.now.across self.now.next ∷ []) }
        ensures known { IfOk result (λ is. IsTrue is → self.now.next < self.now.rows) }
    {
        let Some((value, others)) = row.split_last() else {
            return Ok(false);
        };
        if self.next >= self.rows || !are_same(others, self.others.as_slice()) {
            return Ok(false);
        }
        if *value != self.across.value(self.next)? {
            return Ok(false);
        }
        Ok(true)
    }

    /// Goes on to a row, where that is the one that comes next; `false` where it is not.
    pub(crate) fn go_on(
        &mut self,
        task: &TaskMap<'_>,
        steps: &Steps,
        outer: &[(u32, Range)],
        row: &[i128],
    ) -> Result<bool, NoMemory>
        requires scalars { AllByRecursion (λ link. is_scalar link.memlet.subset.dims ≡ true) (task.now.ins.now ++ task.now.outs.now) }
        requires steps { IsLast task.now.params.now outer.now task.now.scope.now.values.values steps.now }
        ensures tracks { IfOk result (λ done. IsTrue done → (code : Compiled) → IsBand task.now steps.now code self.old
            → IsRowOf (row_at task.now row.now steps.now) code self.new.tracks steps.now.count) }
        ensures band { (code : Compiled) → IsBand task.now steps.now code self.old → IsBand task.now steps.now code self.new }
    {
        let Some(gaps) = steps.count.checked_sub(1) else {
            return Ok(false);
        };
        if row.len() != outer.len() || !self.is_next(row)? {
            return Ok(false);
        }
        let number = self.next;
        self.next += 1;
        let variables = task.tasklet.variables.as_slice();
        Ok(move_row(
            &mut self.tracks,
            &self.near,
            &self.far,
            variables,
            steps,
            number,
            gaps,
        ))
    }
}

/// The values of the parameters of a row: these, and the one at a position.
fn row_from(
    alloc: Global,
    others: &[i128],
    across: &Steps,
    number: u32,
) -> Result<Vec<i128>, NoMemory>
    ensures { IfOk result (λ row. row.items ≡ others.now ++ step_to across.now number ∷ []) }
{
    followed_by(alloc, others, across.value(number)?)
}

/// The accesses at the points of one number in the rows that begin with these values, from the first row to the last one; `None`
/// where one is outside in one of these two.
fn edge_between(
    alloc: Global,
    task: &TaskMap<'_>,
    code: &Code,
    steps: &Steps,
    across: &Steps,
    outer: &[(u32, Range)],
    others: &[i128],
    k: u32,
    first: &mut Scope,
    last: &mut Scope,
) -> Result<Option<Row>, NoMemory>
    requires scalars { AllByRecursion (λ link. is_scalar link.memlet.subset.dims ≡ true) (task.now.ins.now ++ task.now.outs.now) }
    requires steps { IsLast task.now.params.now outer.now task.now.scope.now.values.values steps.now }
    requires across { IsAcross outer.now task.now.scope.now.values.values across.now steps.now }
    requires many { length others.now + 1 ≡ length outer.now }
    requires first { IsInside task.now.private.now task.now.scope.now first.old }
    requires last { IsInside task.now.private.now task.now.scope.now last.old }
    ensures edge { IfOk result (λ edge. MatchOption edge ⊤ (λ edge. IsRowOf (edge_at task.now others.now across.now steps.now k) code.now edge across.now.count)) }
    ensures first { OnOk result (IsInside task.now.private.now task.now.scope.now first.new) }
    ensures last { OnOk result (IsInside task.now.private.now task.now.scope.now last.new) }
{
    let Some(order) = code.plain() else {
        return Ok(None);
    };
    let Some(gaps) = across.count.checked_sub(1) else {
        return Ok(None);
    };
    let begin = row_from(alloc, others, across, 0)?;
    let end = row_from(alloc, others, across, gaps)?;
    steps.go_to(alloc, task, k, first, begin.as_slice())?;
    steps.go_to(alloc, task, k, last, end.as_slice())?;
    row_between(alloc, task, order, across, gaps, first, last)
}
