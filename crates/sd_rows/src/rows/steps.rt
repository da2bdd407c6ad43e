ghost use Rattle.std.specs.Prelude.{◌≡◌, ◌<◌, ◌^◌, ◌∷◌, [], ◌++◌, IfOk, OnOk};
ghost use Rattle.std.specs.Option.{MatchOption};
ghost use Rattle.std.specs.Bool.{⊤};
ghost use Rattle.sd_range.specs.Range.{range_values, counted_from};
ghost use Rattle.sd_scope.specs.scope.Standing.{IsInside};
ghost use Rattle.sd_rows.specs.rows.Along.{step_to};
ghost use Rattle.sd_rows.specs.rows.Map.{standing, row_at};

use crate::rows::map::TaskMap;
use sd_list::NoMemory;
use sd_range::{Env, Range};
use sd_scope::{Scope, checked_points, value_of};
use std::alloc::Global;
use std::slice;

/// The values that the last parameter of a map takes.
#[derive(Clone, Copy)]
pub(crate) struct Steps {
    pub variable: u32,
    pub first: i64,
    pub step: i64,
    pub count: u32,
}

impl Steps {
    /// Those of a parameter, where they are elements.
    pub(crate) fn of(
        alloc: Global,
        parameter: &(u32, Range),
        env: &Env,
    ) -> Result<Option<Steps>, NoMemory>
        ensures variable { IfOk result (λ steps. MatchOption steps ⊤ (λ steps. steps.variable ≡ parameter.now.0)) }
        ensures values { IfOk result (λ steps. MatchOption steps ⊤ (λ steps. range_values env.now.values parameter.now.1 ≡ counted_from steps.first steps.step steps.count)) }
    {
        let points = checked_points(alloc, slice::from_ref(parameter), env)?;
        let begin = value_of(&parameter.1.begin, env.values.as_slice())?;
        Ok(steps_from(parameter.0, begin, parameter.1.step, points.first_count()))
    }

    /// The value at the point of this number.
    pub(crate) fn value(&self, k: u32) -> Result<i128, NoMemory>
        ensures { IfOk result (λ value. value ≡ step_to self.now k) }
    {
        let further = i128::from(self.step)
            .checked_mul(i128::from(k))
            .ok_or(NoMemory)?;
        i128::from(self.first).checked_add(further).ok_or(NoMemory)
    }

    /// Goes to the point of this number of a row of a map.
    pub(crate) fn go_to(
        &self,
        alloc: Global,
        task: &TaskMap<'_>,
        k: u32,
        inner: &mut Scope,
        row: &[i128],
    ) -> Result<(), NoMemory>
        ensures inside { IsInside task.now.private.now task.now.scope.now inner.old → OnOk result (IsInside task.now.private.now task.now.scope.now inner.new) }
        ensures context { IsInside task.now.private.now task.now.scope.now inner.old → OnOk result (standing task.now inner.new ≡ (row_at task.now row.now self.now).context k) }
    {
        let value = self.value(k)?;
        let point = followed_by(alloc, row, value)?;
        inner.at_point(alloc, task.scope, task.params, point.as_slice())
    }
}

/// So many values from one on.
fn steps_from(variable: u32, begin: i128, step: i128, count: u128) -> Option<Steps>
    ensures { MatchOption result ⊤ (λ steps. (steps.variable ≡ variable) × (steps.first ≡ begin) × (steps.step ≡ step) × (steps.count ≡ count) × (steps.count < 2 ^ 32)) }
{
    Some(Steps {
        variable,
        first: i64::try_from(begin).ok()?,
        step: i64::try_from(step).ok()?,
        count: u32::try_from(count).ok()?,
    })
}

/// A number behind others.
pub(crate) fn followed_by(alloc: Global, row: &[i128], value: i128) -> Result<Vec<i128>, NoMemory>
    ensures { IfOk result (λ point. point.items ≡ row.now ++ value ∷ []) }
{
    let mut point = Vec::with_capacity(alloc, row.len().saturating_add(1))?;
    point.extend_from_slice(row)?;
    point.push(value)?;
    Ok(point)
}
