//! How many points a map has, and the numbers of one of them.
ghost use Rattle.std.specs.Prelude.{◌≡◌, ◌<◌, ◌∷◌, [], ℕ, length, slice_index_or, pos, IfOk};
ghost use Rattle.std.specs.Option.{MatchOption};
ghost use Rattle.std.specs.Bool.{⊤};
ghost use Rattle.sd_range.specs.Range.{range_values};
ghost use Rattle.sd_range.specs.Points.{points, ranges_of};
ghost use Rattle.sd_range.specs.declared.range.Range.{Range as RangeNow};

use sd_list::NoMemory;
use sd_range::{Env, Range};
use sd_scope::checked_points;
use std::alloc::Global;

/// How many points parameters have, where the variables have these values; `None` where 64 bits do not tell.
pub(crate) fn count_points(
    alloc: Global,
    params: &[(u32, Range)],
    env: &Env,
) -> Result<Option<usize>, NoMemory>
    ensures { IfOk result (λ told. MatchOption told ⊤ (λ count. count ≡ length (points (ranges_of params.now) env.now.values))) }
{
    let mut count: usize = 1;
    for number in 0..params.len() {
        let here = count_values(alloc, &params[number..number + 1], env)?;
        let Some(more) = count.checked_mul(here) else {
            return Ok(None);
        };
        count = more;
    }
    Ok(Some(count))
}

/// How many values the one parameter takes.
fn count_values(alloc: Global, param: &[(u32, Range)], env: &Env) -> Result<usize, NoMemory>
    ensures { IfOk result (λ count. (variable : ℕ) (range : RangeNow) → param.now ≡ (variable, range) ∷ [] → count ≡ length (range_values env.now.values range)) }
{
    let points = checked_points(alloc, param, env)?;
    usize::try_from(points.first_count()).map_err(|_| NoMemory)
}

/// The value of the one parameter that has this number.
fn value_at(
    alloc: Global,
    param: &[(u32, Range)],
    env: &Env,
    number: usize,
) -> Result<i128, NoMemory>
    ensures there { IfOk result (λ value. (variable : ℕ) (range : RangeNow) → param.now ≡ (variable, range) ∷ [] → number < length (range_values env.now.values range)) }
    ensures value { IfOk result (λ value. (variable : ℕ) (range : RangeNow) → param.now ≡ (variable, range) ∷ [] → value ≡ slice_index_or (range_values env.now.values range) number (pos 0)) }
{
    let mut points = checked_points(alloc, param, env)?;
    let place = number as u128;
    if place >= points.first_count() {
        return Err(NoMemory);
    }
    points.piece(place, 1);
    if !points.next() {
        return Err(NoMemory);
    }
    match points.at().first() {
        Some(value) => Ok(*value),
        None => Err(NoMemory),
    }
}

/// The numbers of the point of this place.
pub(crate) fn point_at(
    alloc: Global,
    params: &[(u32, Range)],
    env: &Env,
    place: usize,
) -> Result<Vec<i128>, NoMemory>
    ensures { IfOk result (λ at. at.items ≡ slice_index_or (points (ranges_of params.now) env.now.values) place []) }
{
    let mut at = Vec::with_capacity(alloc, params.len())?;
    let mut rest = place;
    for number in 0..params.len() {
        let told = count_points(alloc, &params[number + 1..], env)?;
        let Some(behind) = told else {
            return Err(NoMemory);
        };
        if behind == 0 {
            return Err(NoMemory);
        }
        let value = value_at(alloc, &params[number..number + 1], env, rest / behind)?;
        at.push(value)?;
        rest %= behind;
    }
    Ok(at)
}
