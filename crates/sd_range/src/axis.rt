ghost use Rattle.std.specs.Prelude.{◌≡◌, ◌<◌, ◌≤◌, ◌+◌, ◌-◌, ◌^◌, min, ◌∷◌, ◌+ℤ◌, ◌*ℤ◌, pos, length, map, take, drop, IfOk, [], option_to_list, MatchOption, IsTrue, ◌↔◌};
ghost use Rattle.std.specs.Bool.{OnTrue, OnFalse};
ghost use Rattle.std.specs.List.{All, AllByRecursion};
ghost use Rattle.sd_range.specs.Affine.{IsEvaluable};
ghost use Rattle.sd_range.specs.Range.{IsRange, IsEvaluableRange, least_value};
ghost use Rattle.sd_range.specs.Axis.{axis_of, axis_values, first_of, later_values, Rises, IsFilled, after};

use crate::affine::{Affine, with_term};
use crate::env::Env;
use crate::range::Range;
use sd_list::NoMemory;
use std::alloc::Global;

/// The numbers of one range: `first`, `first` plus `step`, and so on up to `last`.
#[derive(Drop)]
pub(crate) struct Axis {
    pub(crate) first: i128,
    pub(crate) last: i128,
    pub(crate) step: i128,
}

/// The least of the ends of a range.
fn least_end(ends: &[Affine], env: &Env) -> i128
    requires ended { 0 < length ends.now }
    requires evaluable { All (IsEvaluable env.now.values) ends.now }
    ensures { result ≡ least_value env.now.values ends.now }
{
    let Some((first, others)) = ends.split_first() else {
        unreachable!()
    };
    let mut least = first.value(env);
    for end in others {
        least = least.min(end.value(env));
    }
    least
}

/// The numbers of a range, where the variables have these values.
fn axis_of_range(range: &Range, env: &Env) -> Axis
    requires range { IsRange range.now }
    requires evaluable { IsEvaluableRange env.now.values range.now }
    ensures { result ≡ axis_of env.now.values range.now }
{
    Axis {
        first: range.begin.value(env),
        last: least_end(range.ends.as_slice(), env),
        step: range.step,
    }
}

/// The numbers of each range.
pub(crate) fn axes_of_ranges(
    alloc: Global,
    ranges: &[Range],
    env: &Env,
) -> Result<Vec<Axis>, NoMemory>
    requires ranges { All IsRange ranges.now }
    requires evaluable { All (IsEvaluableRange env.now.values) ranges.now }
    ensures { IfOk result (λ axes. axes.items ≡ map (axis_of env.now.values) ranges.now) }
{
    let mut axes = Vec::with_capacity(alloc, ranges.len())?;
    for range in ranges {
        axes.push(axis_of_range(range, env))?;
    }
    Ok(axes)
}

/// Puts the numbers of each range in the place of those of its axis, and the first ones into `at`.
pub(crate) fn renew(ranges: &[Range], env: &Env, axes: &mut [Axis], at: &mut [i128])
    requires ranges { All IsRange ranges.now }
    requires evaluable { All (IsEvaluableRange env.now.values) ranges.now }
    requires same_axes { length axes.old ≡ length ranges.now }
    requires same_numbers { length at.old ≡ length ranges.now }
    ensures axes { axes.new ≡ map (axis_of env.now.values) ranges.now }
    ensures firsts { at.new ≡ map first_of (map (axis_of env.now.values) ranges.now) }
{
    for i in 0..ranges.len() {
        axes[i] = axis_of_range(&ranges[i], env);
        at[i] = axes[i].first;
    }
}

/// How many numbers an axis has; the count stands still at its type's end.
pub(crate) fn count_of(axis: &Axis) -> u128
    requires { Rises axis.now }
    ensures { result ≡ min (length (axis_values axis.now)) (2 ^ 128 - 1) }
{
    if axis.last < axis.first {
        return 0;
    }
    let gaps = axis.last.abs_diff(axis.first) / axis.step.unsigned_abs();
    gaps.saturating_add(1)
}

/// The number that stands at this place on an axis.
fn number_at(axis: &Axis, place: u128) -> i128
    requires rises { Rises axis.now }
    requires within { place < length (axis_values axis.now) }
    ensures { result ≡ axis.now.first +ℤ (pos place *ℤ axis.now.step) }
{
    let number = with_term(axis.first, place.cast_signed(), axis.step);
    prove!(number <= axis.last);
    number
}

/// So many numbers of an axis, from the one at the place `first` on.
pub(crate) fn part_of(axis: &Axis, first: u128, count: u128) -> Axis
    requires rises { Rises axis.now }
    requires within { first + count ≤ length (axis_values axis.now) }
    ensures values { axis_values result ≡ take count (drop first (axis_values axis.now)) }
    ensures rises { Rises result }
    ensures filled { 0 < count → IsFilled result }
{
    if count == 0 {
        return Axis {
            first: 0,
            last: -1,
            step: axis.step,
        };
    }
    let rest = Axis {
        first: number_at(axis, first),
        last: axis.last,
        step: axis.step,
    };
    Axis {
        first: rest.first,
        last: number_at(&rest, count - 1),
        step: rest.step,
    }
}

/// The first number of each axis.
pub(crate) fn firsts_of(alloc: Global, axes: &[Axis]) -> Result<Vec<i128>, NoMemory>
    ensures { IfOk result (λ at. at.items ≡ map first_of axes.now) }
{
    Ok(axes.iter().map(|axis| axis.first).collect(alloc)?)
}

/// Whether each axis has a number, so that there is a point.
pub(crate) fn are_filled(axes: &[Axis]) -> bool
    ensures { IsTrue result ↔ All IsFilled axes.now }
{
    axes.iter().all(|axis| axis.first <= axis.last)
}

/// The number of an axis that comes after this one.
fn later(axis: &Axis, number: i128) -> Option<i128>
    requires { Rises axis.now }
    ensures { MatchOption result (later_values axis.now number ≡ []) (λ next. later_values axis.now number ≡ next ∷ later_values axis.now next) }
{
    let last = axis.last;
    let next = number.checked_add(axis.step)?;
    if next <= last { Some(next) } else { None }
}

/// Goes to the point after this one, or back to the first point where none is after it.
pub(crate) fn advance(axes: &[Axis], at: &mut [i128]) -> bool
    requires same_length { length at.old ≡ length axes.now }
    requires rising { AllByRecursion Rises axes.now }
    requires filled { AllByRecursion IsFilled axes.now }
    ensures moved { OnTrue result (after axes.now at.old ≡ at.new ∷ after axes.now at.new) }
    ensures over { OnFalse result (after axes.now at.old ≡ []) }
    ensures round { OnFalse result (at.new ≡ map first_of axes.now) }
{
    let Some((axis, inner)) = axes.split_first() else {
        return false;
    };
    let Some((number, rest)) = at.split_first_mut() else {
        return false;
    };
    if advance(inner, rest) {
        return true;
    }
    match later(axis, *number) {
        Some(next) => {
            *number = next;
            true
        }
        None => {
            *number = axis.first;
            false
        }
    }
}
