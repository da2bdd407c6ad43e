//! Where the accesses of a tasklet whose effects are kept lead, along a row.
ghost use Rattle.std.specs.Prelude.{◌≡◌, ◌+◌, ◌<◌, ◌≤◌, ◌∷◌, [], ℕ, ℤ, pos, true, List, Some, IfOk};
ghost use Rattle.std.specs.Option.{MatchOption};
ghost use Rattle.std.specs.Bool.{⊤};
ghost use Rattle.std.specs.List.{AllByRecursion, AllZip};
ghost use Rattle.sd_graph.specs.PlainTree.{GraphTree};
ghost use Rattle.sd_graph.specs.Context.{Context, link_element, link_extents};
ghost use Rattle.sd_scope.specs.scope.Standing.{context_of};
ghost use Rattle.sd_scope.specs.declared.scope.base.Base.{Base as BaseNow};
ghost use Rattle.sd_scope.specs.even.Even.{is_scalar};
ghost use Rattle.sd_row.specs.row.Row.{reference_on};
ghost use Rattle.sd_row.specs.instance.Known.{IsTarget, AreKnown};
ghost use Rattle.sd_rows.specs.declared.rows.steps.Steps.{Steps as StepsNow};
ghost use Rattle.sd_rows.specs.rows.Along.{IsFromTo};
ghost use Rattle.sd_rows.specs.rows.Map.{tree_of, standing};
ghost use Rattle.sd_rows.specs.rows.Still.{is_still};

use crate::rows::between::{track_of, tracks_of, values_of_variables};
use crate::rows::map::TaskMap;
use crate::rows::spacing::spaced_between;
use crate::rows::steps::Steps;
use sd_graph::Link;
use sd_list::NoMemory;
use sd_row::{Accesses, Target, Track, is_stream};
use sd_scope::{Scope, connector_extents, has_one_element, link_cell, station};
use std::alloc::Global;

/// The accesses between two scopes that stand at the ends of a row, so many points apart; `None` where one of an element is outside at
/// one of them.
pub(crate) fn accesses_between(
    alloc: Global,
    task: &TaskMap<'_>,
    steps: &Steps,
    gaps: u32,
    first: &Scope,
    last: &Scope,
) -> Result<Option<Accesses>, NoMemory>
    requires scalars { AllByRecursion (λ link. is_scalar link.memlet.subset.dims ≡ true) task.now.ins.now }
    requires still { AllByRecursion (λ link. is_still steps.now.variable link.memlet.subset.dims ≡ true) task.now.outs.now }
    ensures { IfOk result (λ accesses. MatchOption accesses ⊤ (λ accesses. (values : List ℤ) (context : ℕ → Context)
        → IsFromTo steps.now gaps (standing task.now first.now) (standing task.now last.now) values context → (k : ℕ) → k ≤ gaps
        → AreKnown (tree_of task.now) task.now.ins.now task.now.outs.now k (context k) (standing task.now first.now) accesses)) }
{
    let Some(reads) = tracks_of(alloc, task, task.ins, gaps, first, last)? else {
        return Ok(None);
    };
    let variables = values_of_variables(
        alloc,
        task.tasklet.variables.as_slice(),
        steps,
        &first.values,
    )?;
    let Some(targets) = targets_between(alloc, task, task.outs, gaps, first, last)? else {
        return Ok(None);
    };
    Ok(Some(Accesses {
        reads,
        variables,
        targets,
    }))
}

/// The targets of the outputs; `None` where one of an element is outside at an end.
fn targets_between(
    alloc: Global,
    task: &TaskMap<'_>,
    outs: &[Link],
    gaps: u32,
    first: &Scope,
    last: &Scope,
) -> Result<Option<Vec<Target>>, NoMemory>
    ensures { IfOk result (λ targets. MatchOption targets ⊤ (λ targets. (steps : StepsNow) (values : List ℤ) (context : ℕ → Context)
        → AllByRecursion (λ link. is_still steps.variable link.memlet.subset.dims ≡ true) outs.now
        → IsFromTo steps gaps (standing task.now first.now) (standing task.now last.now) values context → (k : ℕ) → k ≤ gaps
        → AllZip (IsTarget k (context k) (standing task.now first.now)) outs.now targets.items)) }
{
    let mut targets = Vec::with_capacity(alloc, outs.len())?;
    for link in outs {
        let Some(target) = target_between(alloc, task, link, gaps, first, last)? else {
            return Ok(None);
        };
        targets.push(target)?;
    }
    Ok(Some(targets))
}

/// The target of an output.
fn target_between(
    alloc: Global,
    task: &TaskMap<'_>,
    link: &Link,
    gaps: u32,
    first: &Scope,
    last: &Scope,
) -> Result<Option<Target>, NoMemory>
    ensures { IfOk result (λ target. MatchOption target ⊤ (λ target. (steps : StepsNow) (values : List ℤ) (context : ℕ → Context) → is_still steps.variable link.now.memlet.subset.dims ≡ true
        → IsFromTo steps gaps (standing task.now first.now) (standing task.now last.now) values context → (k : ℕ) → k ≤ gaps
        → IsTarget k (context k) (standing task.now first.now) link.now target)) }
{
    if is_stream(task.graph, link.memlet.container) {
        let station = station(task.base, first, link.memlet.container)?;
        return Ok(Some(Target::Stream(station)));
    }
    let by = link.memlet.resolution;
    if has_one_element(link.memlet.subset.dims.as_slice()) {
        return match track_of(alloc, task, link, gaps, first, last)? {
            Some(to) => Ok(Some(Target::Element(by, to))),
            None => Ok(None),
        };
    }
    match track_of_places(alloc, task, link, first)? {
        Some(places) => Ok(Some(Target::Among(by, places.to, places.count))),
        None => Ok(Some(Target::Computed)),
    }
}

/// The elements at so many places in the one range of a subset.
#[derive(Clone, Copy)]
struct Places {
    to: Track,
    count: u32,
}

/// The elements at the places in the one range of a link, where they are inside.
fn track_of_places(
    alloc: Global,
    task: &TaskMap<'_>,
    link: &Link,
    here: &Scope,
) -> Result<Option<Places>, NoMemory>
    ensures elements { IfOk result (λ places. MatchOption places ⊤ (λ places. (place : ℕ) → place < places.count → link_element (standing task.now here.now) link.now (pos place ∷ []) ≡ Some (reference_on places.to place))) }
    ensures extents { IfOk result (λ places. MatchOption places ⊤ (λ places. link_extents (standing task.now here.now) link.now ≡ places.count ∷ [])) }
{
    let Some(gaps) = gaps_of_places(alloc, link, here)? else {
        return Ok(None);
    };
    let Some(begin) = link_cell(alloc, task.graph, task.base, here, link, &[0])? else {
        return Ok(None);
    };
    let Some(end) = link_cell(
        alloc,
        task.graph,
        task.base,
        here,
        link,
        &[i128::from(gaps)],
    )?
    else {
        return Ok(None);
    };
    match spaced_between(begin.element, end.element, gaps, 0) {
        Some(elements) => Ok(places_on(
            Track {
                station: begin.station,
                elements,
            },
            gaps,
        )),
        None => Ok(None),
    }
}

/// So many places on a track, and one more.
fn places_on(to: Track, gaps: u32) -> Option<Places>
    ensures { MatchOption result ⊤ (λ places. (places.to ≡ to) × (places.count ≡ gaps + 1)) }
{
    let count = gaps.checked_add(1)?;
    Some(Places { to, count })
}

/// How far the last place in the one range of a link is from the first one; `None` where there is no place, or another number of
/// ranges.
fn gaps_of_places(alloc: Global, link: &Link, here: &Scope) -> Result<Option<u32>, NoMemory>
    ensures { IfOk result (λ gaps. MatchOption gaps ⊤ (λ gaps. (tree : GraphTree) (base : BaseNow) → link_extents (context_of tree base here.now) link.now ≡ (gaps + 1) ∷ [])) }
{
    let extents = connector_extents(alloc, here, link)?;
    match only_one(extents.as_slice()) {
        Some(count) => Ok(gaps_of(count)),
        None => Ok(None),
    }
}

/// The number of a list that has one.
fn only_one(numbers: &[u128]) -> Option<u128>
    ensures { MatchOption result ⊤ (λ number. numbers.now ≡ number ∷ []) }
{
    if numbers.len() != 1 {
        return None;
    }
    Some(numbers[0])
}

/// One less than a number that is not 0, where that is small.
fn gaps_of(count: u128) -> Option<u32>
    ensures { MatchOption result ⊤ (λ gaps. count ≡ gaps + 1) }
{
    let gaps = count.checked_sub(1)?;
    u32::try_from(gaps).ok()
}
