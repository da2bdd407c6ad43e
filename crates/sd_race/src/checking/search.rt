//! The search for the first pair that is not accepted.
ghost use Rattle.std.specs.Prelude.{◌≡◌, ◌↔◌, Option, Some, None, map, option_map, IfOk, IfErr, IsTrue};
ghost use Rattle.std.specs.List.{flat_map};
ghost use Rattle.sd_graph.specs.TreeFold.{graph_tree};
ghost use Rattle.sd_prop.specs.propagation.Scopes.{scope_at};
ghost use Rattle.sd_race.specs.race.Pairs.{IsFreeOfRaces, IsGraphAccepted, asked_pairs, pair_of, pairs_among, pairs_of};
ghost use Rattle.sd_race.specs.race.Race as plain;
ghost use Rattle.sd_race.specs.checking.Found.{IsFirstOf, TellsRaceOf, IsVerdict, race_of};

use crate::checking::alike::is_like_earlier;
use crate::checking::clear::is_clear;
use crate::checking::mixing::digest_of;
use crate::checking::pair::is_accepted;
use crate::checking::race::{Race, RaceError};
use sd_graph::{Bound, Path};
use sd_list::NoMemory;
use sd_prop::{Access, Scope, scope_with, scopes};
use std::alloc::Global;
use std::collections::BTreeMap;

/// The first race of an access with one of these.
fn race_with(
    alloc: Global,
    scope: &Scope<'_>,
    access: &Access,
    others: &[Access],
) -> Result<Option<Race>, NoMemory>
    ensures { IfOk result (λ found. IsFirstOf (map (pair_of scope.now access.now) others.now) (option_map race_of found)) }
{
    for other in others {
        if !is_accepted(alloc, scope, access, other)? {
            return Ok(Some(Race::of(alloc, scope.path(), access, other)?));
        }
    }
    Ok(None)
}

/// The accesses of a scope from the first on that has a race with itself or with one behind it.
fn from_first_race<'a>(alloc: Global, scope: &'a Scope<'_>) -> Result<&'a [Access], NoMemory>
    ensures { IfOk result (λ left. (race : Option plain.Race) → IsFirstOf (pairs_among scope.now left.now) race → IsFirstOf (pairs_of scope.now) race) }
{
    let mut left = scope.accesses();
    if is_clear(alloc, scope, left, &[])? {
        return Ok(&[]);
    }
    let mut size = left.len();
    while 1 < size {
        let half = size / 2;
        let (front, behind) = left.split_at(half);
        if is_clear(alloc, scope, front, behind)? {
            left = behind;
            size -= half;
        } else {
            size = half;
        }
    }
    Ok(left)
}

/// The first race of a scope.
fn race_in(alloc: Global, scope: &Scope<'_>) -> Result<Option<Race>, NoMemory>
    ensures { IfOk result (λ found. IsFirstOf (pairs_of scope.now) (option_map race_of found)) }
{
    let mut left = from_first_race(alloc, scope)?;
    while let Some((access, behind)) = left.split_first() {
        if let Some(race) = race_with(alloc, scope, access, left)? {
            return Ok(Some(race));
        }
        left = behind;
    }
    Ok(None)
}

/// The first race of a scope among the pairs that are asked of it: of a sequential map there are none.
fn asked_race(alloc: Global, scope: &Scope<'_>) -> Result<Option<Race>, NoMemory>
    ensures { IfOk result (λ found. IsFirstOf (asked_pairs scope.now) (option_map race_of found)) }
{
    if scope.is_sequential() {
        return Ok(None);
    }
    race_in(alloc, scope)
}

/// The first race of scopes.
fn race_among(alloc: Global, all: &[Scope<'_>]) -> Result<Option<Race>, NoMemory>
    ensures { IfOk result (λ found. IsFirstOf (flat_map asked_pairs all.now) (option_map race_of found)) }
{
    let mut known = BTreeMap::new(alloc);
    for (i, scope) in all.iter().enumerate() {
        let digest = digest_of(scope);
        if is_like_earlier(scope, &all[..i], known.get(&digest).copied()) {
            continue;
        }
        if let Some(race) = asked_race(alloc, scope)? {
            return Ok(Some(race));
        }
        known.insert(digest, i)?;
    }
    Ok(None)
}

/// The race check: refuses exactly where some two accesses of a scope are not accepted, with the first such
/// pair, by scopes in the order of states and nodes, and in a scope by its accesses. The points of a
/// sequential map come one after another, so only the scopes inside it are looked at.
pub fn check(alloc: Global, bound: &Bound) -> Result<(), RaceError>
    ensures accepted { IfOk result (λ _. IsGraphAccepted (graph_tree bound.now.graph)) }
    ensures refused { IfErr result (TellsRaceOf (graph_tree bound.now.graph)) }
{
    let all = scopes(alloc, &bound.graph)?;
    match race_among(alloc, all.as_slice())? {
        None => Ok(()),
        Some(race) => Err(RaceError::At(race)),
    }
}

/// Whether a scope is free of races: each two of its accesses are accepted. A mark that makes a map
/// sequential is not looked at.
pub fn is_free_of_races(alloc: Global, scope: &Scope<'_>) -> Result<bool, NoMemory>
    ensures { IfOk result (λ free. IsTrue free ↔ IsFreeOfRaces scope.now) }
{
    let race = race_in(alloc, scope)?;
    Ok(race.is_none())
}

/// Whether the scope with this path is free of races. `None` where no scope has the path.
pub fn scope_accepted(alloc: Global, bound: &Bound, path: &Path) -> Result<Option<bool>, NoMemory>
    ensures { IfOk result (λ verdict. IsVerdict verdict (scope_at (graph_tree bound.now.graph) path.now.steps)) }
{
    let all = scopes(alloc, &bound.graph)?;
    let Some(scope) = scope_with(all.as_slice(), path.steps.as_slice()) else {
        return Ok(None);
    };
    Ok(Some(is_free_of_races(alloc, scope)?))
}
