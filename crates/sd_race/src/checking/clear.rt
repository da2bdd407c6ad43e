//! Whether accesses are clear of each other, without each two being compared.
ghost use Rattle.std.specs.Prelude.{◌≡◌, ◌<◌, ◌≤◌, ◌++◌, false, IfOk, IsTrue};
ghost use Rattle.std.specs.List.{All};
ghost use Rattle.sd_graph.specs.Mode as modes;
ghost use Rattle.sd_wire.specs.wiring.Mentioned.{mode_of};
ghost use Rattle.sd_race.specs.race.Pairs.{IsAccepted, pair_of};
ghost use Rattle.sd_race.specs.checking.Clear.{AreClear, AreElsewhere, DoAgree, IsFrontClear};

use crate::checking::enclosing::enclosing;
use crate::checking::pair::{are_harmless_over, is_accepted};
use crate::checking::placed::{Placed, in_order};
use sd_list::NoMemory;
use sd_prop::{Access, Scope};
use sd_wire::{UseMode, do_conflict};
use std::alloc::Global;

/// How many accesses are compared two by two.
const FEW: usize = 4;

/// Whether each of these has a container below this one.
fn are_below(items: &[Placed<'_>], container: u32) -> bool
    ensures { IsTrue result → All (λ one. one.access.now.container < container) items.now }
{
    for one in items {
        if container <= one.access.container() {
            return false;
        }
    }
    true
}

/// Whether none of these has a container below this one.
fn are_from(items: &[Placed<'_>], container: u32) -> bool
    ensures { IsTrue result → All (λ one. container ≤ one.access.now.container) items.now }
{
    for one in items {
        if one.access.container() < container {
            return false;
        }
    }
    true
}

/// Whether all containers of these are below those of the others.
fn are_before(some: &[Placed<'_>], others: &[Placed<'_>]) -> bool
    ensures { IsTrue result → AreElsewhere some.now others.now }
{
    let Some(first) = others.first() else {
        return false;
    };
    let container = first.access.container();
    if !are_below(some, container) {
        return false;
    }
    are_from(others, container)
}

/// Whether the containers of some are all below those of others, or all above.
fn are_elsewhere(some: &[Placed<'_>], others: &[Placed<'_>]) -> bool
    ensures { IsTrue result → AreElsewhere some.now others.now }
{
    if are_before(some, others) {
        return true;
    }
    are_before(others, some)
}

/// Whether a mode conflicts with none of these.
fn agrees_with(mode: UseMode, items: &[Placed<'_>]) -> bool
    ensures { IsTrue result → All (λ one. modes.do_conflict (mode_of mode) one.access.now.mode ≡ false) items.now }
{
    for one in items {
        if do_conflict(mode, one.access.mode()) {
            return false;
        }
    }
    true
}

/// Whether the modes of these and others conflict nowhere.
fn do_agree(some: &[Placed<'_>], others: &[Placed<'_>]) -> bool
    ensures { IsTrue result → DoAgree some.now others.now }
{
    let Some(first) = some.first() else {
        return false;
    };
    let mode = first.access.mode();
    if !agrees_with(mode, some) {
        return false;
    }
    agrees_with(mode, others)
}

/// Whether the box that encloses some and the one that encloses others are harmless.
fn are_enclosed_apart(
    alloc: Global,
    scope: &Scope<'_>,
    some: &[Placed<'_>],
    others: &[Placed<'_>],
) -> Result<bool, NoMemory>
    ensures { IfOk result (λ are. IsTrue are → AreClear scope.now some.now others.now) }
{
    let Some(one) = enclosing(alloc, some)? else {
        return Ok(false);
    };
    let Some(other) = enclosing(alloc, others)? else {
        return Ok(false);
    };
    are_harmless_over(
        alloc,
        scope.over(),
        scope.around(),
        one.as_slice(),
        other.as_slice(),
    )
}

/// Whether it is seen of all at once that some are clear of others.
fn is_seen(
    alloc: Global,
    scope: &Scope<'_>,
    some: &[Placed<'_>],
    others: &[Placed<'_>],
) -> Result<bool, NoMemory>
    ensures { IfOk result (λ is. IsTrue is → AreClear scope.now some.now others.now) }
{
    if are_elsewhere(some, others) {
        return Ok(true);
    }
    if do_agree(some, others) {
        return Ok(true);
    }
    are_enclosed_apart(alloc, scope, some, others)
}

/// Whether an access is accepted with each of others.
fn is_clear_of(
    alloc: Global,
    scope: &Scope<'_>,
    access: &Access,
    others: &[Placed<'_>],
) -> Result<bool, NoMemory>
    ensures { IfOk result (λ is. IsTrue is → All (λ other. IsAccepted (pair_of scope.now access.now other.access.now)) others.now) }
{
    for other in others {
        if !is_accepted(alloc, scope, access, other.access)? {
            return Ok(false);
        }
    }
    Ok(true)
}

/// Whether each of some is accepted with each of others, two by two.
fn are_accepted(
    alloc: Global,
    scope: &Scope<'_>,
    some: &[Placed<'_>],
    others: &[Placed<'_>],
) -> Result<bool, NoMemory>
    ensures { IfOk result (λ are. IsTrue are → AreClear scope.now some.now others.now) }
{
    for one in some {
        if !is_clear_of(alloc, scope, one.access, others)? {
            return Ok(false);
        }
    }
    Ok(true)
}

/// Whether each of some is accepted with each of others.
fn are_clear(
    alloc: Global,
    scope: &Scope<'_>,
    some: &[Placed<'_>],
    others: &[Placed<'_>],
) -> Result<bool, NoMemory>
    ensures { IfOk result (λ are. IsTrue are → AreClear scope.now some.now others.now) }
{
    if is_seen(alloc, scope, some, others)? {
        return Ok(true);
    }
    if some.len() <= FEW && others.len() <= FEW {
        return are_accepted(alloc, scope, some, others);
    }
    if some.len() < others.len() {
        let (front, back) = others.split_at(others.len() / 2);
        if !are_clear(alloc, scope, some, front)? {
            return Ok(false);
        }
        return are_clear(alloc, scope, some, back);
    }
    let (front, back) = some.split_at(some.len() / 2);
    if !are_clear(alloc, scope, front, others)? {
        return Ok(false);
    }
    are_clear(alloc, scope, back, others)
}

/// Whether each two of these are accepted.
fn are_clear_among(alloc: Global, scope: &Scope<'_>, items: &[Placed<'_>]) -> Result<bool, NoMemory>
    ensures { IfOk result (λ are. IsTrue are → AreClear scope.now items.now items.now) }
{
    if is_seen(alloc, scope, items, items)? {
        return Ok(true);
    }
    if items.len() <= FEW {
        return are_accepted(alloc, scope, items, items);
    }
    let (front, back) = items.split_at(items.len() / 2);
    if !are_clear_among(alloc, scope, front)? {
        return Ok(false);
    }
    if !are_clear_among(alloc, scope, back)? {
        return Ok(false);
    }
    are_clear(alloc, scope, front, back)
}

/// Whether each of these accesses is accepted with each of them and of those behind them.
pub(crate) fn is_clear(
    alloc: Global,
    scope: &Scope<'_>,
    accesses: &[Access],
    behind: &[Access],
) -> Result<bool, NoMemory>
    ensures { IfOk result (λ is. IsTrue is → IsFrontClear scope.now accesses.now behind.now) }
{
    let some = in_order(alloc, accesses)?;
    if !are_clear_among(alloc, scope, some.as_slice())? {
        return Ok(false);
    }
    let others = in_order(alloc, behind)?;
    are_clear(alloc, scope, some.as_slice(), others.as_slice())
}
