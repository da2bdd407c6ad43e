//! Whether two accesses of a scope's body are accepted.
ghost use Rattle.std.specs.Prelude.{◌≡◌, ◌↔◌, IfOk, IsTrue};
ghost use Rattle.sd_prop.specs.collecting.Plain.{over_of};
ghost use Rattle.sd_race.specs.race.Pairs.{AreHarmlessOver, IsAccepted, pair_of};

use sd_list::NoMemory;
use sd_prop::{Access, Over, Scope};
use sd_range::Range;
use sd_subset::{Bounds, are_harmless};
use sd_wire::do_conflict;
use std::alloc::Global;

/// Whether two boxes share no element where the body is done twice.
pub(crate) fn are_harmless_over(
    alloc: Global,
    over: &Over,
    around: &[(u32, Range)],
    one: &[Bounds],
    other: &[Bounds],
) -> Result<bool, NoMemory>
    ensures { IfOk result (λ are. (IsTrue are) ↔ (AreHarmlessOver (over_of over.now) around.now one.now other.now)) }
{
    match over {
        Over::Points { params, .. } => are_harmless(alloc, around, params.as_slice(), one, other),
        Over::Elements => Ok(false),
    }
}

/// Whether two accesses of the body of a scope are accepted.
pub(crate) fn is_accepted(
    alloc: Global,
    scope: &Scope<'_>,
    first: &Access,
    second: &Access,
) -> Result<bool, NoMemory>
    ensures { IfOk result (λ is. (IsTrue is) ↔ (IsAccepted (pair_of scope.now first.now second.now))) }
{
    if first.container() != second.container() || !do_conflict(first.mode(), second.mode()) {
        return Ok(true);
    }
    are_harmless_over(
        alloc,
        scope.over(),
        scope.around(),
        first.bounds(),
        second.bounds(),
    )
}
