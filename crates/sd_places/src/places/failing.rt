//! The first place at which a rule fails.
ghost use Rattle.std.specs.Prelude.{◌≡◌, [], map, option_map, IfOk};
ghost use Rattle.sd_validity.specs.rules.Failing as failing;
ghost use Rattle.sd_places.specs.places.PlaceOf.{place_of};

use crate::places::place::Place;
use sd_graph::Path;
use sd_list::{NoMemory, Sequence};
use std::alloc::Global;

/// What a rule asks of a place, behind those before it.
pub trait Rule {
    ghost rule: { Self → failing.Rule };

    /// Whether the rule holds there.
    fn holds(
        &self,
        alloc: Global,
        before: &[Place<'_>],
        place: &Place<'_>,
    ) -> Result<bool, NoMemory>
        ensures { IfOk result (λ holds. holds ≡ rule self.now (map place_of before.now) (place_of place.now)) };
}

/// The path of the first place at which the rule fails.
pub fn first_failing<R: Rule>(
    alloc: Global,
    rule: &R,
    places: &[Place<'_>],
) -> Result<Option<Path>, NoMemory>
    ensures { IfOk result (λ path. option_map (λ path. path.steps) path ≡ failing.failing (R.rule rule.now) [] (map place_of places.now)) }
{
    for (number, place) in places.iter().enumerate() {
        if !rule.holds(alloc, &places[..number], place)? {
            let steps = Sequence::from(place.path.as_slice().to_vec(alloc)?);
            return Ok(Some(Path { steps }));
        }
    }
    Ok(None)
}
