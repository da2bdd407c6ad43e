//! The rules of valid graphs, the lowest first.
ghost use Rattle.std.specs.Prelude.{◌≡◌, [], None, map, option_map, IfErr, IfOk};
ghost use Rattle.sd_graph.specs.TreeFold.{graph_tree};
ghost use Rattle.sd_places.specs.places.PlaceOf.{place_of};
ghost use Rattle.sd_validity.specs.rules.Failing.{failing};
ghost use Rattle.sd_validity.specs.rules.Valid.{IsValid, invalidity};
ghost use Rattle.sd_validity.specs.rules.WithinLimits.{rule_7};
ghost use Rattle.sd_validate.specs.validating.Invalidity.{Tells};

use crate::limits::first_over_limits;
use crate::validating::invalid::Invalid;
use sd_graph::{Bound, Path};
use sd_links::{Dimensions, MovedShapes, NestedLinks};
use sd_places::{Place, Rule, all_places, first_failing};
use sd_rules::{NamesInForce, SizesGone, Streams, Transitions};
use std::alloc::Global;

/// Refuses where a rule, of this number, fails at a place.
fn refuse(rule: u8, path: Option<Path>) -> Result<(), Invalid>
    ensures ok { IfOk result (λ _. path ≡ None) }
    ensures err { IfErr result (Tells (option_map (λ path. (rule, path.steps)) path)) }
{
    match path {
        None => Ok(()),
        Some(path) => Err(Invalid::At { rule, path }),
    }
}

/// Asks a rule, of this number, at all places.
fn ask<R: Rule>(alloc: Global, number: u8, rule: &R, places: &[Place<'_>]) -> Result<(), Invalid>
    ensures ok { IfOk result (λ _. failing (R.rule rule.now) [] (map place_of places.now) ≡ None) }
    ensures err { IfErr result (Tells (option_map (λ path. (number, path)) (failing (R.rule rule.now) [] (map place_of places.now)))) }
{
    let path = first_failing(alloc, rule, places)?;
    refuse(number, path)
}

/// Asks at all places whether they are within the limits.
fn ask_limits(alloc: Global, places: &[Place<'_>]) -> Result<(), Invalid>
    ensures ok { IfOk result (λ _. failing rule_7 [] (map place_of places.now) ≡ None) }
    ensures err { IfErr result (Tells (option_map (λ path. (7, path)) (failing rule_7 [] (map place_of places.now)))) }
{
    let path = first_over_limits(alloc, places)?;
    refuse(7, path)
}

/// Refuses a graph that is not valid: tells the lowest rule that fails, and the first place at which
/// it does.
#[tactic(auto, using(crate::proofs::validating_lemmas::Lowest::told_first, crate::proofs::validating_lemmas::Lowest::told_later))]
pub fn validate(alloc: Global, bound: &Bound) -> Result<(), Invalid>
    ensures valid { IfOk result (λ _. IsValid (graph_tree bound.now.graph)) }
    ensures invalid { IfErr result (Tells (invalidity (graph_tree bound.now.graph))) }
{
    let places = all_places(alloc, &bound.graph)?;
    ask(alloc, 1, &NamesInForce, places.as_slice())?;
    ask(alloc, 2, &Dimensions, places.as_slice())?;
    ask(alloc, 3, &Transitions, places.as_slice())?;
    ask(alloc, 4, &Streams, places.as_slice())?;
    ask(alloc, 5, &NestedLinks, places.as_slice())?;
    ask(alloc, 6, &MovedShapes, places.as_slice())?;
    ask_limits(alloc, places.as_slice())?;
    ask(alloc, 8, &SizesGone, places.as_slice())
}
