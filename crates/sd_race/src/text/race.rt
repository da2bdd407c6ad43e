//! The text of a race.
ghost use Rattle.std.specs.Prelude.{◌≡◌, ◌++◌, map, string_bytes, IfOk, OnOk};
ghost use Rattle.sd_graph.specs.TreeFold.{graph_tree, named_container};
ghost use Rattle.sd_prop.specs.propagation.Scopes.{scope_at};
ghost use Rattle.sd_race.specs.checking.Found.{race_of};
ghost use Rattle.sd_race.specs.text.RaceText as definition;

use crate::checking::Race;
use crate::text::access::push_use;
use indexmap::IndexMap;
use sd_graph::{Bound, Container};
use sd_list::NoMemory;
use sd_print::push_path;
use sd_prop::{Access, scope_with, scopes};
use std::alloc::Global;

/// Adds an access with its node.
fn push_side(
    text: &mut String,
    containers: &IndexMap<String, Container>,
    access: &Access,
) -> Result<(), NoMemory>
    ensures { OnOk result (string_bytes text.new ≡ string_bytes text.old ++ definition.side_text (map named_container containers.now.entries) access.now) }
{
    push_use(text, containers, access)?;
    write!(text, " by {}", access.node())?;
    Ok(())
}

/// Adds both accesses of a race.
fn push_sides(
    text: &mut String,
    containers: &IndexMap<String, Container>,
    first: &Access,
    second: &Access,
) -> Result<(), NoMemory>
    ensures { OnOk result (string_bytes text.new ≡ string_bytes text.old ++ definition.sides_text (map named_container containers.now.entries) first.now second.now) }
{
    push_side(text, containers, first)?;
    text.push_str(", ")?;
    push_side(text, containers, second)
}

/// The text of a race, without a newline, as `race at 1.1: read A by 2, write A by 2`.
///
/// Containers have their names in the graph of the scope at the race's path; where no scope has the
/// path they have none.
pub fn race_text(alloc: Global, bound: &Bound, race: &Race) -> Result<String, NoMemory>
    ensures { IfOk result (λ text. string_bytes text ≡ definition.race_text (graph_tree bound.now.graph) (race_of race.now)) }
{
    let all = scopes(alloc, &bound.graph)?;
    let mut text = String::new(alloc);
    text.push_str("race at ")?;
    push_path(&mut text, race.at.steps.as_slice())?;
    text.push_str(": ")?;
    match scope_with(all.as_slice(), race.at.steps.as_slice()) {
        Some(scope) => push_sides(&mut text, scope.containers(), &race.first, &race.second)?,
        None => push_sides(&mut text, &IndexMap::new(alloc), &race.first, &race.second)?,
    }
    Ok(text)
}
