//! Two maps, one alone in the other, interchanged.
ghost use Rattle.std.specs.Prelude.{◌≡◌, [], None, IfOk, IfErr, OnOk};
ghost use Rattle.sd_graph.specs.TreeFold.{graph_tree, item_trees, kind_tree};
ghost use Rattle.sd_alike.specs.alike.Places as places;
ghost use Rattle.sd_exchange.specs.maps.OrderRewrites as specs;
ghost use Rattle.sd_mapx.specs.Conditions.{Tells, lowest_failing};
ghost use Rattle.sd_mapx.specs.MapConditions as conditions;
ghost use Rattle.sd_mapx.specs.Results as results;

use crate::copies;
use crate::found::found_at;
use crate::limits::meets_limits;
use crate::maps::{ask, keep, map_of};
use crate::pairs::pair_in;
use crate::paths::place_of;
use crate::rebuilt::{Replace, rebuild};
use crate::refused::Refused;
use crate::scopes::{are_pools_free, is_free_at, is_free_behind};
use crate::tests::{is_inner_free, is_map, is_round_one_map};
use sd_graph::{Bound, Item, ItemKind, Path};
use sd_list::NoMemory;
use sd_prop::scopes;
use std::alloc::Global;

/// The parameters of a map and of the one map in it exchanged; each list takes its mark along.
struct Interchanging;

impl Replace for Interchanging {
    ghost replacing = { λ _. specs.interchanged };

    ghost further = { λ _. [] };

    fn names(&self) -> &[String] {
        &[]
    }

    fn put(
        &self,
        alloc: Global,
        _variables: u32,
        line: u32,
        kind: &ItemKind,
        items: &mut Vec<Item>,
    ) -> Result<(), NoMemory> {
        let Some(pair) = pair_in(kind) else {
            return keep(alloc, line, kind, items);
        };
        let outer = copies::params(alloc, pair.outer)?;
        let body = copies::items(alloc, pair.body)?;
        let within = map_of(alloc, pair.outer_sequential, outer, pair.private, body)?;
        let alone = copies::sole(alloc, pair.line, within)?;
        let inner = copies::params(alloc, pair.inner)?;
        let kind = map_of(alloc, pair.inner_sequential, inner, &[], alone)?;
        items.push(Item { line, kind })?;
        Ok(())
    }
}

/// The map at a path and the one map in it interchanged: each has the parameters and the mark of the other. Refuses
/// with the lowest condition that fails.
pub fn interchange(alloc: Global, bound: &Bound, at: &Path) -> Result<Bound, Refused>
    ensures result { IfOk result (λ new. graph_tree new.graph ≡ results.interchanged_at (graph_tree bound.now.graph) at.now.steps) }
    ensures holds { IfOk result (λ _. lowest_failing (conditions.interchange_conditions (graph_tree bound.now.graph) at.now.steps) ≡ None) }
    ensures refused { IfErr result (Tells (lowest_failing (conditions.interchange_conditions (graph_tree bound.now.graph) at.now.steps))) }
{
    let path = at.steps.as_slice();
    let Some(place) = place_of(alloc, &bound.graph, path)? else {
        return Err(Refused::Condition(1));
    };
    let Some(found) = found_at(&bound.graph, place.as_slice()) else {
        return Err(Refused::Condition(1));
    };
    ask(1, is_map(found.kind))?;
    ask(2, is_round_one_map(found.kind))?;
    ask(3, is_inner_free(found.kind))?;
    let all = scopes(alloc, &bound.graph)?;
    let is_free = is_free_at(alloc, path, all.as_slice())?;
    ask(4, is_free && is_free_behind(alloc, path, all.as_slice())?)?;
    ask(8, are_pools_free(alloc, all.as_slice())?)?;
    let graph = rebuild(alloc, &Interchanging, &bound.graph, place.as_slice())?;
    ask(9, meets_limits(alloc, &graph)?)?;
    Ok(Bound { graph })
}
