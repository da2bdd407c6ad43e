//! Maps collapsed and expanded.
ghost use Rattle.std.specs.Prelude.{◌≡◌, ◌++◌, true, false, [], None, IfOk, IfErr, OnOk};
ghost use Rattle.sd_graph.specs.TreeFold.{graph_tree, item_trees, kind_tree};
ghost use Rattle.sd_mapx.specs.declared.refused.Refused.TheVariants.{Condition};
ghost use Rattle.sd_graph.specs.PlainTree.{and_item, map_scope, no_item};
ghost use Rattle.sd_alike.specs.alike.Places as places;
ghost use Rattle.sd_alike.specs.alike.Maps as specs;
ghost use Rattle.sd_mapx.specs.Conditions.{Tells, lowest_failing};
ghost use Rattle.sd_mapx.specs.MapConditions as conditions;
ghost use Rattle.sd_mapx.specs.Results as results;

use crate::copies;
use crate::found::found_at;
use crate::limits::meets_limits;
use crate::pairs::pair_in;
use crate::paths::place_of;
use crate::rebuilt::{Replace, rebuild};
use crate::refused::Refused;
use crate::tests::{has_two_params, is_inner_free, is_map, is_round_one_map};
use sd_graph::{Bound, Item, ItemKind, Path};
use sd_list::NoMemory;
use sd_range::Range;
use std::alloc::Global;

/// Adds the item as it is.
pub(crate) fn keep(
    alloc: Global,
    line: u32,
    kind: &ItemKind,
    items: &mut Vec<Item>,
) -> Result<(), NoMemory>
    ensures { OnOk result (item_trees items.new.items ≡ places.items_then (item_trees items.old.items) (and_item line (kind_tree kind.now) no_item)) }
{
    let kind = kind.copy_of(alloc)?;
    items.push(Item { line, kind })?;
    Ok(())
}

/// Parameters with others behind them.
fn joined(
    alloc: Global,
    params: &[(u32, Range)],
    others: &[(u32, Range)],
) -> Result<Vec<(u32, Range)>, NoMemory>
    ensures { IfOk result (λ all. all.items ≡ params.now ++ others.now) }
{
    let mut all = copies::params(alloc, params)?;
    for (variable, range) in others {
        all.push((*variable, range.copy_of(alloc)?))?;
    }
    Ok(all)
}

/// A map with these parameters, private containers and items.
pub(crate) fn map_of(
    alloc: Global,
    sequential: bool,
    params: Vec<(u32, Range)>,
    private: &[u32],
    body: Vec<Item>,
) -> Result<ItemKind, NoMemory>
    ensures { IfOk result (λ new. kind_tree new ≡ map_scope sequential params.items private.now (item_trees body.items)) }
{
    Ok(ItemKind::Map {
        params,
        private: private.to_vec(alloc)?,
        body,
        sequential,
    })
}

/// One map in the place of a map and the map in it.
struct Collapsing;

impl Replace for Collapsing {
    ghost replacing = { λ _. specs.collapsed };

    ghost further = { λ _. [] };

    fn names(&self) -> &[String] {
        &[]
    }

    fn put(
        &self,
        alloc: Global,
        _variables: u32,
        line: u32,
        kind: &ItemKind,
        items: &mut Vec<Item>,
    ) -> Result<(), NoMemory> {
        let Some(pair) = pair_in(kind) else {
            return keep(alloc, line, kind, items);
        };
        let params = joined(alloc, pair.outer, pair.inner)?;
        let body = copies::items(alloc, pair.body)?;
        let sequential = pair.outer_sequential || pair.inner_sequential;
        let kind = map_of(alloc, sequential, params, pair.private, body)?;
        items.push(Item { line, kind })?;
        Ok(())
    }
}

/// A map of the first parameter round a map of the others.
struct Expanding;

impl Replace for Expanding {
    ghost replacing = { λ _. specs.expanded };

    ghost further = { λ _. [] };

    fn names(&self) -> &[String] {
        &[]
    }

    fn put(
        &self,
        alloc: Global,
        _variables: u32,
        line: u32,
        kind: &ItemKind,
        items: &mut Vec<Item>,
    ) -> Result<(), NoMemory> {
        let ItemKind::Map {
            params,
            private,
            body,
            sequential,
        } = kind
        else {
            return keep(alloc, line, kind, items);
        };
        let Some(((variable, range), others)) = params.split_first() else {
            return keep(alloc, line, kind, items);
        };
        if others.is_empty() {
            return keep(alloc, line, kind, items);
        }
        let others = copies::params(alloc, others)?;
        let body = copies::items(alloc, body)?;
        let inner = map_of(alloc, *sequential, others, private, body)?;
        let mut within = Vec::new(alloc);
        within.push(Item { line, kind: inner })?;
        let first = (*variable, range.copy_of(alloc)?);
        let kind = map_of(alloc, *sequential, vec![in alloc; first]?, &[], within)?;
        items.push(Item { line, kind })?;
        Ok(())
    }
}

/// Refuses where a condition, of this number, fails.
pub(crate) fn ask(number: u8, holds: bool) -> Result<(), Refused>
    ensures ok { IfOk result (λ _. holds ≡ true) }
    ensures err { IfErr result (λ refused. (holds ≡ false) × (refused ≡ Condition number)) }
{
    if holds {
        Ok(())
    } else {
        Err(Refused::Condition(number))
    }
}

/// The two maps at a path as one: the outer parameters, then the inner ones. Refuses with the lowest condition
/// that fails.
pub fn collapse(alloc: Global, bound: &Bound, at: &Path) -> Result<Bound, Refused>
    ensures result { IfOk result (λ new. graph_tree new.graph ≡ results.collapsed_at (graph_tree bound.now.graph) at.now.steps) }
    ensures holds { IfOk result (λ _. lowest_failing (conditions.collapse_conditions (graph_tree bound.now.graph) at.now.steps) ≡ None) }
    ensures refused { IfErr result (Tells (lowest_failing (conditions.collapse_conditions (graph_tree bound.now.graph) at.now.steps))) }
{
    let Some(place) = place_of(alloc, &bound.graph, at.steps.as_slice())? else {
        return Err(Refused::Condition(1));
    };
    let Some(found) = found_at(&bound.graph, place.as_slice()) else {
        return Err(Refused::Condition(1));
    };
    ask(1, is_map(found.kind))?;
    ask(2, is_round_one_map(found.kind))?;
    ask(3, is_inner_free(found.kind))?;
    let graph = rebuild(alloc, &Collapsing, &bound.graph, place.as_slice())?;
    ask(9, meets_limits(alloc, &graph)?)?;
    Ok(Bound { graph })
}

/// The map at a path as two: one of the first parameter round one of the others. Refuses with the lowest condition
/// that fails.
pub fn expand(alloc: Global, bound: &Bound, at: &Path) -> Result<Bound, Refused>
    ensures result { IfOk result (λ new. graph_tree new.graph ≡ results.expanded_at (graph_tree bound.now.graph) at.now.steps) }
    ensures holds { IfOk result (λ _. lowest_failing (conditions.expansion_conditions (graph_tree bound.now.graph) at.now.steps) ≡ None) }
    ensures refused { IfErr result (Tells (lowest_failing (conditions.expansion_conditions (graph_tree bound.now.graph) at.now.steps))) }
{
    let Some(place) = place_of(alloc, &bound.graph, at.steps.as_slice())? else {
        return Err(Refused::Condition(1));
    };
    let Some(found) = found_at(&bound.graph, place.as_slice()) else {
        return Err(Refused::Condition(1));
    };
    ask(1, is_map(found.kind))?;
    ask(2, has_two_params(found.kind))?;
    let graph = rebuild(alloc, &Expanding, &bound.graph, place.as_slice())?;
    ask(9, meets_limits(alloc, &graph)?)?;
    Ok(Bound { graph })
}
