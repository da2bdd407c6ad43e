//! The call that cuts a map into tiles.
ghost use Rattle.std.specs.Prelude.{◌≡◌, ◌∷◌, [], ◌||◌, map, string_bytes, None, Some, IfOk, IfErr};
ghost use Rattle.sd_graph.specs.TreeFold.{graph_tree, kind_tree};
ghost use Rattle.sd_prop.specs.propagation.Scopes.{all_scopes};
ghost use Rattle.sd_mapx.specs.Conditions.{Tells, lowest_failing};
ghost use Rattle.sd_mapx.specs.MapConditions as conditions;
ghost use Rattle.sd_mapx.specs.MapTests as tests;
ghost use Rattle.sd_mapx.specs.Parts.{found_tree};
ghost use Rattle.sd_mapx.specs.Results as results;
ghost use Rattle.sd_mapx.specs.ScopeTests as scope_tests;

use crate::found::{FoundItem, found_at};
use crate::fresh::{fresh_names, names_in_use};
use crate::limits::meets_limits;
use crate::maps::ask;
use crate::paths::place_of;
use crate::rebuilt::rebuild;
use crate::refused::Refused;
use crate::scopes::{are_pools_free, is_free_at};
use crate::tests::{are_steps_small, has_sizes, is_map, is_single};
use crate::tiles::Tiling;
use sd_graph::{Bound, ItemKind, Path, Sdfg};
use sd_list::NoMemory;
use sd_prop::scopes;
use sd_range::Range;
use std::alloc::Global;

/// The parameters of a map; none of another item.
fn params_of(kind: &ItemKind) -> &[(u32, Range)]
    ensures { result.now ≡ results.params_of (kind_tree kind.now) }
{
    match kind {
        ItemKind::Map { params, .. } => params,
        ItemKind::Task { .. }
        | ItemKind::Consume { .. }
        | ItemKind::Nested { .. }
        | ItemKind::Reduce { .. }
        | ItemKind::Copy { .. } => &[],
    }
}

/// A fresh name for each parameter of an item.
fn tile_names(alloc: Global, found: &FoundItem<'_>) -> Result<Vec<String>, NoMemory>
    ensures { IfOk result (λ names. map string_bytes names.items ≡ results.tile_names (Some (found_tree found.now))) }
{
    let used = names_in_use(alloc, found.graph)?;
    fresh_names(alloc, used, &found.graph.variables, params_of(found.kind))
}

/// Refuses, but for the size of one parameter alone, where the map at a path or a consume scope is not free of races.
fn ask_order(alloc: Global, graph: &Sdfg, path: &[u32], sizes: &[u64]) -> Result<(), Refused>
    ensures ok { IfOk result (λ _. lowest_failing ((3, tests.is_single sizes.now || scope_tests.is_free_at path.now (all_scopes (graph_tree graph.now))) ∷ (8, tests.is_single sizes.now || scope_tests.are_pools_free (all_scopes (graph_tree graph.now))) ∷ []) ≡ None) }
    ensures err { IfErr result (Tells (lowest_failing ((3, tests.is_single sizes.now || scope_tests.is_free_at path.now (all_scopes (graph_tree graph.now))) ∷ (8, tests.is_single sizes.now || scope_tests.are_pools_free (all_scopes (graph_tree graph.now))) ∷ []))) }
{
    if is_single(sizes) {
        return Ok(());
    }
    let all = scopes(alloc, graph)?;
    ask(3, is_free_at(alloc, path, all.as_slice())?)?;
    ask(8, are_pools_free(alloc, all.as_slice())?)
}

/// The map at a path as two: one over tiles, which have these sizes, round one over the values of a tile. The graph that
/// has it gets a variable with a fresh name for each parameter. Refuses with the lowest condition that fails.
pub fn tile(alloc: Global, bound: &Bound, at: &Path, sizes: &[u64]) -> Result<Bound, Refused>
    ensures result { IfOk result (λ new. graph_tree new.graph ≡ results.tiled_at (graph_tree bound.now.graph) at.now.steps sizes.now) }
    ensures holds { IfOk result (λ _. lowest_failing (conditions.tiling_conditions (graph_tree bound.now.graph) at.now.steps sizes.now) ≡ None) }
    ensures refused { IfErr result (Tells (lowest_failing (conditions.tiling_conditions (graph_tree bound.now.graph) at.now.steps sizes.now))) }
{
    let path = at.steps.as_slice();
    let Some(place) = place_of(alloc, &bound.graph, path)? else {
        return Err(Refused::Condition(1));
    };
    let Some(found) = found_at(&bound.graph, place.as_slice()) else {
        return Err(Refused::Condition(1));
    };
    ask(1, is_map(found.kind))?;
    ask(2, has_sizes(sizes, found.kind))?;
    ask_order(alloc, &bound.graph, path, sizes)?;
    ask(9, are_steps_small(sizes, params_of(found.kind)))?;
    let names = tile_names(alloc, &found)?;
    let tiling = Tiling {
        sizes,
        names: names.as_slice(),
    };
    let graph = rebuild(alloc, &tiling, &bound.graph, place.as_slice())?;
    ask(9, meets_limits(alloc, &graph)?)?;
    Ok(Bound { graph })
}
