//! Rule 7.
ghost use Rattle.std.specs.Prelude.{◌≡◌, ◌+◌, ◌&&◌, [], nat_le, length, map, option_map, IfOk};
ghost use Rattle.std.specs.List.{list_all};
ghost use Rattle.sd_graph.specs.TreeFold.{exit_tree, graph_tree, item_trees, kind_tree};
ghost use Rattle.sd_graph.specs.TreeParts.{containers_of, states_of_graph};
ghost use Rattle.sd_wire.specs.wiring.Listing.{nodes_of};
ghost use Rattle.sd_places.specs.places.PlaceOf.{place_of};
ghost use Rattle.sd_validity.specs.rules.Failing.{failing};
ghost use Rattle.sd_validity.specs.rules.Places.{param_numbers};
ghost use Rattle.sd_validity.specs.rules.Ranks as ranks;
ghost use Rattle.sd_validity.specs.rules.WithinLimits as limits;
ghost use Rattle.sd_validate.specs.limits.Totals.{AreBehind, IsSum};

use crate::limits::affine::are_conditions_small;
use crate::limits::code::is_code_small;
use crate::limits::containers::elements_behind_graph;
use crate::limits::size::{is_range_small, is_small};
use sd_graph::{Exit, Item, ItemKind, Link, Path, Sdfg, Tasklet};
use sd_list::{NoMemory, Sequence};
use sd_places::{Place, Test, Thing, are_ranked, begun_at, is_ranked, is_thing_passed};
use sd_range::{Affine, Range};
use sd_wire::wire_items;
use std::alloc::Global;

/// The most scopes and loops about an item.
const MOST_ABOUT: u64 = 7;

/// The most parameters of a map.
const MOST_PARAMS: usize = 8;

/// The most nodes of a state.
const MOST_NODES: u64 = 1024;

/// The most nodes of all states together, 2^16.
const MOST_NODES_TOGETHER: u64 = 1 << 16;

/// How many elements and nodes there are so far.
#[derive(Clone, Copy)]
pub(crate) struct Totals {
    elements: u128,
    nodes: u64,
}

/// How many nodes a state has.
fn node_count(alloc: Global, graph: &Sdfg, items: &[Item]) -> Result<u64, NoMemory>
    ensures { IfOk result (λ count. count ≡ length (nodes_of (containers_of (graph_tree graph.now)) (item_trees items.now))) }
{
    let wired = wire_items(alloc, &graph.containers, items)?;
    Ok(wired.nodes.len() as u64)
}

/// How many nodes there are with those of a state; `None` where there are too many.
fn nodes_with(before: u64, nodes: u64) -> Option<u64>
    ensures { IsSum (nat_le nodes 1024 && nat_le (before + nodes) 65536) (before + nodes) result }
{
    if MOST_NODES < nodes {
        return None;
    }
    let total = before.checked_add(nodes)?;
    if MOST_NODES_TOGETHER < total {
        return None;
    }
    Some(total)
}

/// Whether the ends of loops that begin at a state are within the limits, and their variables have a
/// rank.
fn are_loops_small(alloc: Global, place: &Place<'_>, exits: &[Exit]) -> Result<bool, NoMemory>
    ensures { IfOk result (λ are. are ≡ (list_all (λ exit. limits.is_condition_small (ranks.begun_at (states_of_graph (place_of place.now).graph) (place_of place.now).state) exit.when) (map exit_tree exits.now)
        && list_all (ranks.is_ranked (place_of place.now).ranks) (ranks.begun_at (states_of_graph (place_of place.now).graph) (place_of place.now).state))) }
{
    let begun = begun_at(alloc, &place.graph.states, place.state)?;
    if !are_conditions_small(alloc, begun.as_slice(), exits)? {
        return Ok(false);
    }
    Ok(are_ranked(place.ranks.as_slice(), begun.as_slice()))
}

/// How many nodes there are with those of a state, where the state is within the limits.
fn nodes_behind_state(
    alloc: Global,
    place: &Place<'_>,
    items: &[Item],
    exits: &[Exit],
    before: u64,
) -> Result<Option<u64>, NoMemory>
    ensures { IfOk result (IsSum (limits.is_state_small (place_of place.now) (length (nodes_of (containers_of (place_of place.now).graph) (item_trees items.now))) before (map exit_tree exits.now)) (before + length (nodes_of (containers_of (place_of place.now).graph) (item_trees items.now)))) }
{
    let nodes = node_count(alloc, place.graph, items)?;
    let Some(total) = nodes_with(before, nodes) else {
        return Ok(None);
    };
    if !are_loops_small(alloc, place, exits)? {
        return Ok(None);
    }
    Ok(Some(total))
}

/// Whether each of a map's parameters has a rank.
fn are_params_ranked(table: &[bool], params: &[(u32, Range)]) -> bool
    ensures { result ≡ list_all (ranks.is_ranked table.now) (param_numbers params.now) }
{
    for (variable, _) in params {
        if !is_ranked(table, *variable) {
            return false;
        }
    }
    true
}

/// Whether an item has no more parameters than it may, each with a rank.
fn has_small_params(table: &[bool], kind: &ItemKind) -> bool
    ensures { result ≡ limits.has_small_params table.now (kind_tree kind.now) }
{
    match kind {
        ItemKind::Map { params, .. } => {
            1 <= params.len() && params.len() <= MOST_PARAMS && are_params_ranked(table, params)
        }
        ItemKind::Task { .. }
        | ItemKind::Consume { .. }
        | ItemKind::Nested { .. }
        | ItemKind::Reduce { .. }
        | ItemKind::Copy { .. } => true,
    }
}

/// Whether an item stands in no more scopes and loops than it may, and has small parameters.
fn is_item_small(place: &Place<'_>, kind: &ItemKind) -> bool
    ensures { result ≡ limits.is_item_small (place_of place.now) (kind_tree kind.now) }
{
    let scopes = place.scopes.count;
    scopes <= MOST_ABOUT
        && place.loop_count <= MOST_ABOUT - scopes
        && has_small_params(place.ranks.as_slice(), kind)
}

/// That ranges, expressions and code are within the limits.
#[derive(Clone, Copy)]
struct Small;

impl Test for Small {
    ghost use Rattle.sd_validity.specs.rules.WithinLimits as limits;

    ghost tests = { λ s. limits.limits_tests };

    fn link(&self, _link: &Link) -> bool {
        true
    }

    fn range(&self, range: &Range) -> bool {
        is_range_small(range)
    }

    fn expression(&self, a: &Affine) -> bool {
        is_small(a)
    }

    fn code(&self, _alloc: Global, code: &Tasklet) -> Result<bool, NoMemory> {
        Ok(is_code_small(code))
    }
}

/// What there is with those of what stands at a place, where that is within the limits.
fn behind_thing(
    alloc: Global,
    before: Totals,
    place: &Place<'_>,
) -> Result<Option<Totals>, NoMemory>
    ensures { IfOk result (AreBehind (limits.is_thing_small before.elements before.nodes (place_of place.now) (place_of place.now).thing) before (place_of place.now)) }
{
    let Totals { elements, nodes } = before;
    match place.thing {
        Thing::Whole => match elements_behind_graph(place.graph, place.depth, elements) {
            Some(elements) => Ok(Some(Totals { elements, nodes })),
            None => Ok(None),
        },
        Thing::Leaving { items, exits } => {
            match nodes_behind_state(alloc, place, items, exits, nodes)? {
                Some(nodes) => Ok(Some(Totals { elements, nodes })),
                None => Ok(None),
            }
        }
        Thing::Doing(kind) => Ok(if is_item_small(place, kind) {
            Some(before)
        } else {
            None
        }),
    }
}

/// What there is with those of a place, where it is within the limits.
fn behind(alloc: Global, before: Totals, place: &Place<'_>) -> Result<Option<Totals>, NoMemory>
    ensures { IfOk result (AreBehind (limits.is_place_small before.elements before.nodes (place_of place.now)) before (place_of place.now)) }
{
    let Some(totals) = behind_thing(alloc, before, place)? else {
        return Ok(None);
    };
    if !is_thing_passed(alloc, &Small, place.thing)? {
        return Ok(None);
    }
    Ok(Some(totals))
}

/// The path of the first of these places that is not within the limits, each behind the elements and
/// the nodes of those before it.
#[tactic(auto, using(crate::proofs::limits_lemmas::Among::elements_more, crate::proofs::limits_lemmas::Among::nodes_more))]
pub fn first_over_limits(alloc: Global, places: &[Place<'_>]) -> Result<Option<Path>, NoMemory>
    ensures { IfOk result (λ path. option_map (λ path. path.steps) path ≡ failing limits.rule_7 [] (map place_of places.now)) }
{
    let mut totals = Totals {
        elements: 0,
        nodes: 0,
    };
    for place in places {
        totals = match behind(alloc, totals, place)? {
            Some(totals) => totals,
            None => {
                let steps = Sequence::from(place.path.as_slice().to_vec(alloc)?);
                return Ok(Some(Path { steps }));
            }
        };
    }
    Ok(None)
}
