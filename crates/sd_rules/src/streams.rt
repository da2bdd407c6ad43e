//! Rule 4: where streams stand.
ghost use Rattle.std.specs.Prelude.{◌≡◌, map, option_map};
ghost use Rattle.std.specs.List.{list_all};
ghost use Rattle.sd_graph.specs.TreeFold.{exit_tree, guard_tree, kind_tree, named_container};
ghost use Rattle.sd_validity.specs.rules.Places.{doing};
ghost use Rattle.sd_validity.specs.rules.StreamUse as streams;

use indexmap::IndexMap;
use sd_graph::{Container, Exit, Guard, ItemKind, Link};
use sd_list::NoMemory;
use sd_places::{Place, Rule, Thing, is_stream_at};
use std::alloc::Global;

/// Whether a link is of an array.
fn is_of_array(containers: &IndexMap<String, Container>, link: &Link) -> bool
    ensures { result ≡ streams.is_of_array (map named_container containers.now.entries) link.now }
{
    !is_stream_at(containers, link.memlet.container)
}

/// Whether the links are of arrays.
fn are_of_arrays(containers: &IndexMap<String, Container>, links: &[Link]) -> bool
    ensures { result ≡ streams.are_of_arrays (map named_container containers.now.entries) links.now }
{
    links.iter().all(|link| is_of_array(containers, link))
}

/// Whether a condition reads arrays.
fn is_condition_of_arrays(containers: &IndexMap<String, Container>, when: &Option<Guard>) -> bool
    ensures { result ≡ streams.is_condition_of_arrays (map named_container containers.now.entries) (option_map guard_tree when.now) }
{
    match when {
        None => true,
        Some(guard) => are_of_arrays(containers, guard.reads.as_slice()),
    }
}

/// Whether the conditions of transitions read arrays.
pub(crate) fn are_in_place_in_exits(
    containers: &IndexMap<String, Container>,
    exits: &[Exit],
) -> bool
    ensures { result ≡ list_all (λ exit. streams.is_condition_of_arrays (map named_container containers.now.entries) exit.when) (map exit_tree exits.now) }
{
    for exit in exits {
        if !is_condition_of_arrays(containers, &exit.when) {
            return false;
        }
    }
    true
}

/// Whether streams are in place in an item itself.
pub(crate) fn are_in_place_in_item(
    containers: &IndexMap<String, Container>,
    kind: &ItemKind,
) -> bool
    ensures { result ≡ streams.are_streams_in_place (map named_container containers.now.entries) (doing (kind_tree kind.now)) }
{
    match kind {
        ItemKind::Task { ins, .. } => are_of_arrays(containers, ins),
        ItemKind::Map { .. } => true,
        ItemKind::Consume { stream, .. } => is_stream_at(containers, *stream),
        ItemKind::Nested { links, .. } => are_of_arrays(containers, links),
        ItemKind::Reduce { from, to, .. } | ItemKind::Copy { from, to } => {
            is_of_array(containers, from) && is_of_array(containers, to)
        }
    }
}

/// Rule 4.
pub struct Streams;

impl Rule for Streams {
    ghost use Rattle.sd_validity.specs.rules.StreamUse as streams;

    ghost rule = { λ s. streams.rule_4 };

    fn holds(
        &self,
        _alloc: Global,
        _before: &[Place<'_>],
        place: &Place<'_>,
    ) -> Result<bool, NoMemory> {
        Ok(match place.thing {
            Thing::Whole => true,
            Thing::Leaving { exits, .. } => are_in_place_in_exits(&place.graph.containers, exits),
            Thing::Doing(kind) => are_in_place_in_item(&place.graph.containers, kind),
        })
    }
}
