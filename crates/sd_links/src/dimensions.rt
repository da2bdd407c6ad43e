//! Rule 2: dimensions, and what code names.
ghost use Rattle.std.specs.Prelude.{◌≡◌, nat_eq, length, map, option_map};
ghost use Rattle.std.specs.List.{list_all};
ghost use Rattle.sd_graph.specs.TreeFold.{exit_tree, guard_tree, kind_tree, named_container};
ghost use Rattle.sd_graph.specs.ContainerParts.{container_at};
ghost use Rattle.sd_places.specs.places.PlaceOf.{thing_of};
ghost use Rattle.sd_validity.specs.rules.Dimensions as dimensions;
ghost use Rattle.sd_validity.specs.rules.Parts.{is_empty, link_spans};
ghost use Rattle.sd_validity.specs.rules.Places.{doing};

use crate::code::{is_code_known, is_one_value};
use crate::spans::span_count;
use indexmap::IndexMap;
use sd_graph::{Container, Exit, Guard, ItemKind, Link, Port, Tasklet};
use sd_list::NoMemory;
use sd_places::{Place, Rule, Test, Thing, container_at, is_thing_passed};
use sd_range::{Affine, Dim, Range};
use std::alloc::Global;

/// Whether a dimension is an index, or a range with one end.
fn has_one_end(dim: &Dim) -> bool
    ensures { result ≡ dimensions.has_one_end dim.now }
{
    match dim {
        Dim::Index(_) => true,
        Dim::Span(range) => range.ends.len() == 1,
    }
}

fn have_one_end(dims: &[Dim]) -> bool
    ensures { result ≡ list_all dimensions.has_one_end dims.now }
{
    for dim in dims {
        if !has_one_end(dim) {
            return false;
        }
    }
    true
}

/// How many dimensions a container has; one that is not there has none.
fn dimension_count(containers: &IndexMap<String, Container>, number: u32) -> usize
    ensures { result ≡ length (container_at (map named_container containers.now.entries) number).extents }
{
    match container_at(containers, number) {
        Some(container) => container.extents.len(),
        None => 0,
    }
}

/// Whether a link's subset has a dimension for each of its container, and each range of it one end.
fn is_link_fitting(containers: &IndexMap<String, Container>, link: &Link) -> bool
    ensures { result ≡ dimensions.is_link_fitting (map named_container containers.now.entries) link.now }
{
    let dims = link.memlet.subset.dims.as_slice();
    dims.len() == dimension_count(containers, link.memlet.container) && have_one_end(dims)
}

/// Whether a connector has a dimension for each range of its link.
fn is_port_linked(port: &Port, link: &Link) -> bool
    ensures { result ≡ nat_eq port.now.dims (length (link_spans link.now)) }
{
    port.dims as usize == span_count(link)
}

/// Whether there is a link for each connector, and each connector has its dimensions.
fn are_ports_linked(ports: &[Port], links: &[Link]) -> bool
    ensures { result ≡ dimensions.are_ports_linked ports.now links.now }
{
    let mut left = ports;
    let mut right = links;
    while let Some((port, others)) = left.split_first() {
        let Some((link, rest)) = right.split_first() else {
            return false;
        };
        if !is_port_linked(port, link) {
            return false;
        }
        left = others;
        right = rest;
    }
    right.is_empty()
}

/// Whether a link is one element.
#[tactic(auto, using(crate::proofs::Counted::empty_counted))]
fn is_element(link: &Link) -> bool
    ensures { result ≡ is_empty (link_spans link.now) }
{
    span_count(link) == 0
}

/// Whether each link is.
fn are_elements(links: &[Link]) -> bool
    ensures { result ≡ list_all (λ link. is_empty (link_spans link)) links.now }
{
    for link in links {
        if !is_element(link) {
            return false;
        }
    }
    true
}

/// Whether a condition reads one element by each link, and its code gives its one output a value.
fn is_condition_sound(when: &Option<Guard>) -> bool
    ensures { result ≡ dimensions.is_condition_sound (option_map guard_tree when.now) }
{
    match when {
        None => true,
        Some(guard) => {
            are_ports_linked(guard.code.ins.as_slice(), guard.reads.as_slice())
                && are_elements(guard.reads.as_slice())
                && is_one_value(&guard.code)
        }
    }
}

fn are_conditions_sound(exits: &[Exit]) -> bool
    ensures { result ≡ list_all (λ exit. dimensions.is_condition_sound exit.when) (map exit_tree exits.now) }
{
    for exit in exits {
        if !is_condition_sound(&exit.when) {
            return false;
        }
    }
    true
}

/// Whether the code of an item has links for its connectors.
fn is_item_linked(kind: &ItemKind) -> bool
    ensures { result ≡ dimensions.is_code_linked (doing (kind_tree kind.now)) }
{
    match kind {
        ItemKind::Task { code, ins, outs } => {
            are_ports_linked(code.ins.as_slice(), ins)
                && are_ports_linked(code.outs.as_slice(), outs)
        }
        ItemKind::Map { .. }
        | ItemKind::Consume { .. }
        | ItemKind::Nested { .. }
        | ItemKind::Reduce { .. }
        | ItemKind::Copy { .. } => true,
    }
}

/// Whether the code at a place has.
fn is_code_linked(thing: Thing<'_>) -> bool
    ensures { result ≡ dimensions.is_code_linked (thing_of thing.entry) }
{
    match thing {
        Thing::Whole => true,
        Thing::Leaving { exits, .. } => are_conditions_sound(exits),
        Thing::Doing(kind) => is_item_linked(kind),
    }
}

/// That subsets fit these containers, and code names what it has.
#[derive(Clone, Copy)]
struct Fitting<'a> {
    containers: &'a IndexMap<String, Container>,
}

impl<'a> Test for Fitting<'a> {
    ghost use Rattle.std.specs.Prelude.{map};
    ghost use Rattle.sd_graph.specs.TreeFold.{named_container};
    ghost use Rattle.sd_validity.specs.rules.Dimensions as dimensions;

    ghost tests = { λ s. dimensions.dimensions_tests (map named_container s.containers.now.entries) };

    fn link(&self, link: &Link) -> bool {
        is_link_fitting(self.containers, link)
    }

    fn range(&self, _range: &Range) -> bool {
        true
    }

    fn expression(&self, _a: &Affine) -> bool {
        true
    }

    fn code(&self, alloc: Global, code: &Tasklet) -> Result<bool, NoMemory> {
        is_code_known(alloc, code)
    }
}

/// Rule 2.
pub struct Dimensions;

impl Rule for Dimensions {
    ghost use Rattle.sd_validity.specs.rules.Dimensions as dimensions;

    ghost rule = { λ s. dimensions.rule_2 };

    fn holds(
        &self,
        alloc: Global,
        _before: &[Place<'_>],
        place: &Place<'_>,
    ) -> Result<bool, NoMemory> {
        let test = Fitting {
            containers: &place.graph.containers,
        };
        if !is_thing_passed(alloc, &test, place.thing)? {
            return Ok(false);
        }
        Ok(is_code_linked(place.thing))
    }
}
