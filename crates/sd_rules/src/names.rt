//! Rule 1: names in force.
ghost use Rattle.std.specs.Prelude.{◌≡◌, length, map, IfOk};
ghost use Rattle.std.specs.List.{list_all};
ghost use Rattle.sd_graph.specs.TreeFold.{graph_tree, kind_tree, named_container};
ghost use Rattle.sd_places.specs.places.PlaceOf.{place_of, thing_of};
ghost use Rattle.sd_validity.specs.rules.NamesInForce as names;
ghost use Rattle.sd_validity.specs.rules.Places.{doing, param_numbers};

use crate::held::{are_own, are_private_held, is_element, is_private_at};
use crate::single::{Named, are_single, push_named};
use indexmap::IndexMap;
use sd_graph::{Container, ItemKind, Link, Sdfg, Tasklet};
use sd_list::NoMemory;
use sd_places::{Place, Rule, Test, Thing, has_number, is_thing_passed};
use sd_range::{Affine, Range};
use std::alloc::Global;

/// Whether a container is there, and is in force everywhere or one of these private ones.
fn is_container_in_force(
    containers: &IndexMap<String, Container>,
    private: &[u32],
    number: u32,
) -> bool
    ensures { result ≡ names.is_container_in_force (map named_container containers.now.entries) private.now number }
{
    if number as usize >= containers.len() {
        return false;
    }
    !is_private_at(containers, number) || has_number(private, number)
}

/// Whether the stream of an item is in force, if it is a consume scope.
fn is_stream_in_force(
    containers: &IndexMap<String, Container>,
    private: &[u32],
    thing: Thing<'_>,
) -> bool
    ensures { result ≡ names.is_stream_in_force (map named_container containers.now.entries) private.now (thing_of thing.entry) }
{
    match thing {
        Thing::Whole | Thing::Leaving { .. } => true,
        Thing::Doing(kind) => is_stream_of_item_in_force(containers, private, kind),
    }
}

fn is_stream_of_item_in_force(
    containers: &IndexMap<String, Container>,
    private: &[u32],
    kind: &ItemKind,
) -> bool
    ensures { result ≡ names.is_stream_in_force (map named_container containers.now.entries) private.now (doing (kind_tree kind.now)) }
{
    match kind {
        ItemKind::Consume { stream, .. } => is_container_in_force(containers, private, *stream),
        ItemKind::Task { .. }
        | ItemKind::Map { .. }
        | ItemKind::Nested { .. }
        | ItemKind::Reduce { .. }
        | ItemKind::Copy { .. } => true,
    }
}

/// Whether what a scope makes its own is there and private, and the element of a consume scope is one.
fn are_own_private(containers: &IndexMap<String, Container>, thing: Thing<'_>) -> bool
    ensures { result ≡ names.are_own_private (map named_container containers.now.entries) (thing_of thing.entry) }
{
    match thing {
        Thing::Whole | Thing::Leaving { .. } => true,
        Thing::Doing(kind) => are_own_of_item_private(containers, kind),
    }
}

fn are_own_of_item_private(containers: &IndexMap<String, Container>, kind: &ItemKind) -> bool
    ensures { result ≡ names.are_own_private (map named_container containers.now.entries) (doing (kind_tree kind.now)) }
{
    match kind {
        ItemKind::Map { private, .. } => are_own(containers, private),
        ItemKind::Consume {
            element,
            private,
            ..
        } => is_element(containers, *element) && are_own(containers, private),
        ItemKind::Task { .. }
        | ItemKind::Nested { .. }
        | ItemKind::Reduce { .. }
        | ItemKind::Copy { .. } => true,
    }
}

/// Whether the graph has a variable.
fn is_there(graph: &Sdfg, variable: u32) -> bool
    ensures { result ≡ names.is_there (graph_tree graph.now) variable }
{
    (variable as usize) < graph.variables.len()
}

/// Whether it has each of these.
fn are_there(graph: &Sdfg, variables: &[u32]) -> bool
    ensures { result ≡ list_all (names.is_there (graph_tree graph.now)) variables.now }
{
    for variable in variables {
        if !is_there(graph, *variable) {
            return false;
        }
    }
    true
}

/// Whether a variable is a size symbol, a parameter of a scope about a place, or a loop variable
/// in force in its state.
fn is_variable_in_force(place: &Place<'_>, variable: u32) -> bool
    ensures { result ≡ names.is_variable_in_force (place_of place.now) variable }
{
    if !is_there(place.graph, variable) {
        return false;
    }
    variable < place.graph.symbols
        || has_number(place.scopes.params.as_slice(), variable)
        || has_number(place.loops.as_slice(), variable)
}

/// Whether each variable of code is.
fn are_variables_in_force(place: &Place<'_>, variables: &[u32]) -> bool
    ensures { result ≡ list_all (names.is_variable_in_force (place_of place.now)) variables.now }
{
    for variable in variables {
        if !is_variable_in_force(place, *variable) {
            return false;
        }
    }
    true
}

/// Whether each variable of an expression is.
fn are_terms_in_force(place: &Place<'_>, terms: &[(u32, i128)]) -> bool
    ensures { result ≡ list_all (λ term. names.is_variable_in_force (place_of place.now) term.0) terms.now }
{
    for (variable, _) in terms {
        if !is_variable_in_force(place, *variable) {
            return false;
        }
    }
    true
}

/// That what is named is in force at a place.
#[derive(Clone, Copy)]
struct InForce<'a, 'b> {
    place: &'b Place<'a>,
}

impl<'a, 'b> Test for InForce<'a, 'b> {
    ghost use Rattle.sd_places.specs.places.PlaceOf.{place_of};
    ghost use Rattle.sd_validity.specs.rules.NamesInForce as names;

    ghost tests = { λ s. names.names_tests (place_of s.place.now) };

    fn link(&self, link: &Link) -> bool {
        is_container_in_force(
            &self.place.graph.containers,
            self.place.scopes.private.as_slice(),
            link.memlet.container,
        )
    }

    fn range(&self, _range: &Range) -> bool {
        true
    }

    fn expression(&self, a: &Affine) -> bool {
        are_terms_in_force(self.place, a.terms.as_slice())
    }

    fn code(&self, _alloc: Global, code: &Tasklet) -> Result<bool, NoMemory> {
        Ok(are_variables_in_force(self.place, code.variables.as_slice()))
    }
}

/// Whether the graph has each variable that is given a value at a place.
fn are_given_there(alloc: Global, place: &Place<'_>) -> Result<bool, NoMemory>
    ensures { IfOk result (λ are. are ≡ names.are_given_there (place_of place.now)) }
{
    let mut params = Vec::new(alloc);
    push_named(Named::Params, place.thing, &mut params)?;
    if !are_there(place.graph, params.as_slice()) {
        return Ok(false);
    }
    let mut set = Vec::new(alloc);
    push_named(Named::Set, place.thing, &mut set)?;
    Ok(are_there(place.graph, set.as_slice()))
}

/// Whether what is named at a place is in force, and what is given a value is there.
fn are_names_in_force(alloc: Global, place: &Place<'_>) -> Result<bool, NoMemory>
    ensures { IfOk result (λ are. are ≡ names.are_names_in_force (place_of place.now)) }
{
    if !is_thing_passed(alloc, &InForce { place }, place.thing)? {
        return Ok(false);
    }
    let private = place.scopes.private.as_slice();
    if !is_stream_in_force(&place.graph.containers, private, place.thing) {
        return Ok(false);
    }
    are_given_there(alloc, place)
}

/// Whether a graph as a whole has no private container without a scope.
fn is_each_held(alloc: Global, place: &Place<'_>) -> Result<bool, NoMemory>
    ensures { IfOk result (λ is. is ≡ names.is_each_held (place_of place.now).graph (place_of place.now).thing) }
{
    match place.thing {
        Thing::Whole => are_private_held(alloc, place.graph),
        Thing::Leaving { .. } | Thing::Doing(_) => Ok(true),
    }
}

/// Whether no parameter of an item is one of the first so many variables, if it is a map.
fn are_params_apart(symbols: u32, kind: &ItemKind) -> bool
    ensures { result ≡ list_all (names.is_no_symbol symbols) (names.params_at (doing (kind_tree kind.now))) }
{
    match kind {
        ItemKind::Map { params, .. } => are_behind_symbols(symbols, params),
        ItemKind::Task { .. }
        | ItemKind::Consume { .. }
        | ItemKind::Nested { .. }
        | ItemKind::Reduce { .. }
        | ItemKind::Copy { .. } => true,
    }
}

/// Whether none of the parameters is one of the first so many variables.
fn are_behind_symbols(symbols: u32, params: &[(u32, Range)]) -> bool
    ensures { result ≡ list_all (names.is_no_symbol symbols) (param_numbers params.now) }
{
    for (variable, _) in params {
        if *variable < symbols {
            return false;
        }
    }
    true
}

/// Whether a graph as a whole has a variable for each size symbol, and no parameter is one.
fn are_symbols_apart(place: &Place<'_>) -> bool
    ensures { result ≡ names.are_symbols_apart (place_of place.now).graph (place_of place.now).thing }
{
    match place.thing {
        Thing::Whole => place.graph.symbols as usize <= place.graph.variables.len(),
        Thing::Leaving { .. } => true,
        Thing::Doing(kind) => are_params_apart(place.graph.symbols, kind),
    }
}

/// Rule 1.
pub struct NamesInForce;

impl Rule for NamesInForce {
    ghost use Rattle.sd_validity.specs.rules.NamesInForce as names;

    ghost rule = { λ s. names.rule_1 };

    fn holds(
        &self,
        alloc: Global,
        before: &[Place<'_>],
        place: &Place<'_>,
    ) -> Result<bool, NoMemory> {
        if !are_names_in_force(alloc, place)? {
            return Ok(false);
        }
        if !is_each_held(alloc, place)? {
            return Ok(false);
        }
        if !are_symbols_apart(place) {
            return Ok(false);
        }
        if !are_own_private(&place.graph.containers, place.thing) {
            return Ok(false);
        }
        are_single(alloc, before, place)
    }
}
