//! Rule 8: no size symbol is left, and every extent is a constant.
ghost use Rattle.std.specs.Prelude.{◌≡◌, map, IfOk};
ghost use Rattle.std.specs.List.{list_all};
ghost use Rattle.sd_graph.specs.TreeFold.{act_tree, act_trees, named_container, tasklet_tree, value_tree, value_trees};
ghost use Rattle.sd_valid.specs.BoundCode.{names_symbol};
ghost use Rattle.sd_validity.specs.rules.SizesGone as sizes;
ghost use Rattle.sd_validity.specs.rules.Parts.{is_empty};

use indexmap::IndexMap;
use sd_graph::{Act, Container, Link, Tasklet, Value};
use sd_list::NoMemory;
use sd_places::{Place, Rule, Test, Thing, is_thing_passed};
use sd_range::{Affine, Range};
use std::alloc::Global;

/// Whether an expression has no size symbol.
fn is_free(symbols: u32, a: &Affine) -> bool
    ensures { result ≡ sizes.is_free symbols a.now }
{
    for (variable, _) in a.terms.as_slice() {
        if *variable < symbols {
            return false;
        }
    }
    true
}

/// Whether the variable at a place among those of the code is a size symbol.
fn names_symbol(symbols: u32, variables: &[u32], place: u32) -> bool
    ensures { result ≡ names_symbol symbols variables.now place }
{
    match variables.get(place as usize) {
        Some(variable) => *variable < symbols,
        None => false,
    }
}

/// Whether an expression of code has none.
#[cycle(values)]
fn is_value_free(symbols: u32, variables: &[u32], value: &Value) -> bool
    ensures { result ≡ sizes.is_value_free symbols variables.now (value_tree value.now) }
{
    match value {
        Value::Number(_) | Value::Local(_) => true,
        Value::Variable(place) => !names_symbol(symbols, variables, *place),
        Value::Input { at, .. } => are_values_free(symbols, variables, at),
        Value::One { of, .. } => is_value_free(symbols, variables, of),
        Value::Two { left, right, .. } => {
            is_value_free(symbols, variables, left) && is_value_free(symbols, variables, right)
        }
        Value::Choice { value, when, other } => {
            is_value_free(symbols, variables, value)
                && is_value_free(symbols, variables, when)
                && is_value_free(symbols, variables, other)
        }
    }
}

#[cycle(values)]
fn are_values_free(symbols: u32, variables: &[u32], all: &[Value]) -> bool
    ensures { result ≡ sizes.are_values_free symbols variables.now (value_trees all.now) }
{
    for value in all {
        if !is_value_free(symbols, variables, value) {
            return false;
        }
    }
    true
}

/// Whether a statement has none.
#[cycle(acts)]
fn is_act_free(symbols: u32, variables: &[u32], act: &Act) -> bool
    ensures { result ≡ sizes.is_act_free symbols variables.now (act_tree act.now) }
{
    match act {
        Act::Local { value, .. } => is_value_free(symbols, variables, value),
        Act::Out { at, value, .. } => {
            are_values_free(symbols, variables, at) && is_value_free(symbols, variables, value)
        }
        Act::When { when, body, other } => {
            is_value_free(symbols, variables, when)
                && are_acts_free(symbols, variables, body)
                && are_acts_free(symbols, variables, other)
        }
    }
}

#[cycle(acts)]
fn are_acts_free(symbols: u32, variables: &[u32], all: &[Act]) -> bool
    ensures { result ≡ sizes.are_acts_free symbols variables.now (act_trees all.now) }
{
    for act in all {
        if !is_act_free(symbols, variables, act) {
            return false;
        }
    }
    true
}

/// Whether each of the extents is a constant.
fn are_constant(extents: &[Affine]) -> bool
    ensures { result ≡ list_all (λ extent. is_empty extent.terms) extents.now }
{
    for extent in extents {
        if !extent.terms.as_slice().is_empty() {
            return false;
        }
    }
    true
}

/// Whether each extent of containers is.
fn are_extents_constant(containers: &IndexMap<String, Container>) -> bool
    ensures { result ≡ list_all (λ entry. list_all (λ extent. is_empty extent.terms) entry.1.extents) (map named_container containers.now.entries) }
{
    for (_, container) in containers.iter() {
        if !are_constant(container.extents.as_slice()) {
            return false;
        }
    }
    true
}

/// That the first so many variables are not named.
#[derive(Clone, Copy)]
struct NoSymbol {
    symbols: u32,
}

impl Test for NoSymbol {
    ghost use Rattle.sd_validity.specs.rules.SizesGone as sizes;

    ghost tests = { λ s. sizes.sizes_tests s.symbols };

    fn link(&self, _link: &Link) -> bool {
        true
    }

    fn range(&self, _range: &Range) -> bool {
        true
    }

    fn expression(&self, a: &Affine) -> bool {
        is_free(self.symbols, a)
    }

    fn code(&self, _alloc: Global, code: &Tasklet) -> Result<bool, NoMemory> {
        Ok(are_acts_free(self.symbols, code.variables.as_slice(), &code.body))
    }
}

/// Rule 8.
pub struct SizesGone;

impl Rule for SizesGone {
    ghost use Rattle.sd_validity.specs.rules.SizesGone as sizes;

    ghost rule = { λ s. sizes.rule_8 };

    fn holds(
        &self,
        alloc: Global,
        _before: &[Place<'_>],
        place: &Place<'_>,
    ) -> Result<bool, NoMemory> {
        match place.thing {
            Thing::Whole => Ok(are_extents_constant(&place.graph.containers)),
            Thing::Leaving { .. } | Thing::Doing(_) => {
                let test = NoSymbol {
                    symbols: place.graph.symbols,
                };
                is_thing_passed(alloc, &test, place.thing)
            }
        }
    }
}
