//! Tests of all parts of what stands at a place.
ghost use Rattle.std.specs.Prelude.{◌≡◌, map, option_map, IfOk};
ghost use Rattle.std.specs.List.{list_all};
ghost use Rattle.sd_graph.specs.TreeFold.{exit_tree, guard_tree, kind_tree, tasklet_tree};
ghost use Rattle.sd_graph.specs.PlainTree.{task};
ghost use Rattle.sd_validity.specs.rules.Parts as parts;
ghost use Rattle.sd_places.specs.places.PlaceOf.{thing_of};

use crate::places::place::Thing;
use sd_graph::{Exit, Guard, ItemKind, Link, Tasklet};
use sd_list::NoMemory;
use sd_range::{Affine, Dim, Range};
use std::alloc::Global;

/// Tests of links, of ranges, of affine expressions, and of code.
pub trait Test {
    ghost tests: { Self → parts.Tests };

    fn link(&self, link: &Link) -> bool
        ensures { result ≡ (tests self.now).link link.now };

    fn range(&self, range: &Range) -> bool
        ensures { result ≡ (tests self.now).range range.now };

    fn expression(&self, a: &Affine) -> bool
        ensures { result ≡ (tests self.now).expression a.now };

    fn code(&self, alloc: Global, code: &Tasklet) -> Result<bool, NoMemory>
        ensures { IfOk result (λ is. is ≡ (tests self.now).code (tasklet_tree code.now)) };
}

fn are_expressions_passed<T: Test>(test: &T, all: &[Affine]) -> bool
    ensures { result ≡ list_all (T.tests test.now).expression all.now }
{
    for a in all {
        if !test.expression(a) {
            return false;
        }
    }
    true
}

fn is_range_passed<T: Test>(test: &T, range: &Range) -> bool
    ensures { result ≡ parts.is_range_passed (T.tests test.now) range.now }
{
    if !test.range(range) || !test.expression(&range.begin) {
        return false;
    }
    are_expressions_passed(test, range.ends.as_slice())
}

fn is_dim_passed<T: Test>(test: &T, dim: &Dim) -> bool
    ensures { result ≡ parts.is_dim_passed (T.tests test.now) dim.now }
{
    match dim {
        Dim::Index(at) => test.expression(at),
        Dim::Span(range) => is_range_passed(test, range),
    }
}

fn are_dims_passed<T: Test>(test: &T, dims: &[Dim]) -> bool
    ensures { result ≡ list_all (parts.is_dim_passed (T.tests test.now)) dims.now }
{
    for dim in dims {
        if !is_dim_passed(test, dim) {
            return false;
        }
    }
    true
}

fn is_link_passed<T: Test>(test: &T, link: &Link) -> bool
    ensures { result ≡ parts.is_link_passed (T.tests test.now) link.now }
{
    test.link(link) && are_dims_passed(test, link.memlet.subset.dims.as_slice())
}

fn are_links_passed<T: Test>(test: &T, links: &[Link]) -> bool
    ensures { result ≡ parts.are_links_passed (T.tests test.now) links.now }
{
    for link in links {
        if !is_link_passed(test, link) {
            return false;
        }
    }
    true
}

fn are_params_passed<T: Test>(test: &T, params: &[(u32, Range)]) -> bool
    ensures { result ≡ parts.are_params_passed (T.tests test.now) params.now }
{
    for (_, range) in params {
        if !is_range_passed(test, range) {
            return false;
        }
    }
    true
}

fn is_condition_passed<T: Test>(
    alloc: Global,
    test: &T,
    when: &Option<Guard>,
) -> Result<bool, NoMemory>
    ensures { IfOk result (λ is. is ≡ parts.is_condition_passed (T.tests test.now) (option_map guard_tree when.now)) }
{
    match when {
        None => Ok(true),
        Some(guard) => {
            if !are_links_passed(test, guard.reads.as_slice()) {
                return Ok(false);
            }
            test.code(alloc, &guard.code)
        }
    }
}

fn are_assignments_passed<T: Test>(test: &T, set: &[(u32, Affine)]) -> bool
    ensures { result ≡ list_all (λ assignment. (T.tests test.now).expression assignment.1) set.now }
{
    for (_, value) in set {
        if !test.expression(value) {
            return false;
        }
    }
    true
}

fn is_exit_passed<T: Test>(alloc: Global, test: &T, exit: &Exit) -> Result<bool, NoMemory>
    ensures { IfOk result (λ is. is ≡ parts.is_exit_passed (T.tests test.now) (exit_tree exit.now)) }
{
    if !is_condition_passed(alloc, test, &exit.when)? {
        return Ok(false);
    }
    Ok(are_assignments_passed(test, exit.set.as_slice()))
}

fn are_exits_passed<T: Test>(alloc: Global, test: &T, exits: &[Exit]) -> Result<bool, NoMemory>
    ensures { IfOk result (λ are. are ≡ list_all (parts.is_exit_passed (T.tests test.now)) (map exit_tree exits.now)) }
{
    for exit in exits {
        if !is_exit_passed(alloc, test, exit)? {
            return Ok(false);
        }
    }
    Ok(true)
}

/// Whether code and its links pass.
fn is_task_passed<T: Test>(
    alloc: Global,
    test: &T,
    code: &Tasklet,
    ins: &[Link],
    outs: &[Link],
) -> Result<bool, NoMemory>
    ensures { IfOk result (λ is. is ≡ parts.is_kind_passed (T.tests test.now) (task (tasklet_tree code.now) ins.now outs.now)) }
{
    if !test.code(alloc, code)? {
        return Ok(false);
    }
    Ok(are_links_passed(test, ins) && are_links_passed(test, outs))
}

/// Whether an item itself passes, without what is in it.
fn is_kind_passed<T: Test>(alloc: Global, test: &T, kind: &ItemKind) -> Result<bool, NoMemory>
    ensures { IfOk result (λ is. is ≡ parts.is_kind_passed (T.tests test.now) (kind_tree kind.now)) }
{
    match kind {
        ItemKind::Task { code, ins, outs } => is_task_passed(alloc, test, code, ins, outs),
        ItemKind::Map { params, .. } => Ok(are_params_passed(test, params)),
        ItemKind::Consume { .. } => Ok(true),
        ItemKind::Nested { links, .. } => Ok(are_links_passed(test, links)),
        ItemKind::Reduce { from, to, .. } | ItemKind::Copy { from, to } => {
            Ok(is_link_passed(test, from) && is_link_passed(test, to))
        }
    }
}

/// Whether all parts of what stands at a place pass.
pub fn is_thing_passed<T: Test>(alloc: Global, test: &T, thing: Thing<'_>) -> Result<bool, NoMemory>
    ensures { IfOk result (λ is. is ≡ parts.is_thing_passed (T.tests test.now) (thing_of thing.entry)) }
{
    match thing {
        Thing::Whole => Ok(true),
        Thing::Leaving { exits, .. } => are_exits_passed(alloc, test, exits),
        Thing::Doing(kind) => is_kind_passed(alloc, test, kind),
    }
}
