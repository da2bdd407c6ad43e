//! Rule 5: links of nested graphs.
ghost use Rattle.std.specs.Prelude.{◌≡◌, suc, nat_eq, pos, [], not, ◌||◌, map, IfOk};
ghost use Rattle.sd_range.specs.Arithmetic.{affine_zero};
ghost use Rattle.sd_graph.specs.ContainerParts as parts;
ghost use Rattle.sd_graph.specs.TreeFold.{graph_tree, kind_tree, named_container};
ghost use Rattle.sd_graph.specs.Wiring as wiring;
ghost use Rattle.sd_validity.specs.rules.NestedLinks as nested;
ghost use Rattle.sd_validity.specs.rules.Parts.{container_of};
ghost use Rattle.sd_validity.specs.rules.Places.{doing};

use crate::extents::{Numbers, are_extents_same, are_steps_one, dim_extents, shape_of};
use crate::spans::link_spans;
use crate::written::written_of;
use indexmap::IndexMap;
use sd_graph::{Container, ContainerKind, ItemKind, Link, Sdfg};
use sd_list::NoMemory;
use sd_places::{Place, Rule, Thing, container_at, has_number};
use sd_range::Affine;
use std::alloc::Global;

/// Whether a kind is that of an argument.
fn is_argument(kind: ContainerKind) -> bool
    ensures { result ≡ parts.is_argument kind }
{
    match kind {
        ContainerKind::Argument => true,
        ContainerKind::Transient
        | ContainerKind::Private
        | ContainerKind::Stream
        | ContainerKind::PrivateStream => false,
    }
}

/// Whether the first so many containers are the arguments, and no others.
#[tactic(auto, using(crate::proofs::Arguments::argument_first, crate::proofs::Arguments::no_argument_first))]
fn do_arguments_come_first(containers: &IndexMap<String, Container>, arguments: u32) -> bool
    ensures { result ≡ nested.do_arguments_come_first arguments (map named_container containers.now.entries) }
{
    let mut left = arguments;
    for (_, container) in containers.iter() {
        if is_argument(container.kind) != (left > 0) {
            return false;
        }
        left = left.saturating_sub(1);
    }
    left == 0
}

/// The extents of a container; one that is not there has none.
fn extents_at(containers: &IndexMap<String, Container>, number: u32) -> &[Affine]
    ensures { result.now ≡ (parts.container_at (map named_container containers.now.entries) number).extents }
{
    match container_at(containers, number) {
        Some(container) => container.extents.as_slice(),
        None => &[],
    }
}

/// Whether the ranges of a link have the step 1, and the extents of a parameter.
fn has_shape(
    alloc: Global,
    numbers: &Numbers,
    inner: &IndexMap<String, Container>,
    number: u32,
    link: &Link,
) -> Result<bool, NoMemory>
    requires zero { numbers.now.zero ≡ affine_zero }
    requires one { numbers.now.one ≡ record { constant = pos 1; terms = [] } }
    ensures { IfOk result (λ has. has ≡ nested.has_shape (map named_container inner.now.entries) number link.now) }
{
    let spans = link_spans(alloc, link)?;
    if !are_steps_one(spans.as_slice()) {
        return Ok(false);
    }
    let wanted = dim_extents(alloc, numbers, extents_at(inner, number))?;
    let shape = shape_of(alloc, numbers, spans.as_slice())?;
    Ok(are_extents_same(wanted.as_slice(), shape.as_slice()))
}

/// Whether each link has the extents of its parameter.
fn have_shapes(
    alloc: Global,
    inner: &IndexMap<String, Container>,
    links: &[Link],
) -> Result<bool, NoMemory>
    ensures { IfOk result (λ have. have ≡ nested.have_shapes (map named_container inner.now.entries) 0 links.now) }
{
    let numbers = Numbers::new(alloc);
    for (number, link) in links.iter().enumerate() {
        let number = u32::try_from(number).map_err(|_| NoMemory)?;
        if !has_shape(alloc, &numbers, inner, number, link)? {
            return Ok(false);
        }
    }
    Ok(true)
}

/// Whether two links, of these numbers, are of two containers or neither parameter is written.
fn are_two_unshared(written: &[u32], first: u32, link: &Link, number: u32, other: &Link) -> bool
    ensures { result ≡ (not (nat_eq (container_of link.now) (container_of other.now)) || not (wiring.has_number written.now first || wiring.has_number written.now number)) }
{
    link.memlet.container != other.memlet.container
        || !(has_number(written, first) || has_number(written, number))
}

/// Whether a link of a number and each of those behind it are.
fn is_unshared(written: &[u32], first: u32, link: &Link, rest: &[Link]) -> Result<bool, NoMemory>
    ensures { IfOk result (λ is. is ≡ nested.is_unshared written.now first link.now (suc first) rest.now) }
{
    let mut number = first;
    for other in rest {
        number = number.checked_add(1).ok_or(NoMemory)?;
        if !are_two_unshared(written, first, link, number, other) {
            return Ok(false);
        }
    }
    Ok(true)
}

/// Whether each two of the links are.
fn are_unshared(written: &[u32], links: &[Link]) -> Result<bool, NoMemory>
    ensures { IfOk result (λ are. are ≡ nested.are_unshared written.now 0 links.now) }
{
    let mut number = 0_u32;
    let mut left = links;
    while let Some((link, rest)) = left.split_first() {
        if !is_unshared(written, number, link, rest)? {
            return Ok(false);
        }
        number = number.checked_add(1).ok_or(NoMemory)?;
        left = rest;
    }
    Ok(true)
}

/// Whether a nested graph has a link of the right shape for each argument, and writes none of two
/// links of one container.
fn are_links_right(alloc: Global, inner: &Sdfg, links: &[Link]) -> Result<bool, NoMemory>
    ensures { IfOk result (λ are. are ≡ nested.are_links_right (graph_tree inner.now) links.now) }
{
    if links.len() != inner.arguments as usize {
        return Ok(false);
    }
    if !have_shapes(alloc, &inner.containers, links)? {
        return Ok(false);
    }
    let written = written_of(alloc, inner)?;
    are_unshared(written.as_slice(), links)
}

/// Whether an item that is a nested graph has right links.
fn is_item_right(alloc: Global, graph: &Sdfg, kind: &ItemKind) -> Result<bool, NoMemory>
    ensures { IfOk result (λ is. is ≡ nested.is_nesting_right (graph_tree graph.now) (doing (kind_tree kind.now))) }
{
    match kind {
        ItemKind::Nested { graph, links } => are_links_right(alloc, graph, links),
        ItemKind::Task { .. }
        | ItemKind::Map { .. }
        | ItemKind::Consume { .. }
        | ItemKind::Reduce { .. }
        | ItemKind::Copy { .. } => Ok(true),
    }
}

/// Rule 5.
pub struct NestedLinks;

impl Rule for NestedLinks {
    ghost use Rattle.sd_validity.specs.rules.NestedLinks as nested;

    ghost rule = { λ s. nested.rule_5 };

    fn holds(
        &self,
        alloc: Global,
        _before: &[Place<'_>],
        place: &Place<'_>,
    ) -> Result<bool, NoMemory> {
        match place.thing {
            Thing::Whole => Ok(do_arguments_come_first(
                &place.graph.containers,
                place.graph.arguments,
            )),
            Thing::Leaving { .. } => Ok(true),
            Thing::Doing(kind) => is_item_right(alloc, place.graph, kind),
        }
    }
}
