//! Rule 6: shapes of what copies and reductions move.
ghost use Rattle.std.specs.Prelude.{◌≡◌, ◌++◌, map, IfOk, IsTrue, OnOk};
ghost use Rattle.sd_graph.specs.TreeFold.{kind_tree};
ghost use Rattle.sd_validity.specs.rules.MovedShapes as moved;
ghost use Rattle.sd_validity.specs.rules.Places.{doing};

use crate::extents::{Numbers, are_extents_same, are_steps_one, range_extents, shape_of};
use crate::spans::link_spans;
use sd_graph::{ItemKind, Link};
use sd_list::NoMemory;
use sd_places::{Place, Rule, Thing};
use sd_range::Range;
use std::alloc::Global;

/// Whether two links are of two containers.
fn are_two_containers(from: &Link, to: &Link) -> bool
    ensures { result ≡ moved.are_two_containers from.now to.now }
{
    from.memlet.container != to.memlet.container
}

/// Whether the ranges of two lists have the same steps, one after another.
#[tactic(auto, using(crate::proofs::Pairs::steps_apart))]
fn are_steps_same(ranges: &[&Range], others: &[&Range]) -> bool
    ensures { result ≡ moved.are_steps_same (map (λ range. range.now) ranges.now) (map (λ range. range.now) others.now) }
{
    if ranges.len() != others.len() {
        return false;
    }
    for (number, range) in ranges.iter().enumerate() {
        if range.step != others[number].step {
            return false;
        }
    }
    true
}

/// Whether both sides of a copy have as many ranges, with the same steps and the same distance from
/// begin to end.
fn is_copy_right(alloc: Global, from: &Link, to: &Link) -> Result<bool, NoMemory>
    ensures { IfOk result (λ is. is ≡ moved.is_copy_right from.now to.now) }
{
    if !are_two_containers(from, to) {
        return Ok(false);
    }
    let source = link_spans(alloc, from)?;
    let target = link_spans(alloc, to)?;
    if !are_steps_same(source.as_slice(), target.as_slice()) {
        return Ok(false);
    }
    let numbers = Numbers::new(alloc);
    let read = range_extents(alloc, &numbers, source.as_slice())?;
    let written = range_extents(alloc, &numbers, target.as_slice())?;
    Ok(are_extents_same(read.as_slice(), written.as_slice()))
}

/// Whether an axis, where there is one, is one of the ranges.
fn is_axis(axis: Option<u32>, spans: &[&Range]) -> bool
    ensures { result ≡ moved.is_axis axis (map (λ range. range.now) spans.now) }
{
    match axis {
        None => true,
        Some(axis) => (axis as usize) < spans.len(),
    }
}

/// Adds ranges.
fn push_spans<'a>(spans: &[&'a Range], all: &mut Vec<&'a Range>) -> Result<(), NoMemory>
    ensures { OnOk result (all.new.items ≡ all.old.items ++ spans.now) }
{
    for span in spans {
        all.push(*span)?;
    }
    Ok(())
}

/// The ranges that a reduction leaves.
#[tactic(auto, using(crate::proofs::Pairs::left_mapped))]
fn spans_left<'a>(
    alloc: Global,
    axis: Option<u32>,
    spans: &[&'a Range],
) -> Result<Vec<&'a Range>, NoMemory>
    requires { IsTrue (moved.is_axis axis (map (λ range. range.now) spans.now)) }
    ensures { IfOk result (λ left. map (λ range. range.now) left.items ≡ moved.spans_left axis (map (λ range. range.now) spans.now)) }
{
    match axis {
        None => Ok(Vec::new(alloc)),
        Some(axis) => {
            let axis = axis as usize;
            let mut left = Vec::new(alloc);
            push_spans(&spans[..axis], &mut left)?;
            push_spans(&spans[axis + 1..], &mut left)?;
            Ok(left)
        }
    }
}

/// Whether a reduction has ranges of step 1, an axis that is one of them, and a target of the shape
/// that is left, or of one value.
fn is_reduction_right(
    alloc: Global,
    axis: Option<u32>,
    from: &Link,
    to: &Link,
) -> Result<bool, NoMemory>
    ensures { IfOk result (λ is. is ≡ moved.is_reduction_right axis from.now to.now) }
{
    let source = link_spans(alloc, from)?;
    let target = link_spans(alloc, to)?;
    if !are_two_containers(from, to)
        || !are_steps_one(source.as_slice())
        || !are_steps_one(target.as_slice())
        || !is_axis(axis, source.as_slice())
    {
        return Ok(false);
    }
    let numbers = Numbers::new(alloc);
    let left = spans_left(alloc, axis, source.as_slice())?;
    let read = shape_of(alloc, &numbers, left.as_slice())?;
    let written = shape_of(alloc, &numbers, target.as_slice())?;
    Ok(are_extents_same(read.as_slice(), written.as_slice()))
}

/// Whether the two sides of an item that is a copy or a reduction have the same shape.
fn is_item_right(alloc: Global, kind: &ItemKind) -> Result<bool, NoMemory>
    ensures { IfOk result (λ is. is ≡ moved.are_shapes_right (doing (kind_tree kind.now))) }
{
    match kind {
        ItemKind::Reduce { axis, from, to, .. } => is_reduction_right(alloc, *axis, from, to),
        ItemKind::Copy { from, to } => is_copy_right(alloc, from, to),
        ItemKind::Task { .. }
        | ItemKind::Map { .. }
        | ItemKind::Consume { .. }
        | ItemKind::Nested { .. } => Ok(true),
    }
}

/// Rule 6.
pub struct MovedShapes;

impl Rule for MovedShapes {
    ghost use Rattle.sd_validity.specs.rules.MovedShapes as moved;

    ghost rule = { λ s. moved.rule_6 };

    fn holds(
        &self,
        alloc: Global,
        _before: &[Place<'_>],
        place: &Place<'_>,
    ) -> Result<bool, NoMemory> {
        match place.thing {
            Thing::Whole | Thing::Leaving { .. } => Ok(true),
            Thing::Doing(kind) => is_item_right(alloc, kind),
        }
    }
}
