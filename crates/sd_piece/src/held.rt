//! Whether a memory has what the accesses of a piece may touch.
ghost use Rattle.std.specs.Prelude.{◌≡◌, ◌↔◌, ◌<◌, map, unsigned_abs, IfOk, IsTrue};
ghost use Rattle.sd_graph.specs.ContainerParts.{container_at, extents_of};
ghost use Rattle.sd_graph.specs.TreeFold.{named_container};
ghost use Rattle.sd_wire.specs.wiring.Mentioned.{mode_of};
ghost use Rattle.sd_part.specs.Hulls as hulls;
ghost use Rattle.sd_piece.specs.Held as definition;

use crate::array::has_array;
use indexmap::IndexMap;
use sd_graph::Container;
use sd_list::NoMemory;
use sd_mem::Memory;
use sd_part::{Interval, NumberBox};
use sd_range::Affine;
use sd_wire::UseMode;
use std::alloc::Global;

/// Whether each dimension of a box has an index.
fn has_index(intervals: &[Interval]) -> bool
    ensures { result ≡ hulls.has_index intervals.now }
{
    for interval in intervals {
        if interval.count == 0 {
            return false;
        }
    }
    true
}

/// Whether elements are touched in a mode, and not a stream.
fn is_of_elements(mode: UseMode) -> bool
    ensures { result ≡ hulls.is_of_elements (mode_of mode) }
{
    match mode {
        UseMode::Read | UseMode::Write | UseMode::Resolve(_) => true,
        UseMode::Push | UseMode::Take => false,
    }
}

/// Whether elements of a container are touched.
fn has_elements(boxes: &[NumberBox], container: u32) -> bool
    ensures { result ≡ hulls.has_elements boxes.now container }
{
    for one in boxes {
        if one.container() == container && is_of_elements(one.mode()) {
            return true;
        }
    }
    false
}

/// The sizes of the constants that extents are.
fn sizes_of(alloc: Global, extents: &[Affine]) -> Result<Vec<u64>, NoMemory>
    ensures { IfOk result (λ sizes. sizes.items ≡ map (λ extent. unsigned_abs extent.constant) extents.now) }
{
    let mut sizes = Vec::with_capacity(alloc, extents.len())?;
    for extent in extents {
        let size = u64::try_from(extent.constant.unsigned_abs()).map_err(|_| NoMemory)?;
        sizes.push(size)?;
    }
    Ok(sizes)
}

/// The extents of the container of a number; of one that is not there there are none.
fn extents_at(
    alloc: Global,
    containers: &IndexMap<String, Container>,
    number: u32,
) -> Result<Vec<u64>, NoMemory>
    ensures { IfOk result (λ sizes. sizes.items ≡ extents_of (container_at (map named_container containers.now.entries) number)) }
{
    match containers.get_index(number as usize) {
        Some((_, container)) => sizes_of(alloc, container.extents.as_slice()),
        None => Ok(Vec::new(alloc)),
    }
}

/// Whether a memory has what one of these boxes touches.
fn has_touched_by(
    alloc: Global,
    containers: &IndexMap<String, Container>,
    memory: &Memory,
    boxes: &[NumberBox],
    one: &NumberBox,
) -> Result<bool, NoMemory>
    ensures { IfOk result (λ has. IsTrue has ↔ definition.HasTouchedBy (map named_container containers.now.entries) memory.now boxes.now one.now) }
{
    let container = one.container();
    if !is_of_elements(one.mode()) {
        return Ok(memory.is_stream(container) && !has_elements(boxes, container));
    }
    if !has_index(one.intervals()) {
        return Ok(true);
    }
    let extents = extents_at(alloc, containers, container)?;
    has_array(alloc, memory, container, extents.as_slice())
}

/// Whether a memory has what each of these boxes touches.
pub(crate) fn has_touched(
    alloc: Global,
    containers: &IndexMap<String, Container>,
    memory: &Memory,
    boxes: &[NumberBox],
) -> Result<bool, NoMemory>
    ensures { IfOk result (λ has. IsTrue has ↔ definition.HasTouched (map named_container containers.now.entries) memory.now boxes.now) }
{
    for one in boxes {
        if !has_touched_by(alloc, containers, memory, boxes, one)? {
            return Ok(false);
        }
    }
    Ok(true)
}
