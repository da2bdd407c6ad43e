//! A box in numbers.
ghost use Rattle.std.specs.Prelude.{◌≡◌, map, unsigned_abs, IfOk};
ghost use Rattle.sd_graph.specs.TreeFold.{named_container};
ghost use Rattle.sd_graph.specs.ContainerParts.{extents_of, container_at};
ghost use Rattle.sd_wire.specs.wiring.Mentioned.{mode_of};
ghost use Rattle.sd_prop.specs.propagation.Accesses.{access_replaced};
ghost use Rattle.sd_part.specs.Boxes as definition;

use crate::boxes::interval::{Interval, intervals_at};
use indexmap::IndexMap;
use sd_graph::Container;
use sd_list::{NoMemory, Sequence};
use sd_prop::Access;
use sd_range::{Affine, Range};
use sd_subset::replaced;
use sd_wire::UseMode;
use std::alloc::Global;
use std::marker::Model;

/// What an access may touch, in numbers: its container, its mode, and the indices of each dimension, which are inside the container.
#[derive(Drop)]
pub struct NumberBox {
    container: u32,
    mode: UseMode,
    intervals: Sequence<Interval>,
}

impl Model for NumberBox {
    ghost use Rattle.sd_part.specs.Boxes as plain;
    ghost use Rattle.sd_wire.specs.wiring.Mentioned.{mode_of};

    ghost Value = { plain.NumberBox };

    ghost view = { λ b. record { container = b.container; mode = mode_of b.mode; intervals = b.intervals } };
}

impl NumberBox {
    pub fn container(&self) -> u32
        ensures { result ≡ self.now.container }
    {
        self.container
    }

    pub fn mode(&self) -> UseMode
        ensures { mode_of result ≡ self.now.mode }
    {
        self.mode
    }

    pub fn intervals(&self) -> &[Interval]
        ensures { result.now ≡ self.now.intervals }
    {
        self.intervals.as_slice()
    }
}

/// The sizes of the constants that extents are.
fn sizes_of(alloc: Global, extents: &[Affine]) -> Result<Vec<u64>, NoMemory>
    ensures { IfOk result (λ sizes. sizes.items ≡ map (λ extent. unsigned_abs extent.constant) extents.now) }
{
    let mut sizes = Vec::with_capacity(alloc, extents.len())?;
    for extent in extents {
        let size = u64::try_from(extent.constant.unsigned_abs()).map_err(|_| NoMemory)?;
        sizes.push(size)?;
    }
    Ok(sizes)
}

/// The extents of the container of a number; of one that is not there there are none.
fn extents_at(
    alloc: Global,
    containers: &IndexMap<String, Container>,
    number: u32,
) -> Result<Vec<u64>, NoMemory>
    ensures { IfOk result (λ sizes. sizes.items ≡ extents_of (container_at (map named_container containers.now.entries) number)) }
{
    match containers.get_index(number as usize) {
        Some((_, container)) => sizes_of(alloc, container.extents.as_slice()),
        None => Ok(Vec::new(alloc)),
    }
}

/// The box of an access in numbers, with the parameters of a map replaced in it, cut at 0 and the extents of its container.
fn number_box(
    alloc: Global,
    containers: &IndexMap<String, Container>,
    params: &[(u32, Range)],
    access: &Access,
    values: &[i128],
) -> Result<NumberBox, NoMemory>
    ensures { IfOk result (λ made. made ≡ definition.number_box (map named_container containers.now.entries) values.now (access_replaced params.now access.now)) }
{
    let extents = extents_at(alloc, containers, access.container())?;
    let bounds = replaced(alloc, params, access.bounds())?;
    let intervals = intervals_at(alloc, extents.as_slice(), bounds.as_slice(), values)?;
    Ok(NumberBox {
        container: access.container(),
        mode: access.mode(),
        intervals,
    })
}

/// The boxes of accesses in numbers, with the parameters of a map replaced in them.
pub(crate) fn number_boxes(
    alloc: Global,
    containers: &IndexMap<String, Container>,
    params: &[(u32, Range)],
    accesses: &[Access],
    values: &[i128],
) -> Result<Vec<NumberBox>, NoMemory>
    ensures { IfOk result (λ boxes. boxes.items ≡ map (definition.number_box (map named_container containers.now.entries) values.now) (map (access_replaced params.now) accesses.now)) }
{
    let mut boxes = Vec::with_capacity(alloc, accesses.len())?;
    for access in accesses {
        boxes.push(number_box(alloc, containers, params, access, values)?)?;
    }
    Ok(boxes)
}
