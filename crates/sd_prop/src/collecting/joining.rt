//! The accesses of a scope as a whole.
ghost use Rattle.std.specs.Prelude.{◌≡◌, map, unsigned_abs, IfOk};
ghost use Rattle.std.specs.List.{list_any};
ghost use Rattle.sd_graph.specs.ContainerParts as parts;
ghost use Rattle.sd_graph.specs.TreeFold.{named_container};
ghost use Rattle.sd_prop.specs.propagation.Accesses.{access_replaced};
ghost use Rattle.sd_prop.specs.propagation.Joined as definition;
ghost use Rattle.sd_prop.specs.propagation.Scopes.{params_of};
ghost use Rattle.sd_wire.specs.wiring.Mentioned.{mode_of};
ghost use Rattle.sd_prop.specs.collecting.Plain.{over_of};

use crate::collecting::access::{Access, bounds_copied};
use crate::collecting::link::push_replaced;
use crate::collecting::scope::{Over, Scope};
use indexmap::IndexMap;
use sd_graph::Container;
use sd_list::{NoMemory, Sequence};
use sd_range::{Affine, Range};
use sd_subset::{Bounds, hull};
use sd_wire::{UseMode, do_conflict};
use std::alloc::Global;

/// Whether two modes are the same.
fn is_same_mode(mode: UseMode, other: UseMode) -> bool
    ensures { result ≡ definition.is_same_mode (mode_of mode) (mode_of other) }
{
    match (mode, other) {
        (UseMode::Read, UseMode::Read)
        | (UseMode::Write, UseMode::Write)
        | (UseMode::Push, UseMode::Push)
        | (UseMode::Take, UseMode::Take) => true,
        (UseMode::Resolve(_), UseMode::Resolve(_)) => !do_conflict(mode, other),
        _ => false,
    }
}

/// Whether two accesses are of one container and mode.
fn is_like(access: &Access, other: &Access) -> bool
    ensures { result ≡ definition.is_like access.now other.now }
{
    access.container() == other.container() && is_same_mode(access.mode(), other.mode())
}

/// Whether one of these is of the container and mode of an access.
fn has_like(access: &Access, known: &[Access]) -> bool
    ensures { result ≡ list_any (definition.is_like access.now) known.now }
{
    for other in known {
        if is_like(access, other) {
            return true;
        }
    }
    false
}

/// The first accesses of each container and mode.
fn first_accesses(alloc: Global, accesses: &[Access]) -> Result<Vec<Access>, NoMemory>
    ensures { IfOk result (λ known. known.items ≡ definition.first_accesses accesses.now) }
{
    let mut known = Vec::new(alloc);
    for access in accesses {
        if !has_like(access, known.as_slice()) {
            known.push(access.copy_of(alloc)?)?;
        }
    }
    Ok(known)
}

/// The boxes of the accesses that are like one.
fn boxes_like(
    alloc: Global,
    access: &Access,
    accesses: &[Access],
) -> Result<Vec<Sequence<Bounds>>, NoMemory>
    ensures { IfOk result (λ boxes. boxes.items ≡ definition.boxes_like access.now accesses.now) }
{
    let mut boxes = Vec::new(alloc);
    for other in accesses {
        if is_like(access, other) {
            boxes.push(bounds_copied(alloc, other.bounds())?)?;
        }
    }
    Ok(boxes)
}

/// The sizes of the constants that extents are.
fn sizes_of(alloc: Global, extents: &[Affine]) -> Result<Vec<u64>, NoMemory>
    ensures { IfOk result (λ sizes. sizes.items ≡ map (λ extent. unsigned_abs extent.constant) extents.now) }
{
    let mut sizes = Vec::with_capacity(alloc, extents.len())?;
    for extent in extents {
        let size = u64::try_from(extent.constant.unsigned_abs()).map_err(|_| NoMemory)?;
        sizes.push(size)?;
    }
    Ok(sizes)
}

/// The extents of a container; of one that is not there there are none.
fn extents_of(
    alloc: Global,
    containers: &IndexMap<String, Container>,
    container: u32,
) -> Result<Vec<u64>, NoMemory>
    ensures { IfOk result (λ extents. extents.items ≡ parts.extents_of (parts.container_at (map named_container containers.now.entries) container)) }
{
    match containers.get_index(container as usize) {
        Some((_, found)) => sizes_of(alloc, found.extents.as_slice()),
        None => Ok(Vec::new(alloc)),
    }
}

/// An access with the hull of the boxes of those like it.
fn joined_access(
    alloc: Global,
    containers: &IndexMap<String, Container>,
    accesses: &[Access],
    access: &Access,
) -> Result<Access, NoMemory>
    ensures { IfOk result (λ whole. whole ≡ definition.joined_access (map named_container containers.now.entries) accesses.now access.now) }
{
    let extents = extents_of(alloc, containers, access.container())?;
    let boxes = boxes_like(alloc, access, accesses)?;
    let bounds = hull(alloc, extents.as_slice(), boxes.as_slice())?;
    Ok(Access::new(access.node(), access.container(), access.mode(), bounds))
}

/// One access for each container and mode, with the node of the first.
fn joined_accesses(
    alloc: Global,
    containers: &IndexMap<String, Container>,
    accesses: &[Access],
) -> Result<Vec<Access>, NoMemory>
    ensures { IfOk result (λ all. all.items ≡ definition.joined_accesses (map named_container containers.now.entries) accesses.now) }
{
    let first = first_accesses(alloc, accesses)?;
    let mut all = Vec::with_capacity(alloc, first.len())?;
    for access in first.as_slice() {
        all.push(joined_access(alloc, containers, accesses, access)?)?;
    }
    Ok(all)
}

/// The parameters of a scope.
fn params_of(over: &Over) -> &[(u32, Range)]
    ensures { result.now ≡ params_of (over_of over.now) }
{
    match over {
        Over::Points { params, .. } => params.as_slice(),
        Over::Elements => &[],
    }
}

/// The accesses of a scope as a whole: its own parameters replaced too, and joined.
pub(crate) fn propagated(alloc: Global, scope: &Scope<'_>) -> Result<Sequence<Access>, NoMemory>
    ensures { IfOk result (λ all. all ≡ definition.propagated scope.now) }
{
    let mut outer = Vec::new(alloc);
    push_replaced(alloc, params_of(scope.over()), scope.accesses(), &mut outer)?;
    let all = joined_accesses(alloc, scope.containers(), outer.as_slice())?;
    Ok(Sequence::from(all))
}
