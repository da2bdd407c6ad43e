//! Which containers are mentioned.
ghost use Rattle.std.specs.Prelude.{◌≡◌, map, not, option_map, IfOk};
ghost use Rattle.std.specs.List.{list_any};
ghost use Rattle.sd_graph.specs.ContainerParts.{container_at};
ghost use Rattle.sd_graph.specs.InForce as force;
ghost use Rattle.sd_graph.specs.Mode as modes;
ghost use Rattle.sd_graph.specs.TreeFold.{named_container};
ghost use Rattle.sd_graph.specs.Wiring as wiring;
ghost use Rattle.sd_wire.specs.wiring.Mentioned as definition;
ghost use Rattle.sd_wire.specs.wiring.Mentioned.{mode_of};
ghost use Rattle.sd_wire.specs.wiring.Drawing.{own_among};

use crate::wiring::access::Access;
use crate::wiring::mode::{Use, UseMode, common_mode, do_conflict, is_of};
use indexmap::IndexMap;
use sd_graph::{Container, ContainerKind};
use sd_list::NoMemory;
use std::alloc::Global;

/// Whether a number is among these.
pub fn has_number(numbers: &[u32], number: u32) -> bool
    ensures { result ≡ wiring.has_number numbers.now number }
{
    for other in numbers {
        if number == *other {
            return true;
        }
    }
    false
}

/// The containers of uses, in order of first mention.
fn mentioned(alloc: Global, uses: &[Use]) -> Result<Vec<u32>, NoMemory>
    ensures { IfOk result (λ known. known.items ≡ definition.mentioned uses.now) }
{
    let mut known = Vec::new(alloc);
    for use_ in uses {
        let container = use_.container();
        if !has_number(known.as_slice(), container) {
            known.push(container)?;
        }
    }
    Ok(known)
}

/// Whether one of the uses of a container is of this access.
fn has_access(access: Access, uses: &[Use], container: u32) -> bool
    ensures { result ≡ definition.has_access access uses.now container }
{
    for use_ in uses {
        if use_.container() == container && is_of(access, use_.mode()) {
            return true;
        }
    }
    false
}

/// The containers that are read, or those that are written, in order of first mention.
pub(crate) fn containers_by(
    alloc: Global,
    access: Access,
    uses: &[Use],
) -> Result<Vec<u32>, NoMemory>
    ensures { IfOk result (λ found. found.items ≡ definition.containers_by access uses.now) }
{
    let all = mentioned(alloc, uses)?;
    let mut found = Vec::new(alloc);
    for container in all.as_slice() {
        if has_access(access, uses, *container) {
            found.push(*container)?;
        }
    }
    Ok(found)
}

/// Those of a list's own containers.
pub(crate) fn own_among(
    alloc: Global,
    own: &[u32],
    containers: &[u32],
) -> Result<Vec<u32>, NoMemory>
    ensures { IfOk result (λ found. found.items ≡ own_among own.now containers.now) }
{
    let mut found = Vec::new(alloc);
    for container in containers {
        if has_number(own, *container) {
            found.push(*container)?;
        }
    }
    Ok(found)
}

/// Whether two items conflict.
pub(crate) fn items_conflict(first: &[Use], second: &[Use]) -> bool
    ensures { result ≡ wiring.items_conflict first.now second.now }
{
    for use_ in first {
        if conflicts(use_, second) {
            return true;
        }
    }
    false
}

/// Whether a use conflicts with one of these.
fn conflicts(use_: &Use, others: &[Use]) -> bool
    ensures { result ≡ list_any (wiring.uses_conflict use_.now) others.now }
{
    for other in others {
        if use_.container() == other.container() && do_conflict(use_.mode(), other.mode()) {
            return true;
        }
    }
    false
}

/// The modes on a container in one; `None` where there is none.
pub fn joined_mode(uses: &[Use], container: u32) -> Option<UseMode>
    ensures { option_map mode_of result ≡ modes.joined_mode (wiring.modes_on container uses.now) }
{
    let mut joined = None;
    for use_ in uses {
        if use_.container() != container {
            continue;
        }
        joined = match joined {
            None => Some(use_.mode()),
            Some(mode) => Some(common_mode(mode, use_.mode())),
        };
    }
    joined
}

/// Whether a container is one of a state's own: the graph has it, and it is not private.
fn is_own(containers: &IndexMap<String, Container>, number: u32) -> bool
    ensures { result ≡ not (force.is_private (container_at (map named_container containers.now.entries) number).kind) }
{
    match containers.get_index(number as usize) {
        Some((_, found)) => match found.kind {
            ContainerKind::Private | ContainerKind::PrivateStream => false,
            ContainerKind::Argument | ContainerKind::Transient | ContainerKind::Stream => true,
        },
        None => false,
    }
}

/// The containers of a state's own.
#[tactic(auto, using(crate::proofs::wiring_lemmas::Owned::one_more, crate::proofs::wiring_lemmas::Owned::owned))]
pub(crate) fn own_of_state(
    alloc: Global,
    containers: &IndexMap<String, Container>,
) -> Result<Vec<u32>, NoMemory>
    ensures { IfOk result (λ own. own.items ≡ definition.own_of_state (map named_container containers.now.entries)) }
{
    let count = u32::try_from(containers.len()).map_err(|_| NoMemory)?;
    let mut own = Vec::new(alloc);
    for number in 0..count {
        if is_own(containers, number) {
            own.push(number)?;
        }
    }
    Ok(own)
}
