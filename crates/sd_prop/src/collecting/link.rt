//! The accesses of links.
ghost use Rattle.std.specs.Prelude.{◌≡◌, ◌++◌, ◌∷◌, [], map, OnOk};
ghost use Rattle.sd_graph.specs.Mode as modes;
ghost use Rattle.sd_graph.specs.TreeFold.{named_container};
ghost use Rattle.sd_prop.specs.propagation.Accesses as definition;
ghost use Rattle.sd_wire.specs.wiring.Mentioned.{mode_of};

use crate::collecting::access::Access;
use indexmap::IndexMap;
use sd_graph::{Container, Link};
use sd_list::NoMemory;
use sd_range::Range;
use sd_subset::box_of;
use sd_wire::{Use, UseMode, has_number, joined_mode, output_mode};
use std::alloc::Global;

/// Adds the access of a link.
pub(crate) fn push_link(
    alloc: Global,
    node: u32,
    mode: UseMode,
    link: &Link,
    found: &mut Vec<Access>,
) -> Result<(), NoMemory>
    ensures { OnOk result (found.new.items ≡ found.old.items ++ definition.access_of node (mode_of mode) link.now ∷ []) }
{
    let bounds = box_of(alloc, link.memlet.subset.dims.as_slice())?;
    found.push(Access::new(node, link.memlet.container, mode, bounds))?;
    Ok(())
}

/// Adds those of inputs.
pub(crate) fn push_inputs(
    alloc: Global,
    node: u32,
    links: &[Link],
    found: &mut Vec<Access>,
) -> Result<(), NoMemory>
    ensures { OnOk result (found.new.items ≡ found.old.items ++ map (definition.access_of node modes.Read) links.now) }
{
    for link in links {
        push_link(alloc, node, UseMode::Read, link, found)?;
    }
    Ok(())
}

/// Adds those of outputs.
pub(crate) fn push_outputs(
    alloc: Global,
    containers: &IndexMap<String, Container>,
    node: u32,
    links: &[Link],
    found: &mut Vec<Access>,
) -> Result<(), NoMemory>
    ensures { OnOk result (found.new.items ≡ found.old.items ++ map (definition.output_access (map named_container containers.now.entries) node) links.now) }
{
    for link in links {
        push_link(alloc, node, output_mode(containers, link), link, found)?;
    }
    Ok(())
}

/// Adds those of a nested graph through its links, where this is what it does itself.
pub(crate) fn push_nested(
    alloc: Global,
    node: u32,
    inner: &[Use],
    links: &[Link],
    found: &mut Vec<Access>,
) -> Result<(), NoMemory>
    ensures { OnOk result (found.new.items ≡ found.old.items ++ definition.nested_accesses node inner.now 0 links.now) }
{
    let mut number = 0_u32;
    for link in links {
        if let Some(mode) = joined_mode(inner, number) {
            push_link(alloc, node, mode, link, found)?;
        }
        number = number.checked_add(1).ok_or(NoMemory)?;
    }
    Ok(())
}

/// Adds those that are of other containers than a scope's own.
pub(crate) fn push_outside(
    alloc: Global,
    own: &[u32],
    inner: &[Access],
    found: &mut Vec<Access>,
) -> Result<(), NoMemory>
    ensures { OnOk result (found.new.items ≡ found.old.items ++ definition.outside_accesses own.now inner.now) }
{
    for access in inner {
        if !has_number(own, access.container()) {
            found.push(access.copy_of(alloc)?)?;
        }
    }
    Ok(())
}

/// Adds accesses with the parameters of a map replaced.
pub(crate) fn push_replaced(
    alloc: Global,
    parameters: &[(u32, Range)],
    inner: &[Access],
    found: &mut Vec<Access>,
) -> Result<(), NoMemory>
    ensures { OnOk result (found.new.items ≡ found.old.items ++ map (definition.access_replaced parameters.now) inner.now) }
{
    for access in inner {
        found.push(access.replaced(alloc, parameters)?)?;
    }
    Ok(())
}
