//! What passes into an item and out of it.
ghost use Rattle.std.specs.Prelude.{◌≡◌, ◌∷◌, [], map, IfOk};
ghost use Rattle.sd_graph.specs.TreeFold.{kind_tree, named_container};
ghost use Rattle.sd_graph.specs.Mode.{joined_mode};
ghost use Rattle.sd_graph.specs.Wiring.{kind_uses, modes_on};
ghost use Rattle.sd_wire.specs.wiring.Mentioned as definition;

use crate::wiring::access::Access;
use crate::wiring::mentioned::{containers_by, joined_mode};
use crate::wiring::mode::{Use, is_of};
use crate::wiring::uses::graph_uses;
use indexmap::IndexMap;
use sd_graph::{Container, ItemKind, Link};
use sd_list::NoMemory;
use std::alloc::Global;

/// What an edge of an item carries: a connector's link, or for a scope the container alone.
#[derive(Drop)]
pub struct Passing {
    pub container: u32,
    pub link: Option<Link>,
}

/// A connector's link.
fn by_link(alloc: Global, link: &Link) -> Result<Passing, NoMemory>
    ensures { IfOk result (λ passing. passing ≡ definition.by_link link.now) }
{
    Ok(Passing {
        container: link.memlet.container,
        link: Some(link.copy_of(alloc)?),
    })
}

/// The links of connectors.
fn by_links(alloc: Global, links: &[Link]) -> Result<Vec<Passing>, NoMemory>
    ensures { IfOk result (λ all. all.items ≡ map definition.by_link links.now) }
{
    let mut all = Vec::with_capacity(alloc, links.len())?;
    for link in links {
        all.push(by_link(alloc, link)?)?;
    }
    Ok(all)
}

/// The link of an item with one connector on each side.
fn by_one_link(
    alloc: Global,
    access: Access,
    from: &Link,
    to: &Link,
) -> Result<Vec<Passing>, NoMemory>
    ensures { IfOk result (λ all. all.items ≡ definition.by_link (definition.moved_link access from.now to.now) ∷ []) }
{
    let passing = match access {
        Access::Reads => by_link(alloc, from)?,
        Access::Writes => by_link(alloc, to)?,
    };
    Ok(vec![in alloc; passing]?)
}

/// Containers that pass the entry or the exit of a scope.
fn by_containers(alloc: Global, containers: &[u32]) -> Result<Vec<Passing>, NoMemory>
    ensures { IfOk result (λ all. all.items ≡ map definition.by_container containers.now) }
{
    let mut all = Vec::with_capacity(alloc, containers.len())?;
    for container in containers {
        all.push(Passing {
            container: *container,
            link: None,
        })?;
    }
    Ok(all)
}

/// The links of a nested graph by which it reads, or writes, where this is what it does itself.
fn by_nested(
    alloc: Global,
    access: Access,
    inner: &[Use],
    links: &[Link],
) -> Result<Vec<Passing>, NoMemory>
    ensures { IfOk result (λ all. all.items ≡ map definition.by_link (definition.links_by access inner.now 0 links.now)) }
{
    let mut all = Vec::new(alloc);
    let mut number = 0_u32;
    for link in links {
        if has_mode_of(access, inner, number) {
            all.push(by_link(alloc, link)?)?;
        }
        number = number.checked_add(1).ok_or(NoMemory)?;
    }
    Ok(all)
}

/// Whether what is done to a container is, in one, of this access.
fn has_mode_of(access: Access, uses: &[Use], container: u32) -> bool
    ensures { result ≡ definition.is_mode_of access (joined_mode (modes_on container uses.now)) }
{
    match joined_mode(uses, container) {
        None => false,
        Some(mode) => is_of(access, mode),
    }
}

/// What passes into an item, or out of it, where this is what the item does.
pub(crate) fn all_passing(
    alloc: Global,
    access: Access,
    kind: &ItemKind,
    containers: &IndexMap<String, Container>,
    uses: &[Use],
) -> Result<Vec<Passing>, NoMemory>
    requires { uses.now ≡ kind_uses (kind_tree kind.now) (map named_container containers.now.entries) }
    ensures { IfOk result (λ all. all.items ≡ definition.passing access (kind_tree kind.now) (map named_container containers.now.entries)) }
{
    match kind {
        ItemKind::Task { ins, outs, .. } => match access {
            Access::Reads => by_links(alloc, ins),
            Access::Writes => by_links(alloc, outs),
        },
        ItemKind::Map { .. } | ItemKind::Consume { .. } => {
            let found = containers_by(alloc, access, uses)?;
            by_containers(alloc, found.as_slice())
        }
        ItemKind::Nested { graph, links } => {
            let inner = graph_uses(alloc, graph)?;
            by_nested(alloc, access, inner.as_slice(), links)
        }
        ItemKind::Reduce { from, to, .. } | ItemKind::Copy { from, to } => {
            by_one_link(alloc, access, from, to)
        }
    }
}
