//! Which containers the points of a map only read, and which it changes too.
ghost use Rattle.std.specs.Prelude.{◌≡◌, map, option_map, IfOk};
ghost use Rattle.sd_graph.specs.TreeFold.{graph_tree};
ghost use Rattle.sd_lower.specs.Kinds as definition;
ghost use Rattle.sd_prop.specs.collecting.Plain.{over_of};
ghost use Rattle.sd_wire.specs.wiring.Mentioned.{mode_of};

use sd_graph::{Bound, Path};
use sd_list::{NoMemory, Sequence};
use sd_prop::{Access, Over, Scope, annotate, scope_with, scopes};
use sd_wire::{UseMode, has_number};
use std::alloc::Global;

/// How the pieces of a map come to a container.
#[derive(Clone, Copy, Debug, PartialEq, Eq)]
pub enum Kind {
    /// All pieces read the same elements, and none changes one.
    Shared,
    /// Each piece has a copy of what it touches.
    Copied,
}

/// A container of a map that is cut into pieces.
#[derive(Drop)]
pub struct MapContainer {
    /// The path of the map.
    pub at: Path,
    pub container: u32,
    pub kind: Kind,
}

/// The containers of accesses, in the order of first access.
pub(crate) fn containers_in(alloc: Global, accesses: &[Access]) -> Result<Vec<u32>, NoMemory>
    ensures { IfOk result (λ known. known.items ≡ definition.containers_in accesses.now) }
{
    let mut known = Vec::new(alloc);
    for access in accesses {
        if !has_number(known.as_slice(), access.container()) {
            known.push(access.container())?;
        }
    }
    Ok(known)
}

/// Whether an access only reads.
fn is_read(mode: UseMode) -> bool
    ensures { result ≡ definition.is_read (mode_of mode) }
{
    match mode {
        UseMode::Read => true,
        UseMode::Write | UseMode::Resolve(_) | UseMode::Push | UseMode::Take => false,
    }
}

/// Whether each access of a container only reads.
fn is_only_read(accesses: &[Access], container: u32) -> bool
    ensures { result ≡ definition.is_only_read accesses.now container }
{
    for access in accesses {
        if access.container() == container && !is_read(access.mode()) {
            return false;
        }
    }
    true
}

/// What is only read is shared, what is changed is copied.
fn kind_of(accesses: &[Access], container: u32) -> Kind
    ensures { result ≡ definition.kind_of accesses.now container }
{
    if is_only_read(accesses, container) {
        Kind::Shared
    } else {
        Kind::Copied
    }
}

/// Whether a scope is a map that is cut into pieces.
fn is_cut(over: &Over) -> bool
    ensures { result ≡ definition.is_cut (over_of over.now) }
{
    match over {
        Over::Points { sequential, .. } => !*sequential,
        Over::Elements => false,
    }
}

/// The containers of a map with this path.
fn map_containers(
    alloc: Global,
    path: &[u32],
    accesses: &[Access],
) -> Result<Vec<MapContainer>, NoMemory>
    ensures { IfOk result (λ kinds. kinds.items ≡ map (definition.map_container path.now accesses.now) (definition.containers_in accesses.now)) }
{
    let touched = containers_in(alloc, accesses)?;
    let mut kinds = Vec::with_capacity(alloc, touched.len())?;
    for container in touched.as_slice() {
        kinds.push(MapContainer {
            at: Path {
                steps: Sequence::from(path.to_vec(alloc)?),
            },
            container: *container,
            kind: kind_of(accesses, *container),
        })?;
    }
    Ok(kinds)
}

/// The containers of a scope that is cut into pieces; a scope that is not has none.
pub(crate) fn scope_kinds(alloc: Global, scope: &Scope<'_>) -> Result<Vec<MapContainer>, NoMemory>
    ensures { IfOk result (λ kinds. kinds.items ≡ definition.scope_kinds scope.now) }
{
    if is_cut(scope.over()) {
        map_containers(alloc, scope.path(), scope.accesses())
    } else {
        Ok(Vec::new(alloc))
    }
}

/// Those of a scope that was looked for.
fn found_kinds(alloc: Global, found: Option<&Scope<'_>>) -> Result<Vec<MapContainer>, NoMemory>
    ensures { IfOk result (λ kinds. kinds.items ≡ definition.found_kinds (option_map (λ scope. scope.now) found.entry)) }
{
    match found {
        Some(scope) => scope_kinds(alloc, scope),
        None => Ok(Vec::new(alloc)),
    }
}

/// The containers of each map that stands in a list of a state of the graph itself.
pub(crate) fn all_kinds(alloc: Global, bound: &Bound) -> Result<Vec<MapContainer>, NoMemory>
    ensures { IfOk result (λ kinds. kinds.items ≡ definition.all_kinds (graph_tree bound.now.graph)) }
{
    let all = scopes(alloc, &bound.graph)?;
    let tops = annotate(alloc, bound)?;
    let mut kinds = Vec::new(alloc);
    for top in tops.as_slice() {
        let found = scope_with(all.as_slice(), top.path());
        kinds.append(&mut found_kinds(alloc, found)?)?;
    }
    Ok(kinds)
}
