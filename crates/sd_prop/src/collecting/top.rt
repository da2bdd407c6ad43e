//! The scopes of a graph as a whole.
ghost use Rattle.std.specs.Prelude.{◌≡◌, ◌++◌, ◌∷◌, [], map, IfOk, OnOk};
ghost use Rattle.sd_graph.specs.TreeFold.{graph_tree, item_trees, named_container, state_trees};
ghost use Rattle.sd_prop.specs.propagation.Joined as definition;
ghost use Rattle.sd_prop.specs.propagation.Scopes as scoped;

use crate::collecting::access::Access;
use crate::collecting::depth_first::{further, push_itself, scope_with, scopes};
use crate::collecting::joining::propagated;
use crate::collecting::node::item_nodes;
use crate::collecting::scope::Scope;
use indexmap::IndexMap;
use sd_graph::{Bound, Container, Item, Path, Sdfg, State};
use sd_list::{NoMemory, Sequence};
use std::alloc::Global;
use std::marker::Model;

/// The path of a scope, and its accesses as a whole.
#[derive(Drop)]
pub struct WholeScope {
    path: Sequence<u32>,
    accesses: Sequence<Access>,
}

impl Model for WholeScope {
    ghost use Rattle.std.specs.Prelude.{ℕ, List};
    ghost use Rattle.sd_prop.specs.propagation.Accesses as plain;

    ghost Value = { List ℕ × List plain.Access };

    ghost view = { λ s. (s.path, s.accesses) };
}

impl WholeScope {
    pub fn path(&self) -> &[u32]
        ensures { result.now ≡ self.now.0 }
    {
        self.path.as_slice()
    }

    pub fn accesses(&self) -> &[Access]
        ensures { result.now ≡ self.now.1 }
    {
        self.accesses.as_slice()
    }
}

/// Adds the scopes that stand in a list.
fn push_in_list<'a>(
    alloc: Global,
    items: &[Item],
    containers: &'a IndexMap<String, Container>,
    path: &[u32],
    nodes: &[u32],
    found: &mut Vec<Scope<'a>>,
) -> Result<(), NoMemory>
    ensures { OnOk result (found.new.items ≡ found.old.items ++ scoped.scopes_in_list (item_trees items.now) (map named_container containers.now.entries) path.now nodes.now) }
{
    let mut left = nodes;
    for item in items {
        left = push_itself(alloc, &item.kind, containers, path, &[], left, found)?;
    }
    Ok(())
}

/// Adds the scopes that stand in the lists of states.
fn push_in_states<'a>(
    alloc: Global,
    states: &[State],
    containers: &'a IndexMap<String, Container>,
    found: &mut Vec<Scope<'a>>,
) -> Result<(), NoMemory>
    ensures { OnOk result (found.new.items ≡ found.old.items ++ scoped.scopes_in_states (state_trees states.now) (map named_container containers.now.entries) 0) }
{
    let mut number = 0_u32;
    for state in states {
        let nodes = item_nodes(alloc, containers, &state.items)?;
        let path = further(alloc, &[], number)?;
        let path = path.as_slice();
        let nodes = nodes.as_slice();
        push_in_list(alloc, &state.items, containers, path, nodes, found)?;
        number = number.checked_add(1).ok_or(NoMemory)?;
    }
    Ok(())
}

/// The scopes that stand in a list of a state of the graph itself.
fn top_scopes(alloc: Global, graph: &Sdfg) -> Result<Vec<Scope<'_>>, NoMemory>
    ensures { IfOk result (λ found. found.items ≡ scoped.top_scopes (graph_tree graph.now)) }
{
    let mut found = Vec::new(alloc);
    push_in_states(alloc, &graph.states, &graph.containers, &mut found)?;
    Ok(found)
}

/// A scope as a whole.
fn whole(alloc: Global, scope: &Scope<'_>) -> Result<WholeScope, NoMemory>
    ensures { IfOk result (λ made. made ≡ (scope.now.path, definition.propagated scope.now)) }
{
    Ok(WholeScope {
        path: Sequence::from(scope.path().to_vec(alloc)?),
        accesses: propagated(alloc, scope)?,
    })
}

/// The accesses of the scope with this path as a whole: one for each container and mode, in the order
/// of first access and with the node of the first, its box the hull of all, with the parameters of the
/// scope replaced. `None` where no scope has the path.
pub fn propagate(
    alloc: Global,
    bound: &Bound,
    path: &Path,
) -> Result<Option<Sequence<Access>>, NoMemory>
    ensures { IfOk result (λ found. found ≡ definition.propagated_at (graph_tree bound.now.graph) path.now.steps) }
{
    let all = scopes(alloc, &bound.graph)?;
    match scope_with(all.as_slice(), path.steps.as_slice()) {
        Some(scope) => Ok(Some(propagated(alloc, scope)?)),
        None => Ok(None),
    }
}

/// Those of each scope that stands in a list of a state of the graph itself, by states and nodes, with the
/// paths.
pub fn annotate(alloc: Global, bound: &Bound) -> Result<Vec<WholeScope>, NoMemory>
    ensures { IfOk result (λ all. all.items ≡ definition.annotated (graph_tree bound.now.graph)) }
{
    let scopes = top_scopes(alloc, &bound.graph)?;
    let mut all = Vec::with_capacity(alloc, scopes.len())?;
    for scope in scopes.as_slice() {
        all.push(whole(alloc, scope)?)?;
    }
    Ok(all)
}
