//! The scopes of a graph, by its states and nodes in turn, depth first.
ghost use Rattle.std.specs.Prelude.{◌≡◌, ◌++◌, ◌∷◌, [], map, drop, option_map, IfOk, OnOk};
ghost use Rattle.sd_graph.specs.TreeFold.{graph_tree, item_trees, kind_tree, named_container, state_trees};
ghost use Rattle.sd_prop.specs.propagation.ItemNodes as items;
ghost use Rattle.sd_prop.specs.propagation.Scopes as definition;
ghost use Rattle.sd_prop.specs.collecting.Plain.{over_of};

use crate::collecting::access::{Access, copied};
use crate::collecting::node::{item_nodes, nodes_behind, own_node};
use crate::collecting::scope::{Over, Scope};
use crate::collecting::walk::{push_body, with_first};
use indexmap::IndexMap;
use sd_graph::{Bound, Container, Item, ItemKind, Path, Sdfg, State};
use sd_list::{NoMemory, Sequence};
use sd_range::Range;
use std::alloc::Global;

/// A path with one number more.
pub(crate) fn further(alloc: Global, path: &[u32], number: u32) -> Result<Vec<u32>, NoMemory>
    ensures { IfOk result (λ longer. longer.items ≡ definition.further path.now number) }
{
    let mut longer = path.to_vec(alloc)?;
    longer.push(number)?;
    Ok(longer)
}

/// Adds the same parameters.
fn push_copies(
    alloc: Global,
    params: &[(u32, Range)],
    copies: &mut Vec<(u32, Range)>,
) -> Result<(), NoMemory>
    ensures { OnOk result (copies.new.items ≡ copies.old.items ++ params.now) }
{
    for (variable, range) in params {
        copies.push((*variable, range.copy_of(alloc)?))?;
    }
    Ok(())
}

/// Parameters with those of a map in it behind them.
fn joined(
    alloc: Global,
    around: &[(u32, Range)],
    params: &[(u32, Range)],
) -> Result<Vec<(u32, Range)>, NoMemory>
    ensures { IfOk result (λ all. all.items ≡ around.now ++ params.now) }
{
    let mut all = Vec::new(alloc);
    push_copies(alloc, around, &mut all)?;
    push_copies(alloc, params, &mut all)?;
    Ok(all)
}

/// Adds the scope that has this body. Its own node is the first of these, and those of its body are behind
/// it. Gives those behind them.
fn push_scope<'a, 'n>(
    alloc: Global,
    over: Over,
    own: &[u32],
    body: &[Item],
    containers: &'a IndexMap<String, Container>,
    path: &[u32],
    around: &[(u32, Range)],
    nodes: &'n [u32],
    found: &mut Vec<Scope<'a>>,
) -> Result<&'n [u32], NoMemory>
    ensures scope { OnOk result (found.new.items ≡ found.old.items ++ definition.scope_of (over_of over) own.now (item_trees body.now) (map named_container containers.now.entries) path.now around.now nodes.now ∷ []) }
    ensures rest { IfOk result (λ rest. rest.now ≡ drop (items.node_counts (item_trees body.now)) (items.nodes_behind nodes.now)) }
{
    let path = further(alloc, path, own_node(nodes))?;
    let around = joined(alloc, around, &[])?;
    let mut accesses = Vec::new(alloc);
    let behind = nodes_behind(nodes);
    let rest = push_body(alloc, own, body, containers, behind, &mut accesses)?;
    let path = Sequence::from(path);
    let around = Sequence::from(around);
    let accesses = Sequence::from(accesses);
    found.push(Scope::new(path, containers, around, over, accesses))?;
    Ok(rest)
}

/// Adds the scope that an item is, if it is one. The item's nodes are the first of these; gives those behind
/// them.
pub(crate) fn push_itself<'a, 'n>(
    alloc: Global,
    kind: &ItemKind,
    containers: &'a IndexMap<String, Container>,
    path: &[u32],
    around: &[(u32, Range)],
    nodes: &'n [u32],
    found: &mut Vec<Scope<'a>>,
) -> Result<&'n [u32], NoMemory>
    ensures scope { OnOk result (found.new.items ≡ found.old.items ++ definition.scopes_itself (kind_tree kind.now) (map named_container containers.now.entries) path.now around.now nodes.now) }
    ensures rest { IfOk result (λ rest. rest.now ≡ items.past (kind_tree kind.now) nodes.now) }
{
    match kind {
        ItemKind::Map {
            params,
            private,
            body,
            sequential,
        } => {
            let over = Over::Points {
                params: joined(alloc, params, &[])?,
                sequential: *sequential,
            };
            push_scope(
                alloc, over, private, body, containers, path, around, nodes, found,
            )
        }
        ItemKind::Consume {
            element,
            private,
            body,
            ..
        } => {
            let own = with_first(alloc, *element, private)?;
            let own = own.as_slice();
            let over = Over::Elements;
            push_scope(
                alloc, over, own, body, containers, path, around, nodes, found,
            )
        }
        ItemKind::Task { .. }
        | ItemKind::Nested { .. }
        | ItemKind::Reduce { .. }
        | ItemKind::Copy { .. } => Ok(nodes_behind(nodes)),
    }
}

/// Adds the scopes that are in an item.
#[cycle(scopes)]
fn push_inside<'a>(
    alloc: Global,
    kind: &'a ItemKind,
    containers: &'a IndexMap<String, Container>,
    path: &[u32],
    around: &[(u32, Range)],
    nodes: &[u32],
    found: &mut Vec<Scope<'a>>,
) -> Result<(), NoMemory>
    ensures { OnOk result (found.new.items ≡ found.old.items ++ definition.scopes_inside (kind_tree kind.now) (map named_container containers.now.entries) path.now around.now nodes.now) }
{
    match kind {
        ItemKind::Map { params, body, .. } => {
            let inner = joined(alloc, around, params)?;
            let around = inner.as_slice();
            push_scopes(
                alloc,
                body,
                containers,
                path,
                around,
                nodes_behind(nodes),
                found,
            )
        }
        ItemKind::Consume { body, .. } => push_scopes(
            alloc,
            body,
            containers,
            path,
            around,
            nodes_behind(nodes),
            found,
        ),
        ItemKind::Nested { graph, .. } => {
            let path = further(alloc, path, own_node(nodes))?;
            push_states(
                alloc,
                &graph.states,
                &graph.containers,
                path.as_slice(),
                found,
            )
        }
        ItemKind::Task { .. } | ItemKind::Reduce { .. } | ItemKind::Copy { .. } => Ok(()),
    }
}

/// Adds those of items in a state with this path.
#[cycle(scopes)]
fn push_scopes<'a>(
    alloc: Global,
    items: &'a [Item],
    containers: &'a IndexMap<String, Container>,
    path: &[u32],
    around: &[(u32, Range)],
    nodes: &[u32],
    found: &mut Vec<Scope<'a>>,
) -> Result<(), NoMemory>
    ensures { OnOk result (found.new.items ≡ found.old.items ++ definition.item_scopes (item_trees items.now) (map named_container containers.now.entries) path.now around.now nodes.now) }
{
    let mut left = nodes;
    for item in items {
        let rest = push_itself(alloc, &item.kind, containers, path, around, left, found)?;
        push_inside(alloc, &item.kind, containers, path, around, left, found)?;
        left = rest;
    }
    Ok(())
}

/// Adds those of the states of a graph with this path.
#[cycle(scopes)]
fn push_states<'a>(
    alloc: Global,
    states: &'a [State],
    containers: &'a IndexMap<String, Container>,
    path: &[u32],
    found: &mut Vec<Scope<'a>>,
) -> Result<(), NoMemory>
    ensures { OnOk result (found.new.items ≡ found.old.items ++ definition.state_scopes (state_trees states.now) (map named_container containers.now.entries) path.now 0) }
{
    let mut number = 0_u32;
    for state in states {
        let nodes = item_nodes(alloc, containers, &state.items)?;
        let inner = further(alloc, path, number)?;
        push_scopes(
            alloc,
            &state.items,
            containers,
            inner.as_slice(),
            &[],
            nodes.as_slice(),
            found,
        )?;
        number = number.checked_add(1).ok_or(NoMemory)?;
    }
    Ok(())
}

/// The scopes of a graph, by states and nodes in turn, depth first, those of a nested graph at its node.
pub fn scopes(alloc: Global, graph: &Sdfg) -> Result<Vec<Scope<'_>>, NoMemory>
    ensures { IfOk result (λ found. found.items ≡ definition.all_scopes (graph_tree graph.now)) }
{
    let mut found = Vec::new(alloc);
    push_states(alloc, &graph.states, &graph.containers, &[], &mut found)?;
    Ok(found)
}

/// The first of these scopes that has this path.
pub fn scope_with<'s, 'a>(scopes: &'s [Scope<'a>], path: &[u32]) -> Option<&'s Scope<'a>>
    ensures { option_map (λ scope. scope.now) result ≡ definition.scope_with path.now scopes.now }
{
    for scope in scopes {
        if path == scope.path() {
            return Some(scope);
        }
    }
    None
}

/// The accesses of the body of the scope with this path to other containers than its own, with the
/// parameters of the scopes in it replaced, in order of node and connector. `None` where no scope has the path.
pub fn accesses(
    alloc: Global,
    bound: &Bound,
    path: &Path,
) -> Result<Option<Sequence<Access>>, NoMemory>
    ensures { IfOk result (λ found. found ≡ definition.accesses_at (graph_tree bound.now.graph) path.now.steps) }
{
    let all = scopes(alloc, &bound.graph)?;
    match scope_with(all.as_slice(), path.steps.as_slice()) {
        Some(scope) => Ok(Some(copied(alloc, scope.accesses())?)),
        None => Ok(None),
    }
}
