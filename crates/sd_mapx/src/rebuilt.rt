//! A graph once more, with other items in the place of one.
ghost use Rattle.std.specs.Prelude.{◌≡◌, ◌++◌, ℕ, List, map, string_bytes, if◌then◌else◌, IfOk, OnOk};
ghost use Rattle.sd_graph.specs.TreeFold.{graph_tree, item_tree, item_trees, kind_tree, state_tree, state_trees};
ghost use Rattle.sd_alike.specs.alike.Places as places;
ghost use Rattle.sd_mapx.specs.Rebuilt as rebuilt;

use crate::copies;
use crate::nesting::states_nest;
use sd_graph::{Item, ItemKind, Sdfg, State};
use sd_list::NoMemory;
use std::alloc::Global;

/// What stands in the place of an item, by its line and what it does, in a graph of so many variables; and the names
/// of further variables of that graph.
pub(crate) trait Replace {
    ghost replacing: { Self → places.Replacing };

    ghost further: { Self → List (List ℕ) };

    /// The names of the further variables.
    fn names(&self) -> &[String]
        ensures { map string_bytes result.now ≡ further self.now };

    /// Adds it to items.
    fn put(
        &self,
        alloc: Global,
        variables: u32,
        line: u32,
        kind: &ItemKind,
        items: &mut Vec<Item>,
    ) -> Result<(), NoMemory>
        ensures { OnOk result (item_trees items.new.items ≡ places.items_then (item_trees items.old.items) (replacing self.now variables line (kind_tree kind.now))) };
}

/// What a scope does, with another body; anything else as it is.
fn with_body(alloc: Global, kind: &ItemKind, body: Vec<Item>) -> Result<ItemKind, NoMemory>
    ensures { IfOk result (λ new. kind_tree new ≡ rebuilt.with_body (kind_tree kind.now) (item_trees body.items)) }
{
    match kind {
        ItemKind::Map {
            params,
            private,
            sequential,
            ..
        } => Ok(ItemKind::Map {
            params: copies::params(alloc, params)?,
            private: private.as_slice().to_vec(alloc)?,
            body,
            sequential: *sequential,
        }),
        ItemKind::Consume {
            stream,
            element,
            private,
            ..
        } => Ok(ItemKind::Consume {
            stream: *stream,
            element: *element,
            private: private.as_slice().to_vec(alloc)?,
            body,
        }),
        ItemKind::Task { .. }
        | ItemKind::Nested { .. }
        | ItemKind::Reduce { .. }
        | ItemKind::Copy { .. } => kind.copy_of(alloc),
    }
}

/// What an item does, with an item in it replaced.
#[cycle(rebuilding)]
fn kind_with<R: Replace>(
    alloc: Global,
    replace: &R,
    variables: u32,
    kind: &ItemKind,
    place: &[u32],
) -> Result<ItemKind, NoMemory>
    ensures { IfOk result (λ new. kind_tree new ≡ places.kind_with (R.replacing replace.now) (R.further replace.now) variables (kind_tree kind.now) place.now) }
{
    match kind {
        ItemKind::Map { body, .. } | ItemKind::Consume { body, .. } => {
            let new = items_with(alloc, replace, variables, body, place)?;
            with_body(alloc, kind, new)
        }
        ItemKind::Nested { graph, links } => Ok(ItemKind::Nested {
            graph: Box::new(alloc, rebuild(alloc, replace, graph, place)?)?,
            links: copies::links(alloc, links)?,
        }),
        ItemKind::Task { .. } | ItemKind::Reduce { .. } | ItemKind::Copy { .. } => {
            kind.copy_of(alloc)
        }
    }
}

/// Adds an item, or where it is the one that is meant, what stands in its place; where a place goes on, that is
/// the item with one in it replaced.
#[cycle(rebuilding)]
fn put_item<R: Replace>(
    alloc: Global,
    replace: &R,
    variables: u32,
    is_meant: bool,
    item: &Item,
    rest: &[u32],
    new: &mut Vec<Item>,
) -> Result<(), NoMemory>
    ensures { OnOk result (item_trees new.new.items ≡ places.items_then (item_trees new.old.items) (rebuilt.item_at (R.replacing replace.now) (R.further replace.now) variables is_meant (item_tree item.now).0 (item_tree item.now).1 rest.now)) }
{
    if !is_meant {
        new.push(item.copy_of(alloc)?)?;
        return Ok(());
    }
    match rest.split_first() {
        None => replace.put(alloc, variables, item.line, &item.kind, new),
        Some(_) => {
            let kind = kind_with(alloc, replace, variables, &item.kind, rest)?;
            let line = item.line;
            new.push(Item { line, kind })?;
            Ok(())
        }
    }
}

/// Items with one of them, or one in it, replaced.
#[cycle(rebuilding)]
fn items_with<R: Replace>(
    alloc: Global,
    replace: &R,
    variables: u32,
    items: &[Item],
    place: &[u32],
) -> Result<Vec<Item>, NoMemory>
    ensures { IfOk result (λ new. item_trees new.items ≡ places.items_with (R.replacing replace.now) (R.further replace.now) variables (item_trees items.now) place.now) }
{
    let Some((number, rest)) = place.split_first() else {
        return copies::items(alloc, items);
    };
    let number = *number;
    let mut new = Vec::new(alloc);
    let mut at = 0_u32;
    for item in items {
        put_item(
            alloc,
            replace,
            variables,
            at == number,
            item,
            rest,
            &mut new,
        )?;
        at = at.checked_add(1).ok_or(NoMemory)?;
    }
    Ok(new)
}

/// A state with one of its items, or one in it, replaced.
#[cycle(rebuilding)]
fn state_with<R: Replace>(
    alloc: Global,
    replace: &R,
    variables: u32,
    state: &State,
    place: &[u32],
) -> Result<State, NoMemory>
    ensures { IfOk result (λ new. state_tree new ≡ (places.items_with (R.replacing replace.now) (R.further replace.now) variables (state_tree state.now).0 place.now, (state_tree state.now).1)) }
{
    Ok(State {
        items: items_with(alloc, replace, variables, &state.items, place)?,
        exits: copies::exits(alloc, &state.exits)?,
    })
}

/// A state, or where a place leads into it, the state with one of its items, or one in it, replaced.
#[cycle(rebuilding)]
fn state_at<R: Replace>(
    alloc: Global,
    replace: &R,
    variables: u32,
    at: u32,
    state: &State,
    place: &[u32],
) -> Result<State, NoMemory>
    ensures { IfOk result (λ new. state_tree new ≡ rebuilt.state_at (R.replacing replace.now) (R.further replace.now) variables at (state_tree state.now) place.now) }
{
    let Some((number, rest)) = place.split_first() else {
        return state.copy_of(alloc);
    };
    if at == *number {
        state_with(alloc, replace, variables, state, rest)
    } else {
        state.copy_of(alloc)
    }
}

/// States with an item of one of them replaced.
#[cycle(rebuilding)]
fn states_with<R: Replace>(
    alloc: Global,
    replace: &R,
    variables: u32,
    states: &[State],
    place: &[u32],
) -> Result<Vec<State>, NoMemory>
    ensures { IfOk result (λ new. state_trees new.items ≡ places.states_with (R.replacing replace.now) (R.further replace.now) variables (state_trees states.now) place.now) }
{
    let mut new = Vec::new(alloc);
    let mut at = 0_u32;
    for state in states {
        new.push(state_at(alloc, replace, variables, at, state, place)?)?;
        at = at.checked_add(1).ok_or(NoMemory)?;
    }
    Ok(new)
}

/// The names of a graph's variables; where the place leads on into no nested graph, further ones behind them.
fn variables_with(
    alloc: Global,
    variables: &[String],
    further: &[String],
    states: &[State],
    place: &[u32],
) -> Result<Vec<String>, NoMemory>
    ensures { IfOk result (λ all. map string_bytes all.items ≡ (if places.states_nest (state_trees states.now) place.now then map string_bytes variables.now else map string_bytes variables.now ++ map string_bytes further.now)) }
{
    let mut all = copies::names(alloc, variables)?;
    if states_nest(states, place) {
        return Ok(all);
    }
    copies::push_names(alloc, further, &mut all)?;
    Ok(all)
}

/// The graph once more, with the item at a place replaced; the graph that has the item gets the further variables. A
/// place at which no item is replaces none.
#[cycle(rebuilding)]
pub(crate) fn rebuild<R: Replace>(
    alloc: Global,
    replace: &R,
    graph: &Sdfg,
    place: &[u32],
) -> Result<Sdfg, NoMemory>
    ensures { IfOk result (λ new. graph_tree new ≡ places.graph_with (R.replacing replace.now) (R.further replace.now) (graph_tree graph.now) place.now) }
{
    let variables = u32::try_from(graph.variables.len()).map_err(|_| NoMemory)?;
    Ok(Sdfg {
        name: graph.name.as_str().to_string(alloc)?,
        containers: copies::containers(alloc, &graph.containers)?,
        arguments: graph.arguments,
        variables: variables_with(
            alloc,
            &graph.variables,
            replace.names(),
            &graph.states,
            place,
        )?,
        symbols: graph.symbols,
        states: states_with(alloc, replace, variables, &graph.states, place)?,
    })
}
