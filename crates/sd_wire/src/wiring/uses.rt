//! What items do to which containers.
ghost use Rattle.std.specs.Prelude.{◌≡◌, ◌++◌, ◌∷◌, map, IfOk, OnOk};
ghost use Rattle.sd_graph.specs.ContainerParts as parts;
ghost use Rattle.sd_graph.specs.Mode as modes;
ghost use Rattle.sd_graph.specs.TreeFold.{exit_tree, graph_tree, item_trees, kind_tree, named_container, state_trees};
ghost use Rattle.sd_graph.specs.Wiring as definition;
ghost use Rattle.sd_wire.specs.wiring.Mentioned.{mode_of};

use crate::wiring::mentioned::{has_number, joined_mode};
use crate::wiring::mode::{Use, UseMode, mode_by, reduction_mode};
use indexmap::IndexMap;
use sd_graph::{Container, ContainerKind, Exit, Item, ItemKind, Link, Sdfg, State};
use sd_list::NoMemory;
use std::alloc::Global;

/// Whether a container is a stream.
fn is_stream(containers: &IndexMap<String, Container>, container: u32) -> bool
    ensures { result ≡ parts.is_stream (parts.container_at (map named_container containers.now.entries) container).kind }
{
    match containers.get_index(container as usize) {
        Some((_, found)) => match found.kind {
            ContainerKind::Stream | ContainerKind::PrivateStream => true,
            ContainerKind::Argument | ContainerKind::Transient | ContainerKind::Private => false,
        },
        None => false,
    }
}

/// Adds a read for each link.
fn push_reads(links: &[Link], uses: &mut Vec<Use>) -> Result<(), NoMemory>
    ensures { OnOk result (uses.new.items ≡ uses.old.items ++ map (definition.use_of modes.Read) links.now) }
{
    for link in links {
        uses.push(Use::new(link.memlet.container, UseMode::Read))?;
    }
    Ok(())
}

/// The mode of an output.
pub fn output_mode(containers: &IndexMap<String, Container>, link: &Link) -> UseMode
    ensures { mode_of result ≡ definition.output_mode (map named_container containers.now.entries) link.now }
{
    if is_stream(containers, link.memlet.container) {
        UseMode::Push
    } else {
        mode_by(link.memlet.resolution)
    }
}

/// Adds what each output does.
fn push_outputs(
    containers: &IndexMap<String, Container>,
    links: &[Link],
    uses: &mut Vec<Use>,
) -> Result<(), NoMemory>
    ensures { OnOk result (uses.new.items ≡ uses.old.items ++ map (definition.output_use (map named_container containers.now.entries)) links.now) }
{
    for link in links {
        let mode = output_mode(containers, link);
        uses.push(Use::new(link.memlet.container, mode))?;
    }
    Ok(())
}

/// Adds what the conditions of transitions read.
fn push_exits(exits: &[Exit], uses: &mut Vec<Use>) -> Result<(), NoMemory>
    ensures { OnOk result (uses.new.items ≡ uses.old.items ++ definition.exit_uses (map exit_tree exits.now)) }
{
    for exit in exits {
        if let Some(guard) = &exit.when {
            push_reads(guard.reads.as_slice(), uses)?;
        }
    }
    Ok(())
}

/// Adds those of the uses that are of other containers.
fn push_outside(private: &[u32], inner: &[Use], uses: &mut Vec<Use>) -> Result<(), NoMemory>
    ensures { OnOk result (uses.new.items ≡ uses.old.items ++ definition.outside private.now inner.now) }
{
    for use_ in inner {
        if !has_number(private, use_.container()) {
            uses.push(use_.copy_of())?;
        }
    }
    Ok(())
}

/// Adds what a nested graph does through its links, where this is what it does itself.
fn push_nested(inner: &[Use], links: &[Link], uses: &mut Vec<Use>) -> Result<(), NoMemory>
    ensures { OnOk result (uses.new.items ≡ uses.old.items ++ definition.nested_uses inner.now 0 links.now) }
{
    let mut number = 0_u32;
    for link in links {
        if let Some(mode) = joined_mode(inner, number) {
            uses.push(Use::new(link.memlet.container, mode))?;
        }
        number = number.checked_add(1).ok_or(NoMemory)?;
    }
    Ok(())
}

/// Numbers with one before them.
fn with_first(alloc: Global, first: u32, numbers: &[u32]) -> Result<Vec<u32>, NoMemory>
    ensures { IfOk result (λ all. all.items ≡ first ∷ numbers.now) }
{
    let mut all = vec![in alloc; first]?;
    all.extend_from_slice(numbers)?;
    Ok(all)
}

/// What an item does, those private to it aside.
pub(crate) fn uses_of(
    alloc: Global,
    kind: &ItemKind,
    containers: &IndexMap<String, Container>,
) -> Result<Vec<Use>, NoMemory>
    ensures { IfOk result (λ uses. uses.items ≡ definition.kind_uses (kind_tree kind.now) (map named_container containers.now.entries)) }
{
    let mut uses = Vec::new(alloc);
    push_kind(alloc, kind, containers, &mut uses)?;
    Ok(uses)
}

/// Adds what an item does.
#[cycle(uses)]
fn push_kind(
    alloc: Global,
    kind: &ItemKind,
    containers: &IndexMap<String, Container>,
    uses: &mut Vec<Use>,
) -> Result<(), NoMemory>
    ensures { OnOk result (uses.new.items ≡ uses.old.items ++ definition.kind_uses (kind_tree kind.now) (map named_container containers.now.entries)) }
{
    match kind {
        ItemKind::Task { ins, outs, .. } => {
            push_reads(ins, uses)?;
            push_outputs(containers, outs, uses)
        }
        ItemKind::Map { private, body, .. } => push_body(alloc, private, body, containers, uses),
        ItemKind::Consume {
            stream,
            element,
            private,
            body,
        } => {
            uses.push(Use::new(*stream, UseMode::Take))?;
            let own = with_first(alloc, *element, private)?;
            push_body(alloc, own.as_slice(), body, containers, uses)
        }
        ItemKind::Nested { graph, links } => {
            let inner = graph_uses(alloc, graph)?;
            push_nested(inner.as_slice(), links, uses)
        }
        ItemKind::Reduce {
            resolution,
            identity,
            from,
            to,
            ..
        } => {
            uses.push(Use::new(from.memlet.container, UseMode::Read))?;
            let mode = reduction_mode(*resolution, *identity);
            uses.push(Use::new(to.memlet.container, mode))?;
            Ok(())
        }
        ItemKind::Copy { from, to } => {
            uses.push(Use::new(from.memlet.container, UseMode::Read))?;
            uses.push(Use::new(to.memlet.container, UseMode::Write))?;
            Ok(())
        }
    }
}

/// Adds what the body of a scope does to other containers than the scope's own.
#[cycle(uses)]
fn push_body(
    alloc: Global,
    private: &[u32],
    body: &[Item],
    containers: &IndexMap<String, Container>,
    uses: &mut Vec<Use>,
) -> Result<(), NoMemory>
    ensures { OnOk result (uses.new.items ≡ uses.old.items ++ definition.outside private.now (definition.item_uses (item_trees body.now) (map named_container containers.now.entries))) }
{
    let mut inner = Vec::new(alloc);
    push_items(alloc, body, containers, &mut inner)?;
    push_outside(private, inner.as_slice(), uses)
}

/// Adds what items do.
#[cycle(uses)]
fn push_items(
    alloc: Global,
    items: &[Item],
    containers: &IndexMap<String, Container>,
    uses: &mut Vec<Use>,
) -> Result<(), NoMemory>
    ensures { OnOk result (uses.new.items ≡ uses.old.items ++ definition.item_uses (item_trees items.now) (map named_container containers.now.entries)) }
{
    for item in items {
        push_kind(alloc, &item.kind, containers, uses)?;
    }
    Ok(())
}

/// Adds what states do.
#[cycle(uses)]
fn push_states(
    alloc: Global,
    states: &[State],
    containers: &IndexMap<String, Container>,
    uses: &mut Vec<Use>,
) -> Result<(), NoMemory>
    ensures { OnOk result (uses.new.items ≡ uses.old.items ++ definition.state_uses (state_trees states.now) (map named_container containers.now.entries)) }
{
    for state in states {
        push_items(alloc, &state.items, containers, uses)?;
        push_exits(&state.exits, uses)?;
    }
    Ok(())
}

/// What a graph does.
#[cycle(uses)]
pub fn graph_uses(alloc: Global, graph: &Sdfg) -> Result<Vec<Use>, NoMemory>
    ensures { IfOk result (λ uses. uses.items ≡ definition.graph_uses (graph_tree graph.now)) }
{
    let mut uses = Vec::new(alloc);
    push_states(alloc, &graph.states, &graph.containers, &mut uses)?;
    Ok(uses)
}
