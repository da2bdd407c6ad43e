//! What each item of a list does to which containers.
ghost use Rattle.std.specs.Prelude.{◌≡◌, ◌++◌, ◌∷◌, map, IfOk, OnOk};
ghost use Rattle.sd_graph.specs.Mode as modes;
ghost use Rattle.sd_graph.specs.TreeFold.{graph_tree, item_trees, kind_tree, named_container};
ghost use Rattle.sd_graph.specs.Wiring as definition;

use crate::items::use_::Use;
use indexmap::IndexMap;
use sd_graph::{Container, Item, ItemKind, Link, Sdfg};
use sd_list::{NoMemory, Sequence};
use sd_wire::{UseMode, graph_uses, has_number, joined_mode, output_mode, reduction_mode};
use std::alloc::Global;

/// Adds a read for each link.
fn push_reads(links: &[Link], uses: &mut Vec<Use>) -> Result<(), NoMemory>
    ensures { OnOk result (uses.new.items ≡ uses.old.items ++ map (definition.use_of modes.Read) links.now) }
{
    for link in links {
        uses.push(Use::new(link.memlet.container, UseMode::Read))?;
    }
    Ok(())
}

/// Adds what each output does.
fn push_outputs(
    containers: &IndexMap<String, Container>,
    links: &[Link],
    uses: &mut Vec<Use>,
) -> Result<(), NoMemory>
    ensures { OnOk result (uses.new.items ≡ uses.old.items ++ map (definition.output_use (map named_container containers.now.entries)) links.now) }
{
    for link in links {
        let mode = output_mode(containers, link);
        uses.push(Use::new(link.memlet.container, mode))?;
    }
    Ok(())
}

/// Adds those of the uses that are of other containers.
fn push_outside(private: &[u32], inner: &[Use], uses: &mut Vec<Use>) -> Result<(), NoMemory>
    ensures { OnOk result (uses.new.items ≡ uses.old.items ++ definition.outside private.now inner.now) }
{
    for use_ in inner {
        if !has_number(private, use_.container()) {
            uses.push(use_.copy_of())?;
        }
    }
    Ok(())
}

/// Adds what a nested graph does through its links.
fn push_nested(
    alloc: Global,
    graph: &Sdfg,
    links: &[Link],
    uses: &mut Vec<Use>,
) -> Result<(), NoMemory>
    ensures { OnOk result (uses.new.items ≡ uses.old.items ++ definition.nested_uses (definition.graph_uses (graph_tree graph.now)) 0 links.now) }
{
    let inner = graph_uses(alloc, graph)?;
    let mut number = 0_u32;
    for link in links {
        if let Some(mode) = joined_mode(inner.as_slice(), number) {
            uses.push(Use::new(link.memlet.container, mode))?;
        }
        number = number.checked_add(1).ok_or(NoMemory)?;
    }
    Ok(())
}

/// Numbers with one before them.
fn with_first(alloc: Global, first: u32, numbers: &[u32]) -> Result<Vec<u32>, NoMemory>
    ensures { IfOk result (λ all. all.items ≡ first ∷ numbers.now) }
{
    let mut all = vec![in alloc; first]?;
    all.extend_from_slice(numbers)?;
    Ok(all)
}

/// Adds what an item does.
#[cycle(uses)]
fn push_kind(
    alloc: Global,
    kind: &ItemKind,
    containers: &IndexMap<String, Container>,
    uses: &mut Vec<Use>,
) -> Result<(), NoMemory>
    ensures { OnOk result (uses.new.items ≡ uses.old.items ++ definition.kind_uses (kind_tree kind.now) (map named_container containers.now.entries)) }
{
    match kind {
        ItemKind::Task { ins, outs, .. } => {
            push_reads(ins, uses)?;
            push_outputs(containers, outs, uses)
        }
        ItemKind::Map { private, body, .. } => push_body(alloc, private, body, containers, uses),
        ItemKind::Consume {
            stream,
            element,
            private,
            body,
        } => {
            uses.push(Use::new(*stream, UseMode::Take))?;
            let own = with_first(alloc, *element, private)?;
            push_body(alloc, own.as_slice(), body, containers, uses)
        }
        ItemKind::Nested { graph, links } => push_nested(alloc, graph, links, uses),
        ItemKind::Reduce {
            resolution,
            identity,
            from,
            to,
            ..
        } => {
            uses.push(Use::new(from.memlet.container, UseMode::Read))?;
            let mode = reduction_mode(*resolution, *identity);
            uses.push(Use::new(to.memlet.container, mode))?;
            Ok(())
        }
        ItemKind::Copy { from, to } => {
            uses.push(Use::new(from.memlet.container, UseMode::Read))?;
            uses.push(Use::new(to.memlet.container, UseMode::Write))?;
            Ok(())
        }
    }
}

/// Adds what the body of a scope does to other containers than the scope's own.
#[cycle(uses)]
fn push_body(
    alloc: Global,
    private: &[u32],
    body: &[Item],
    containers: &IndexMap<String, Container>,
    uses: &mut Vec<Use>,
) -> Result<(), NoMemory>
    ensures { OnOk result (uses.new.items ≡ uses.old.items ++ definition.outside private.now (definition.item_uses (item_trees body.now) (map named_container containers.now.entries))) }
{
    let mut inner = Vec::new(alloc);
    for item in body {
        push_kind(alloc, &item.kind, containers, &mut inner)?;
    }
    push_outside(private, inner.as_slice(), uses)
}

/// What each item of a list does, those private to it aside.
pub(crate) fn uses_of_each(
    alloc: Global,
    items: &[Item],
    containers: &IndexMap<String, Container>,
) -> Result<Vec<Sequence<Use>>, NoMemory>
    ensures { IfOk result (λ each. each.items ≡ definition.uses_of_each (item_trees items.now) (map named_container containers.now.entries)) }
{
    let mut each = Vec::with_capacity(alloc, items.len())?;
    for item in items {
        let mut uses = Vec::new(alloc);
        push_kind(alloc, &item.kind, containers, &mut uses)?;
        each.push(Sequence::from(uses))?;
    }
    Ok(each)
}
