//! Copies of lists that stand in a graph.
ghost use Rattle.std.specs.Prelude.{◌≡◌, ◌++◌, map, string_bytes, IfOk, OnOk};
ghost use Rattle.sd_graph.specs.TreeFold.{exit_tree, item_tree, item_trees, kind_tree, named_container};
ghost use Rattle.sd_graph.specs.PlainTree.{and_item, no_item};

use indexmap::IndexMap;
use sd_graph::{Container, Exit, Item, ItemKind, Link};
use sd_list::NoMemory;
use sd_range::Range;
use std::alloc::Global;

/// The same links once more.
pub(crate) fn links(alloc: Global, links: &[Link]) -> Result<Vec<Link>, NoMemory>
    ensures { IfOk result (λ copy. copy.items ≡ links.now) }
{
    let mut copy = Vec::with_capacity(alloc, links.len())?;
    for link in links {
        copy.push(link.copy_of(alloc)?)?;
    }
    Ok(copy)
}

/// The same parameters with their ranges once more.
pub(crate) fn params(alloc: Global, params: &[(u32, Range)]) -> Result<Vec<(u32, Range)>, NoMemory>
    ensures { IfOk result (λ copy. copy.items ≡ params.now) }
{
    let mut copy = Vec::with_capacity(alloc, params.len())?;
    for (variable, range) in params {
        copy.push((*variable, range.copy_of(alloc)?))?;
    }
    Ok(copy)
}

/// The same transitions once more.
pub(crate) fn exits(alloc: Global, exits: &[Exit]) -> Result<Vec<Exit>, NoMemory>
    ensures { IfOk result (λ copy. map exit_tree copy.items ≡ map exit_tree exits.now) }
{
    let mut copy = Vec::with_capacity(alloc, exits.len())?;
    for exit in exits {
        copy.push(exit.copy_of(alloc)?)?;
    }
    Ok(copy)
}

/// Adds the same names.
pub(crate) fn push_names(
    alloc: Global,
    names: &[String],
    copy: &mut Vec<String>,
) -> Result<(), NoMemory>
    ensures { OnOk result (map string_bytes copy.new.items ≡ map string_bytes copy.old.items ++ map string_bytes names.now) }
{
    for name in names {
        copy.push(name.as_str().to_string(alloc)?)?;
    }
    Ok(())
}

/// The same names once more.
pub(crate) fn names(alloc: Global, names: &[String]) -> Result<Vec<String>, NoMemory>
    ensures { IfOk result (λ copy. map string_bytes copy.items ≡ map string_bytes names.now) }
{
    let mut copy = Vec::new(alloc);
    push_names(alloc, names, &mut copy)?;
    Ok(copy)
}

/// The same containers, each with its name, once more.
pub(crate) fn containers(
    alloc: Global,
    containers: &IndexMap<String, Container>,
) -> Result<IndexMap<String, Container>, NoMemory>
    ensures { IfOk result (λ copy. map named_container copy.entries ≡ map named_container containers.now.entries) }
{
    let mut copy = IndexMap::with_capacity(alloc, containers.len())?;
    for (name, container) in containers.iter() {
        copy.insert(name.as_str().to_string(alloc)?, container.copy_of(alloc)?)?;
    }
    Ok(copy)
}

/// The names of containers.
pub(crate) fn container_names(
    alloc: Global,
    containers: &IndexMap<String, Container>,
) -> Result<Vec<String>, NoMemory>
    ensures { IfOk result (λ names. map string_bytes names.items ≡ map (λ entry. entry.0) (map named_container containers.now.entries)) }
{
    let mut names = Vec::with_capacity(alloc, containers.len())?;
    for (name, _) in containers.iter() {
        names.push(name.as_str().to_string(alloc)?)?;
    }
    Ok(names)
}

/// Adds the same items.
pub(crate) fn push_items(
    alloc: Global,
    items: &[Item],
    copy: &mut Vec<Item>,
) -> Result<(), NoMemory>
    ensures { OnOk result (map item_tree copy.new.items ≡ map item_tree copy.old.items ++ map item_tree items.now) }
{
    for item in items {
        copy.push(item.copy_of(alloc)?)?;
    }
    Ok(())
}

/// The same items once more.
pub(crate) fn items(alloc: Global, items: &[Item]) -> Result<Vec<Item>, NoMemory>
    ensures { IfOk result (λ copy. map item_tree copy.items ≡ map item_tree items.now) }
{
    let mut copy = Vec::new(alloc);
    push_items(alloc, items, &mut copy)?;
    Ok(copy)
}

/// One item alone.
pub(crate) fn sole(alloc: Global, line: u32, kind: ItemKind) -> Result<Vec<Item>, NoMemory>
    ensures { IfOk result (λ items. item_trees items.items ≡ and_item line (kind_tree kind) no_item) }
{
    let mut items = Vec::new(alloc);
    items.push(Item { line, kind })?;
    Ok(items)
}
