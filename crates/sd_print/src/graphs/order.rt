//! The variables of a state from the outermost one.
ghost use Rattle.std.specs.Prelude.{◌≡◌, ◌++◌, map, IfOk, OnOk};
ghost use Rattle.sd_graph.specs.TreeFold.{item_trees, kind_tree};
ghost use Rattle.sd_print.specs.graphs.StateText as definition;

use sd_graph::{Item, ItemKind};
use sd_list::NoMemory;
use sd_range::Range;
use sd_wire::{LoopSpan, variables_in};
use std::alloc::Global;

/// Adds the variables of parameters.
fn push_variables(params: &[(u32, Range)], found: &mut Vec<u32>) -> Result<(), NoMemory>
    ensures { OnOk result (found.new.items ≡ found.old.items ++ map (λ param. param.0) params.now) }
{
    for (variable, _) in params {
        found.push(*variable)?;
    }
    Ok(())
}

/// Adds the parameters of an item, if it is a map, and of the scopes in it.
#[cycle(params)]
fn push_kind_params(kind: &ItemKind, found: &mut Vec<u32>) -> Result<(), NoMemory>
    ensures { OnOk result (found.new.items ≡ found.old.items ++ definition.kind_params (kind_tree kind.now)) }
{
    match kind {
        ItemKind::Map { params, body, .. } => {
            push_variables(params, found)?;
            push_item_params(body, found)
        }
        ItemKind::Consume { body, .. } => push_item_params(body, found),
        ItemKind::Task { .. }
        | ItemKind::Nested { .. }
        | ItemKind::Reduce { .. }
        | ItemKind::Copy { .. } => Ok(()),
    }
}

/// Adds the parameters of the scopes among items.
#[cycle(params)]
fn push_item_params(items: &[Item], found: &mut Vec<u32>) -> Result<(), NoMemory>
    ensures { OnOk result (found.new.items ≡ found.old.items ++ definition.item_params (item_trees items.now)) }
{
    for item in items {
        push_kind_params(&item.kind, found)?;
    }
    Ok(())
}

/// The variables of a state from the outermost: those of the loops in force, and then those of its
/// scopes. The graph's loops have these spans.
pub(crate) fn order_of(
    alloc: Global,
    spans: &[LoopSpan],
    number: u32,
    items: &[Item],
) -> Result<Vec<u32>, NoMemory>
    ensures { IfOk result (λ order. order.items ≡ definition.order_in spans.now number (item_trees items.now)) }
{
    let mut found = variables_in(alloc, spans, number)?;
    push_item_params(items, &mut found)?;
    Ok(found)
}
