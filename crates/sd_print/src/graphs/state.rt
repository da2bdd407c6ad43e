//! The texts of states and transitions.
ghost use Rattle.std.specs.Prelude.{◌≡◌, ◌++◌, map, option_map, string_bytes, OnOk};
ghost use Rattle.std.specs.List.{flat_map};
ghost use Rattle.sd_graph.specs.TreeFold.{exit_tree, guard_tree, item_trees, named_container};
ghost use Rattle.sd_print.specs.graphs.StateText as definition;
ghost use Rattle.sd_wire.specs.wiring.Listing.{nodes_of, edges_of};

use crate::graphs::affine::{push_affine, push_variable};
use crate::graphs::link::push_edges;
use crate::graphs::node::{push_labels, push_nodes};
use indexmap::IndexMap;
use sd_graph::{Container, Exit, Guard, Item, Wired};
use sd_list::NoMemory;
use sd_range::Affine;
use std::alloc::Global;

/// Adds the line of a condition.
fn push_condition(text: &mut String, when: &Option<Guard>) -> Result<(), NoMemory>
    ensures { OnOk result (string_bytes text.new ≡ string_bytes text.old ++ definition.condition_text (option_map guard_tree when.now)) }
{
    if let Some(guard) = when {
        write!(text, " if line {}", guard.line)?;
    }
    Ok(())
}

/// Adds assignments.
fn push_assignments(
    alloc: Global,
    text: &mut String,
    names: &[String],
    order: &[u32],
    assignments: &[(u32, Affine)],
) -> Result<(), NoMemory>
    ensures { OnOk result (string_bytes text.new ≡ string_bytes text.old ++ flat_map (definition.assignment_text (map string_bytes names.now) order.now) assignments.now) }
{
    for (variable, value) in assignments {
        text.push_str(" set ")?;
        push_variable(text, names, *variable)?;
        text.push_str("=")?;
        push_affine(alloc, text, names, order, value)?;
    }
    Ok(())
}

/// Adds the line of a transition.
fn push_exit(
    alloc: Global,
    text: &mut String,
    names: &[String],
    order: &[u32],
    exit: &Exit,
) -> Result<(), NoMemory>
    ensures { OnOk result (string_bytes text.new ≡ string_bytes text.old ++ definition.exit_text (map string_bytes names.now) order.now (exit_tree exit.now)) }
{
    text.push_str(if exit.back { "back " } else { "next " })?;
    write!(text, "{}", exit.to)?;
    push_condition(text, &exit.when)?;
    push_assignments(alloc, text, names, order, exit.set.as_slice())?;
    text.push_str("\n")?;
    Ok(())
}

/// Adds the lines of transitions.
fn push_exits(
    alloc: Global,
    text: &mut String,
    names: &[String],
    order: &[u32],
    exits: &[Exit],
) -> Result<(), NoMemory>
    ensures { OnOk result (string_bytes text.new ≡ string_bytes text.old ++ flat_map (definition.exit_text (map string_bytes names.now) order.now) (map exit_tree exits.now)) }
{
    for exit in exits {
        push_exit(alloc, text, names, order, exit)?;
    }
    Ok(())
}

/// Adds a state with its nodes, edges and transitions. Its items have these nodes and edges.
pub(crate) fn push_state(
    alloc: Global,
    text: &mut String,
    names: &[String],
    containers: &IndexMap<String, Container>,
    order: &[u32],
    number: u32,
    items: &[Item],
    exits: &[Exit],
    wired: &Wired,
) -> Result<(), NoMemory>
    requires nodes { wired.now.nodes.items ≡ nodes_of (map named_container containers.now.entries) (item_trees items.now) }
    requires edges { wired.now.edges.items ≡ edges_of (map named_container containers.now.entries) (item_trees items.now) }
    ensures { OnOk result (string_bytes text.new ≡ string_bytes text.old ++ definition.state_text (map string_bytes names.now) (map named_container containers.now.entries) order.now number (item_trees items.now) (map exit_tree exits.now)) }
{
    write!(text, "state {number}\n")?;
    let mut labels = Vec::new(alloc);
    push_labels(alloc, names, containers, order, items, &mut labels)?;
    push_nodes(text, containers, &wired.nodes, labels.as_slice())?;
    push_edges(alloc, text, names, containers, order, &wired.edges)?;
    push_exits(alloc, text, names, order, exits)
}
