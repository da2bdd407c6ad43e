//! The texts of nodes.
ghost use Rattle.std.specs.Prelude.{◌≡◌, ◌++◌, map, string_bytes, IfOk, OnOk};
ghost use Rattle.sd_graph.specs.TreeFold.{graph_tree, item_trees, kind_tree, named_container};
ghost use Rattle.sd_print.specs.graphs.NodeText as definition;

use crate::graphs::affine::push_variable;
use crate::graphs::container::push_container_name;
use crate::graphs::link::resolution_word;
use crate::graphs::subset::push_range;
use indexmap::IndexMap;
use sd_graph::{Container, Item, ItemKind, Node, NodeKind, Sdfg};
use sd_list::{NoMemory, Text};
use sd_num::Resolution;
use sd_range::Range;
use std::alloc::Global;

/// Adds the name of a graph.
fn push_graph_name(text: &mut String, graph: &Sdfg) -> Result<(), NoMemory>
    ensures { OnOk result (string_bytes text.new ≡ string_bytes text.old ++ definition.graph_name (graph_tree graph.now)) }
{
    text.push_str(graph.name.as_str())?;
    Ok(())
}

/// Adds a parameter with its range.
fn push_param(
    alloc: Global,
    text: &mut String,
    names: &[String],
    order: &[u32],
    param: &(u32, Range),
) -> Result<(), NoMemory>
    ensures { OnOk result (string_bytes text.new ≡ string_bytes text.old ++ definition.param_text (map string_bytes names.now) order.now param.now) }
{
    let (variable, range) = param;
    push_variable(text, names, *variable)?;
    text.push_str("=")?;
    push_range(alloc, text, names, order, range)
}

/// Adds parameters with their ranges.
fn push_params(
    alloc: Global,
    text: &mut String,
    names: &[String],
    order: &[u32],
    params: &[(u32, Range)],
) -> Result<(), NoMemory>
    ensures { OnOk result (string_bytes text.new ≡ string_bytes text.old ++ definition.params_text (map string_bytes names.now) order.now params.now) }
{
    let Some((param, others)) = params.split_first() else {
        return Ok(());
    };
    push_param(alloc, text, names, order, param)?;
    for other in others {
        text.push_str(", ")?;
        push_param(alloc, text, names, order, other)?;
    }
    Ok(())
}

/// The word behind the parameters of a sequential map.
fn sequential_text(sequential: bool) -> &'static str
    ensures { result.now ≡ definition.sequential_text sequential }
{
    if sequential { " sequential" } else { "" }
}

/// Adds what the entry of a map shows.
fn push_map(
    alloc: Global,
    text: &mut String,
    names: &[String],
    order: &[u32],
    sequential: bool,
    params: &[(u32, Range)],
) -> Result<(), NoMemory>
    ensures { OnOk result (string_bytes text.new ≡ string_bytes text.old ++ definition.map_text (map string_bytes names.now) order.now sequential params.now) }
{
    text.push_str("map ")?;
    push_params(alloc, text, names, order, params)?;
    text.push_str(sequential_text(sequential))?;
    Ok(())
}

/// Adds what the node of a reduction shows.
fn push_reduction(
    text: &mut String,
    resolution: Resolution,
    axis: Option<u32>,
    identity: Option<i64>,
) -> Result<(), NoMemory>
    ensures { OnOk result (string_bytes text.new ≡ string_bytes text.old ++ definition.reduction_text resolution axis identity) }
{
    write!(text, "reduce {}", resolution_word(resolution))?;
    if let Some(axis) = axis {
        write!(text, " axis {axis}")?;
    }
    if let Some(identity) = identity {
        write!(text, " identity {identity}")?;
    }
    Ok(())
}

/// What the node of an item shows.
fn label(
    alloc: Global,
    names: &[String],
    containers: &IndexMap<String, Container>,
    order: &[u32],
    line: u32,
    kind: &ItemKind,
) -> Result<Text, NoMemory>
    ensures { IfOk result (λ text. text ≡ definition.label (map string_bytes names.now) (map named_container containers.now.entries) order.now line (kind_tree kind.now)) }
{
    let mut text = String::new(alloc);
    match kind {
        ItemKind::Task { .. } => write!(text, "tasklet line {line}")?,
        ItemKind::Map {
            params,
            sequential,
            ..
        } => push_map(alloc, &mut text, names, order, *sequential, params)?,
        ItemKind::Consume {
            stream,
            element,
            ..
        } => {
            text.push_str("consume ")?;
            push_container_name(&mut text, containers, *stream)?;
            text.push_str(" as ")?;
            push_container_name(&mut text, containers, *element)?;
        }
        ItemKind::Nested { graph, .. } => {
            text.push_str("nested ")?;
            push_graph_name(&mut text, graph)?;
        }
        ItemKind::Reduce {
            resolution,
            axis,
            identity,
            ..
        } => push_reduction(&mut text, *resolution, *axis, *identity)?,
        ItemKind::Copy { .. } => text.push_str("copy")?,
    }
    Ok(Text::from(text))
}

/// Adds what the nodes of the body of a scope show.
#[cycle(labels)]
fn push_body_labels(
    alloc: Global,
    names: &[String],
    containers: &IndexMap<String, Container>,
    order: &[u32],
    kind: &ItemKind,
    labels: &mut Vec<Text>,
) -> Result<(), NoMemory>
    ensures { OnOk result (labels.new.items ≡ labels.old.items ++ definition.body_labels (map string_bytes names.now) (map named_container containers.now.entries) order.now (kind_tree kind.now)) }
{
    match kind {
        ItemKind::Map { body, .. } | ItemKind::Consume { body, .. } => {
            push_labels(alloc, names, containers, order, body, labels)
        }
        ItemKind::Task { .. }
        | ItemKind::Nested { .. }
        | ItemKind::Reduce { .. }
        | ItemKind::Copy { .. } => Ok(()),
    }
}

/// Adds what the nodes of items show, depth first.
#[cycle(labels)]
pub(crate) fn push_labels(
    alloc: Global,
    names: &[String],
    containers: &IndexMap<String, Container>,
    order: &[u32],
    items: &[Item],
    labels: &mut Vec<Text>,
) -> Result<(), NoMemory>
    ensures { OnOk result (labels.new.items ≡ labels.old.items ++ definition.labels (map string_bytes names.now) (map named_container containers.now.entries) order.now (item_trees items.now)) }
{
    for item in items {
        labels.push(label(alloc, names, containers, order, item.line, &item.kind)?)?;
        push_body_labels(alloc, names, containers, order, &item.kind, labels)?;
    }
    Ok(())
}

/// Whether a node is an item's: neither an access nor an exit.
fn is_item(kind: NodeKind) -> bool
    ensures { result ≡ definition.is_item kind }
{
    match kind {
        NodeKind::Access(_) | NodeKind::Exit(_) => false,
        NodeKind::Tasklet
        | NodeKind::MapEntry
        | NodeKind::ConsumeEntry
        | NodeKind::Nested
        | NodeKind::Reduce
        | NodeKind::Copy => true,
    }
}

/// Adds the first of these labels.
fn push_first(text: &mut String, labels: &[Text]) -> Result<(), NoMemory>
    ensures { OnOk result (string_bytes text.new ≡ string_bytes text.old ++ definition.first_label labels.now) }
{
    if let Some(label) = labels.first() {
        text.push_str(label.as_str())?;
    }
    Ok(())
}

/// Adds what a node shows.
fn push_shown(
    text: &mut String,
    containers: &IndexMap<String, Container>,
    kind: NodeKind,
    labels: &[Text],
) -> Result<(), NoMemory>
    ensures { OnOk result (string_bytes text.new ≡ string_bytes text.old ++ definition.shown_text (map named_container containers.now.entries) kind labels.now) }
{
    match kind {
        NodeKind::Access(container) => {
            text.push_str("access ")?;
            push_container_name(text, containers, container)
        }
        NodeKind::Exit(entry) => {
            write!(text, "exit {entry}")?;
            Ok(())
        }
        NodeKind::Tasklet
        | NodeKind::MapEntry
        | NodeKind::ConsumeEntry
        | NodeKind::Nested
        | NodeKind::Reduce
        | NodeKind::Copy => push_first(text, labels),
    }
}

/// Adds the line of a node.
fn push_node(
    text: &mut String,
    containers: &IndexMap<String, Container>,
    number: u32,
    node: &Node,
    labels: &[Text],
) -> Result<(), NoMemory>
    ensures { OnOk result (string_bytes text.new ≡ string_bytes text.old ++ definition.node_text (map named_container containers.now.entries) number node.now labels.now) }
{
    write!(text, "node {number}")?;
    if let Some(entry) = node.scope {
        write!(text, " in {entry}")?;
    }
    text.push_str(" ")?;
    push_shown(text, containers, node.kind, labels)?;
    text.push_str("\n")?;
    Ok(())
}

/// Labels without the first one.
fn rest_of(labels: &[Text]) -> &[Text]
    ensures { result.now ≡ definition.rest_of labels.now }
{
    match labels.split_first() {
        None => labels,
        Some((_, others)) => others,
    }
}

/// Adds the lines of nodes.
pub(crate) fn push_nodes(
    text: &mut String,
    containers: &IndexMap<String, Container>,
    nodes: &[Node],
    labels: &[Text],
) -> Result<(), NoMemory>
    ensures { OnOk result (string_bytes text.new ≡ string_bytes text.old ++ definition.nodes_text (map named_container containers.now.entries) 0 nodes.now labels.now) }
{
    let mut number = 0_u32;
    let mut rest = labels;
    for node in nodes {
        push_node(text, containers, number, node, rest)?;
        number = number.checked_add(1).ok_or(NoMemory)?;
        if is_item(node.kind) {
            rest = rest_of(rest);
        }
    }
    Ok(())
}
