//! The items of a list, drawn one after another.
ghost use Rattle.std.specs.Prelude.{◌≡◌, length, map, Some, OnOk};
ghost use Rattle.sd_graph.specs.TreeFold.{item_trees, kind_tree, named_container};
ghost use Rattle.sd_graph.specs.Wiring.{kind_uses};
ghost use Rattle.sd_wire.specs.wiring.Drawing as definition;

use crate::wiring::access::Access;
use crate::wiring::drawing::Drawing;
use crate::wiring::mentioned::{containers_by, own_among};
use crate::wiring::mode::Use;
use crate::wiring::passing::all_passing;
use crate::wiring::uses::uses_of;
use indexmap::IndexMap;
use sd_graph::{Container, Item, ItemKind, NodeKind};
use sd_list::NoMemory;
use std::alloc::Global;

/// Draws what stands before an item's nodes: the access nodes of what it reads, and the edges into it.
fn draw_reads(
    alloc: Global,
    kind: &ItemKind,
    containers: &IndexMap<String, Container>,
    scope: Option<u32>,
    own: &[u32],
    line: u32,
    uses: &[Use],
    drawing: &mut Drawing,
) -> Result<(), NoMemory>
    requires { uses.now ≡ kind_uses (kind_tree kind.now) (map named_container containers.now.entries) }
    ensures { OnOk result (drawing.new ≡ definition.with_reads (kind_tree kind.now) (map named_container containers.now.entries) scope own.now line drawing.old) }
{
    let found = containers_by(alloc, Access::Reads, uses)?;
    let found = own_among(alloc, own, found.as_slice())?;
    let found = drawing.without_node(alloc, found.as_slice())?;
    drawing.push_accesses(scope, line, found.as_slice())?;
    let first = drawing.next()?;
    let all = all_passing(alloc, Access::Reads, kind, containers, uses)?;
    drawing.push_edges_in(scope, own, first, all)
}

/// Draws what stands behind an item's nodes: the access nodes of what it writes, and the edges out of its last
/// node.
fn draw_writes(
    alloc: Global,
    kind: &ItemKind,
    containers: &IndexMap<String, Container>,
    scope: Option<u32>,
    own: &[u32],
    line: u32,
    last: u32,
    uses: &[Use],
    drawing: &mut Drawing,
) -> Result<(), NoMemory>
    requires { uses.now ≡ kind_uses (kind_tree kind.now) (map named_container containers.now.entries) }
    ensures { OnOk result (drawing.new ≡ definition.with_writes (kind_tree kind.now) (map named_container containers.now.entries) scope own.now line last drawing.old) }
{
    let found = containers_by(alloc, Access::Writes, uses)?;
    let found = own_among(alloc, own, found.as_slice())?;
    drawing.push_accesses(scope, line, found.as_slice())?;
    let all = all_passing(alloc, Access::Writes, kind, containers, uses)?;
    drawing.push_edges_out(scope, own, last, all)
}

/// Draws all that stands behind an item's nodes.
fn draw_rest(
    alloc: Global,
    kind: &ItemKind,
    containers: &IndexMap<String, Container>,
    scope: Option<u32>,
    own: &[u32],
    line: u32,
    first: u32,
    uses: Vec<Use>,
    drawing: &mut Drawing,
) -> Result<(), NoMemory>
    requires { uses.items ≡ kind_uses (kind_tree kind.now) (map named_container containers.now.entries) }
    ensures { OnOk result (drawing.new ≡ definition.with_rest (kind_tree kind.now) (map named_container containers.now.entries) scope own.now line first drawing.old) }
{
    let last = drawing.next()?.saturating_sub(1);
    draw_writes(
        alloc,
        kind,
        containers,
        scope,
        own,
        line,
        last,
        uses.as_slice(),
        drawing,
    )?;
    drawing.push_order(first, last, uses)
}

/// Draws an item's own nodes.
#[cycle(items)]
fn draw_nodes(
    alloc: Global,
    kind: &ItemKind,
    containers: &IndexMap<String, Container>,
    scope: Option<u32>,
    line: u32,
    drawing: &mut Drawing,
) -> Result<(), NoMemory>
    ensures { OnOk result (drawing.new ≡ definition.with_nodes_of (kind_tree kind.now) (map named_container containers.now.entries) scope line drawing.old) }
{
    match kind {
        ItemKind::Task { .. } => drawing.push_node(scope, NodeKind::Tasklet, line),
        ItemKind::Map { private, body, .. } => draw_scope(
            alloc,
            NodeKind::MapEntry,
            private,
            body,
            containers,
            scope,
            line,
            drawing,
        ),
        ItemKind::Consume { private, body, .. } => draw_scope(
            alloc,
            NodeKind::ConsumeEntry,
            private,
            body,
            containers,
            scope,
            line,
            drawing,
        ),
        ItemKind::Nested { .. } => drawing.push_node(scope, NodeKind::Nested, line),
        ItemKind::Reduce { .. } => drawing.push_node(scope, NodeKind::Reduce, line),
        ItemKind::Copy { .. } => drawing.push_node(scope, NodeKind::Copy, line),
    }
}

/// Draws a scope: its entry, its body and its exit.
#[cycle(items)]
fn draw_scope(
    alloc: Global,
    kind: NodeKind,
    private: &[u32],
    body: &[Item],
    containers: &IndexMap<String, Container>,
    scope: Option<u32>,
    line: u32,
    drawing: &mut Drawing,
) -> Result<(), NoMemory>
    ensures { OnOk result (drawing.new ≡ definition.left scope (length drawing.old.nodes) line drawing.old.row
        (definition.with_items (item_trees body.now) (map named_container containers.now.entries) (Some (length drawing.old.nodes)) private.now (definition.entered scope kind line drawing.old))) }
{
    let entry = drawing.next()?;
    let outer = drawing.enter(alloc, scope, kind, line)?;
    draw_items(alloc, body, containers, Some(entry), private, drawing)?;
    drawing.leave(alloc, scope, entry, line, outer)
}

/// Draws an item with its access nodes and edges.
#[cycle(items)]
fn draw_item(
    alloc: Global,
    kind: &ItemKind,
    containers: &IndexMap<String, Container>,
    scope: Option<u32>,
    own: &[u32],
    line: u32,
    drawing: &mut Drawing,
) -> Result<(), NoMemory>
    ensures { OnOk result (drawing.new ≡ definition.with_item (kind_tree kind.now) (map named_container containers.now.entries) scope own.now line drawing.old) }
{
    let uses = uses_of(alloc, kind, containers)?;
    draw_reads(
        alloc,
        kind,
        containers,
        scope,
        own,
        line,
        uses.as_slice(),
        drawing,
    )?;
    let first = drawing.next()?;
    draw_nodes(alloc, kind, containers, scope, line, drawing)?;
    draw_rest(
        alloc, kind, containers, scope, own, line, first, uses, drawing,
    )
}

/// Draws the items of a list, one after another.
#[cycle(items)]
pub(crate) fn draw_items(
    alloc: Global,
    items: &[Item],
    containers: &IndexMap<String, Container>,
    scope: Option<u32>,
    own: &[u32],
    drawing: &mut Drawing,
) -> Result<(), NoMemory>
    ensures { OnOk result (drawing.new ≡ definition.with_items (item_trees items.now) (map named_container containers.now.entries) scope own.now drawing.old) }
{
    for item in items {
        draw_item(
            alloc, &item.kind, containers, scope, own, item.line, drawing,
        )?;
    }
    Ok(())
}
