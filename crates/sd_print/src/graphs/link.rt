//! The texts of memlets and edges.
ghost use Rattle.std.specs.Prelude.{◌≡◌, ◌++◌, map, string_bytes, OnOk};
ghost use Rattle.std.specs.List.{flat_map};
ghost use Rattle.sd_graph.specs.TreeFold.{named_container};
ghost use Rattle.sd_print.specs.graphs.LinkText as definition;

use crate::graphs::container::{names_stream, push_container_name};
use crate::graphs::subset::push_dims;
use indexmap::IndexMap;
use sd_graph::{Container, Edge, Link};
use sd_list::NoMemory;
use sd_num::Resolution;
use std::alloc::Global;

/// The word for a resolution.
pub fn resolution_word(resolution: Resolution) -> &'static str
    ensures { result.now ≡ definition.resolution_word resolution }
{
    match resolution {
        Resolution::Sum => "sum",
        Resolution::Product => "product",
        Resolution::Min => "min",
        Resolution::Max => "max",
        Resolution::And => "and",
        Resolution::Or => "or",
        Resolution::Xor => "xor",
        Resolution::Last => "last",
    }
}

/// Adds a volume and a resolution.
fn push_volume(
    text: &mut String,
    volume: i64,
    resolution: Option<Resolution>,
) -> Result<(), NoMemory>
    ensures { OnOk result (string_bytes text.new ≡ string_bytes text.old ++ definition.volume_text volume resolution) }
{
    match resolution {
        None if volume == 1 => {}
        None => write!(text, "({volume})")?,
        Some(resolution) => write!(text, "({volume}, {})", resolution_word(resolution))?,
    }
    Ok(())
}

/// Adds a subset in brackets.
fn push_subset(
    alloc: Global,
    text: &mut String,
    names: &[String],
    containers: &IndexMap<String, Container>,
    order: &[u32],
    link: &Link,
) -> Result<(), NoMemory>
    ensures { OnOk result (string_bytes text.new ≡ string_bytes text.old ++ definition.subset_text (map string_bytes names.now) (map named_container containers.now.entries) order.now link.now) }
{
    if names_stream(containers, link.memlet.container) {
        return Ok(());
    }
    text.push_str("[")?;
    push_dims(
        alloc,
        text,
        names,
        order,
        link.memlet.subset.dims.as_slice(),
    )?;
    text.push_str("]")?;
    Ok(())
}

/// Adds a memlet and its connector.
fn push_link(
    alloc: Global,
    text: &mut String,
    names: &[String],
    containers: &IndexMap<String, Container>,
    order: &[u32],
    link: &Link,
) -> Result<(), NoMemory>
    ensures { OnOk result (string_bytes text.new ≡ string_bytes text.old ++ definition.link_text (map string_bytes names.now) (map named_container containers.now.entries) order.now link.now) }
{
    push_container_name(text, containers, link.memlet.container)?;
    push_volume(text, link.memlet.volume, link.memlet.resolution)?;
    push_subset(alloc, text, names, containers, order, link)?;
    text.push_str(" ")?;
    text.push_str(link.connector.as_str())?;
    Ok(())
}

/// Adds the container of an edge at a scope.
fn push_bare(
    text: &mut String,
    containers: &IndexMap<String, Container>,
    container: Option<u32>,
) -> Result<(), NoMemory>
    ensures { OnOk result (string_bytes text.new ≡ string_bytes text.old ++ definition.bare_text (map named_container containers.now.entries) container) }
{
    if let Some(container) = container {
        text.push_str(" ")?;
        push_container_name(text, containers, container)?;
    }
    Ok(())
}

/// Adds the line of an edge.
fn push_edge(
    alloc: Global,
    text: &mut String,
    names: &[String],
    containers: &IndexMap<String, Container>,
    order: &[u32],
    edge: &Edge,
) -> Result<(), NoMemory>
    ensures { OnOk result (string_bytes text.new ≡ string_bytes text.old ++ definition.edge_text (map string_bytes names.now) (map named_container containers.now.entries) order.now edge.now) }
{
    write!(text, "edge {} {}", edge.from, edge.to)?;
    match &edge.link {
        None => push_bare(text, containers, edge.container)?,
        Some(link) => {
            text.push_str(" ")?;
            push_link(alloc, text, names, containers, order, link)?;
        }
    }
    text.push_str("\n")?;
    Ok(())
}

/// Adds the lines of edges.
pub(crate) fn push_edges(
    alloc: Global,
    text: &mut String,
    names: &[String],
    containers: &IndexMap<String, Container>,
    order: &[u32],
    edges: &[Edge],
) -> Result<(), NoMemory>
    ensures { OnOk result (string_bytes text.new ≡ string_bytes text.old ++ flat_map (definition.edge_text (map string_bytes names.now) (map named_container containers.now.entries) order.now) edges.now) }
{
    for edge in edges {
        push_edge(alloc, text, names, containers, order, edge)?;
    }
    Ok(())
}
