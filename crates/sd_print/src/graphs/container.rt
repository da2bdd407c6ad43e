//! The texts of containers.
ghost use Rattle.std.specs.Prelude.{◌≡◌, ◌++◌, map, [], string_bytes, OnOk};
ghost use Rattle.std.specs.List.{flat_map};
ghost use Rattle.sd_graph.specs.ContainerParts as parts;
ghost use Rattle.sd_graph.specs.TreeFold.{named_container};
ghost use Rattle.sd_print.specs.graphs.GraphText as definition;

use crate::graphs::affine::push_affine;
use indexmap::IndexMap;
use sd_graph::{Container, ContainerKind};
use sd_list::NoMemory;
use sd_num::Width;
use sd_range::Affine;
use std::alloc::Global;

/// Adds the name of a container; nothing where there is no such container.
pub fn push_container_name(
    text: &mut String,
    containers: &IndexMap<String, Container>,
    container: u32,
) -> Result<(), NoMemory>
    ensures { OnOk result (string_bytes text.new ≡ string_bytes text.old ++ parts.name_at (map named_container containers.now.entries) container) }
{
    if let Some((name, _)) = containers.get_index(container as usize) {
        text.push_str(name.as_str())?;
    }
    Ok(())
}

/// Whether a kind is that of a stream.
fn is_stream(kind: ContainerKind) -> bool
    ensures { result ≡ parts.is_stream kind }
{
    match kind {
        ContainerKind::Stream | ContainerKind::PrivateStream => true,
        ContainerKind::Argument | ContainerKind::Transient | ContainerKind::Private => false,
    }
}

/// Whether a container is a stream.
pub fn names_stream(containers: &IndexMap<String, Container>, container: u32) -> bool
    ensures { result ≡ parts.is_stream (parts.container_at (map named_container containers.now.entries) container).kind }
{
    match containers.get_index(container as usize) {
        Some((_, found)) => is_stream(found.kind),
        None => false,
    }
}

/// The words for a kind of container.
fn kind_words(kind: ContainerKind) -> &'static str
    ensures { result.now ≡ definition.kind_words kind }
{
    match kind {
        ContainerKind::Argument => "array",
        ContainerKind::Transient => "transient",
        ContainerKind::Private => "private",
        ContainerKind::Stream => "stream",
        ContainerKind::PrivateStream => "private stream",
    }
}

/// The number of bits behind the word for a kind, where there are not 64.
fn width_text(width: Width) -> &'static str
    ensures { result.now ≡ definition.width_text width }
{
    match width {
        Width::W32 => "32",
        Width::W64 => "",
    }
}

/// Adds extents.
fn push_extents(
    alloc: Global,
    text: &mut String,
    names: &[String],
    extents: &[Affine],
) -> Result<(), NoMemory>
    ensures { OnOk result (string_bytes text.new ≡ string_bytes text.old ++ definition.extents_text (map string_bytes names.now) extents.now) }
{
    let Some((extent, others)) = extents.split_first() else {
        return Ok(());
    };
    push_affine(alloc, text, names, &[], extent)?;
    for other in others {
        text.push_str(",")?;
        push_affine(alloc, text, names, &[], other)?;
    }
    Ok(())
}

/// Adds the extents of an array in brackets.
fn push_shape(
    alloc: Global,
    text: &mut String,
    names: &[String],
    container: &Container,
) -> Result<(), NoMemory>
    ensures { OnOk result (string_bytes text.new ≡ string_bytes text.old ++ definition.shape_text (map string_bytes names.now) container.now) }
{
    if is_stream(container.kind) {
        return Ok(());
    }
    text.push_str("[")?;
    push_extents(alloc, text, names, container.extents.as_slice())?;
    text.push_str("]")?;
    Ok(())
}

/// Adds the line of a container.
fn push_container(
    alloc: Global,
    text: &mut String,
    names: &[String],
    name: &str,
    container: &Container,
) -> Result<(), NoMemory>
    ensures { OnOk result (string_bytes text.new ≡ string_bytes text.old ++ definition.container_text (map string_bytes names.now) (name.now, container.now)) }
{
    text.push_str(kind_words(container.kind))?;
    text.push_str(width_text(container.width))?;
    text.push_str(" ")?;
    text.push_str(name)?;
    push_shape(alloc, text, names, container)?;
    text.push_str("\n")?;
    Ok(())
}

/// Adds the lines of containers.
fn push_containers(
    alloc: Global,
    text: &mut String,
    names: &[String],
    containers: &IndexMap<String, Container>,
) -> Result<(), NoMemory>
    ensures { OnOk result (string_bytes text.new ≡ string_bytes text.old ++ flat_map (definition.container_text (map string_bytes names.now)) (map named_container containers.now.entries)) }
{
    for (name, container) in containers.iter() {
        push_container(alloc, text, names, name.as_str(), container)?;
    }
    Ok(())
}

/// Adds a graph's name and its containers.
pub(crate) fn push_head(
    alloc: Global,
    text: &mut String,
    name: &str,
    names: &[String],
    containers: &IndexMap<String, Container>,
) -> Result<(), NoMemory>
    ensures { OnOk result (string_bytes text.new ≡ string_bytes text.old ++ definition.head_text name.now (map string_bytes names.now) (map named_container containers.now.entries)) }
{
    write!(text, "sdfg {name}\n")?;
    push_containers(alloc, text, names, containers)
}
