//! The places of faults.
ghost use Rattle.std.specs.Prelude.{◌≡◌, ◌++◌, [], map, length, string_bytes, slice_index_or, IfOk, OnOk};
ghost use Rattle.sd_graph.specs.TreeFold.{graph_tree, named_container};
ghost use Rattle.sd_graph.specs.ContainerParts.{name_at};
ghost use Rattle.sd_graph.specs.Context.{frames_at, named_values, place_at, source_name};
ghost use Rattle.sd_scope.specs.scope.Standing.{all_shown, context_of, name_shown};

use crate::scope::base::Base;
use crate::scope::evaluation::variable_of;
use crate::scope::scope::{Scope, Shown, ShownName};
use indexmap::IndexMap;
use sd_graph::{Container, Frame, Place, Sdfg};
use sd_list::{NoMemory, Sequence, Text};
use sd_wire::loops_in_force;
use std::alloc::Global;

/// The place of a line where a scope stands.
pub fn place_of(
    alloc: Global,
    graph: &Sdfg,
    base: &Base,
    scope: &Scope,
    line: u32,
) -> Result<Place, NoMemory>
    ensures { IfOk result (λ place. place ≡ place_at (context_of (graph_tree graph.now) base.now scope.now) line) }
{
    let frames = frames_at(alloc, graph, base, scope, line)?;
    Ok(Place {
        frames: Sequence::from(frames),
    })
}

/// The frames of the graphs round a scope, and that of a line where it stands.
pub(crate) fn frames_at(
    alloc: Global,
    graph: &Sdfg,
    base: &Base,
    scope: &Scope,
    line: u32,
) -> Result<Vec<Frame>, NoMemory>
    ensures { IfOk result (λ frames. frames.items ≡ frames_at (context_of (graph_tree graph.now) base.now scope.now) line) }
{
    let mut frames = copied_frames(alloc, base.around.as_slice())?;
    let values = values_shown(alloc, graph, scope)?;
    frames.push(Frame {
        line,
        values: Sequence::from(values),
    })?;
    Ok(frames)
}

/// The same frames once more.
fn copied_frames(alloc: Global, frames: &[Frame]) -> Result<Vec<Frame>, NoMemory>
    ensures { IfOk result (λ copy. copy.items ≡ frames.now) }
{
    let mut copy = Vec::with_capacity(alloc, frames.len())?;
    for frame in frames {
        copy.push(frame.copy_of(alloc)?)?;
    }
    Ok(copy)
}

/// All that a place shows: the variables of loops, and then what scopes show.
fn values_shown(alloc: Global, graph: &Sdfg, scope: &Scope) -> Result<Vec<(Text, i128)>, NoMemory>
    ensures { IfOk result (λ values. values.items ≡ all_shown (graph_tree graph.now) scope.now) }
{
    let names = graph.variables.as_slice();
    let count = count_of(names)?;
    let loops = loops_in_force(alloc, graph.states.as_slice(), count, scope.state)?;
    let begun = scope.begun.as_slice();
    let mut values = loop_values(alloc, names, begun, loops.as_slice())?;
    let shown = scope.shown.as_slice();
    add_shown(alloc, &mut values, names, &graph.containers, shown)?;
    Ok(values)
}

/// How many variables there are.
fn count_of(names: &[String]) -> Result<u32, NoMemory>
    ensures { IfOk result (λ count. count ≡ length names.now) }
{
    u32::try_from(names.len()).map_err(|_| NoMemory)
}

/// Variables of loops with the name and value of each.
fn loop_values(
    alloc: Global,
    names: &[String],
    begun: &[i128],
    loops: &[u32],
) -> Result<Vec<(Text, i128)>, NoMemory>
    ensures { IfOk result (λ values. values.items ≡ named_values (map string_bytes names.now) begun.now loops.now) }
{
    let mut values = Vec::with_capacity(alloc, loops.len())?;
    for variable in loops {
        let name = variable_name(alloc, names, *variable)?;
        values.push((name, variable_of(begun, *variable)))?;
    }
    Ok(values)
}

/// Adds what scopes show.
fn add_shown(
    alloc: Global,
    values: &mut Vec<(Text, i128)>,
    names: &[String],
    containers: &IndexMap<String, Container>,
    shown: &[Shown],
) -> Result<(), NoMemory>
    ensures { OnOk result (values.new.items ≡ values.old.items ++ map (λ shown. (name_shown (map string_bytes names.now) (map named_container containers.now.entries) shown.name, shown.value)) shown.now) }
{
    for one in shown {
        let name = match one.name {
            ShownName::Parameter(variable) => variable_name(alloc, names, variable)?,
            ShownName::Element(element) => element_name(alloc, containers, element)?,
        };
        values.push((name, one.value))?;
    }
    Ok(())
}

/// The name of a variable; an empty one where there is no such variable.
fn variable_name(alloc: Global, names: &[String], variable: u32) -> Result<Text, NoMemory>
    ensures { IfOk result (λ name. name ≡ slice_index_or (map string_bytes names.now) variable []) }
{
    match names.get(variable as usize) {
        Some(name) => Ok(Text::from(name.as_str().to_string(alloc)?)),
        None => Ok(Text::from(String::new(alloc))),
    }
}

/// The name of an element in the source; an empty one where there is no such container.
fn element_name(
    alloc: Global,
    containers: &IndexMap<String, Container>,
    element: u32,
) -> Result<Text, NoMemory>
    ensures { IfOk result (λ name. name ≡ source_name (name_at (map named_container containers.now.entries) element)) }
{
    match containers.get_index(element as usize) {
        Some((name, _)) => name_in_source(alloc, name.as_str()),
        None => Ok(Text::from(String::new(alloc))),
    }
}

/// The part of a name up to the sign by which it was made new.
fn name_in_source(alloc: Global, name: &str) -> Result<Text, NoMemory>
    ensures { IfOk result (λ text. text ≡ source_name name.now) }
{
    let text = match name.split_once('$') {
        Some((source, _)) => source,
        None => name,
    };
    Ok(Text::from(text.to_string(alloc)?))
}
