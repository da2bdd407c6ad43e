//! What the effects of a tasklet do.
ghost use Rattle.std.specs.Prelude.{◌≡◌, ℕ, ◌∷◌, [], pos, map, length, IfOk};
ghost use Rattle.sd_graph.specs.TreeFold.{graph_tree};
ghost use Rattle.sd_graph.specs.TreeParts.{containers_of};
ghost use Rattle.sd_graph.specs.ContainerParts.{container_at, is_stream as is_stream_kind};
ghost use Rattle.sd_graph.specs.TaskletMeaning.{Inputs as InputsNow, extents_of_connector};
ghost use Rattle.sd_graph.specs.Unfold.{pending_through};
ghost use Rattle.sd_tasklet.specs.tasklet.Given.{given};
ghost use Rattle.sd_tasklet.specs.tasklet.Kept.{told};
ghost use Rattle.sd_scope.specs.scope.Standing.{context_of};
ghost use Rattle.sd_leaves.specs.leaves.Done.{IsDone, performing};
ghost use Rattle.sd_leaves.specs.leaves.Given.{pending_told};

use crate::leaves::changes::write;
use sd_graph::{ContainerKind, FaultKind, Link, Sdfg};
use sd_list::NoMemory;
use sd_mem::Machine;
use sd_scope::{Base, Scope, link_cell, station};
use sd_tasklet::{Effect, Inputs};
use std::alloc::Global;

/// Performs the effects of code with these connectors, which was given these inputs, one after another.
pub(crate) fn perform_all(
    alloc: Global,
    effects: &[Effect],
    inputs: &Inputs,
    ins: &[Link],
    outs: &[Link],
    graph: &Sdfg,
    base: &Base,
    scope: &Scope,
    machine: &mut Machine,
) -> Result<Option<FaultKind>, NoMemory>
    ensures { IfOk result (λ fault. IsDone (performing (map (pending_told (context_of (graph_tree graph.now) base.now scope.now) (given inputs.now) ins.now outs.now) effects.now)) machine.old fault machine.new) }
{
    for effect in effects {
        match perform(
            alloc, *effect, inputs, ins, outs, graph, base, scope, machine,
        )? {
            None => {}
            Some(kind) => return Ok(Some(kind)),
        }
    }
    Ok(None)
}

/// Performs one effect: outputs are numbered behind the inputs, and through another number it goes nowhere, which is a fault.
fn perform(
    alloc: Global,
    effect: Effect,
    inputs: &Inputs,
    ins: &[Link],
    outs: &[Link],
    graph: &Sdfg,
    base: &Base,
    scope: &Scope,
    machine: &mut Machine,
) -> Result<Option<FaultKind>, NoMemory>
    ensures { IfOk result (λ fault. IsDone (performing (pending_told (context_of (graph_tree graph.now) base.now scope.now) (given inputs.now) ins.now outs.now effect ∷ [])) machine.old fault machine.new) }
{
    let connector = effect.connector as usize;
    if connector < ins.len() {
        return Ok(Some(FaultKind::Subscript));
    }
    let Some(link) = outs.get(connector - ins.len()) else {
        return Ok(Some(FaultKind::Subscript));
    };
    let dimensions = dimensions_of(inputs, connector);
    perform_effect(alloc, effect, dimensions, link, graph, base, scope, machine)
}

/// Performs an effect of a connector with so many dimensions through a link.
pub fn perform_effect(
    alloc: Global,
    effect: Effect,
    dimensions: usize,
    link: &Link,
    graph: &Sdfg,
    base: &Base,
    scope: &Scope,
    machine: &mut Machine,
) -> Result<Option<FaultKind>, NoMemory>
    ensures { IfOk result (λ fault. (inputs : InputsNow) → dimensions ≡ length (extents_of_connector inputs effect.connector)
        → IsDone (performing (pending_through (context_of (graph_tree graph.now) base.now scope.now) link.now (told inputs effect) ∷ [])) machine.old fault machine.new) }
{
    let index = widened(effect.at);
    let count = dimensions.min(index.len());
    perform_through(
        alloc,
        link,
        &index[..count],
        effect.value,
        graph,
        base,
        scope,
        machine,
    )
}

/// Performs an effect through a link: its value is pushed into a stream, or written to the element at its place.
fn perform_through(
    alloc: Global,
    link: &Link,
    at: &[i128],
    value: i64,
    graph: &Sdfg,
    base: &Base,
    scope: &Scope,
    machine: &mut Machine,
) -> Result<Option<FaultKind>, NoMemory>
    ensures { IfOk result (λ fault. (connector : ℕ) → IsDone (performing (pending_through (context_of (graph_tree graph.now) base.now scope.now) link.now (record { connector = connector; at = at.now; value = value }) ∷ [])) machine.old fault machine.new) }
{
    let container = link.memlet.container;
    if is_stream(graph, container) {
        machine.push(station(base, scope, container)?, value)?;
        return Ok(None);
    }
    let to = link_cell(alloc, graph, base, scope, link, at)?;
    Ok(write(value, to, link.memlet.resolution, machine))
}

/// Whether a container is a stream.
pub fn is_stream(graph: &Sdfg, container: u32) -> bool
    ensures { result ≡ is_stream_kind (container_at (containers_of (graph_tree graph.now)) container).kind }
{
    match graph.containers.get_index(container as usize) {
        Some((_, container)) => matches!(
            container.kind,
            ContainerKind::Stream | ContainerKind::PrivateStream
        ),
        None => false,
    }
}

/// The numbers of an index, wider.
pub fn widened(at: [u64; 4]) -> [i128; 4]
    ensures { result ≡ map pos at }
{
    let [first, second, third, fourth] = at;
    [
        i128::from(first),
        i128::from(second),
        i128::from(third),
        i128::from(fourth),
    ]
}

/// How many dimensions a connector has.
pub fn dimensions_of(inputs: &Inputs, connector: usize) -> usize
    ensures { result ≡ length (extents_of_connector (given inputs.now) connector) }
{
    match inputs.extents.as_slice().get(connector) {
        Some(extents) => extents.len(),
        None => 0,
    }
}
