//! Writes graphs, of which only a state is text at a time.
ghost use Rattle.std.specs.Prelude.{◌≡◌, ◌≤◌, ◌+◌, ◌++◌, ◌∷◌, [], map, string_bytes, IfOk, OnOk, OnErr, IsErrOf};
ghost use Rattle.sd_io.specs.Count.{HasRisen};
ghost use Rattle.sd_io.specs.Sink.{Appends, AppendsPrefix};
ghost use Rattle.sd_graph.specs.TreeFold.{graph_tree, item_trees, kind_tree, named_container, state_tree, state_trees};
ghost use Rattle.sd_wire.specs.wiring.Listing.{nodes_of};
ghost use Rattle.sd_print.specs.graphs.GraphText as listing;
ghost use Rattle.sd_print.specs.graphs.StateText as parts;

use crate::write::output;
use indexmap::IndexMap;
use sd_graph::{Bound, Container, Item, ItemKind, Sdfg, State};
use sd_io::{Sink, SinkError};
use sd_print::{head_text, node_at, path_line, spans_of, state_text, with_step};
use sd_wire::LoopSpan;
use std::alloc::Global;

/// Writes a graph's name and its containers.
fn write_head<K: Sink>(
    alloc: Global,
    out: &mut K,
    name: &str,
    names: &[String],
    containers: &IndexMap<String, Container>,
) -> Result<(), SinkError>
    ensures ok { OnOk result (Appends (K.taken out.old) (K.taken out.new) (listing.head_text name.now (map string_bytes names.now) (map named_container containers.now.entries))) }
    ensures err { OnErr result (AppendsPrefix (K.taken out.old) (K.taken out.new) (listing.head_text name.now (map string_bytes names.now) (map named_container containers.now.entries))) }
    ensures failed { IsErrOf result SinkError.Failed → HasRisen (K.faults out.old) (K.faults out.new) }
    ensures faults_never_fall { K.faults out.old ≤ K.faults out.new }
{
    match head_text(alloc, name, names, containers) {
        Ok(text) => output::write_text(out, text.as_bytes()),
        Err(_) => Err(SinkError::Memory),
    }
}

/// Writes the line before the graph at a path.
fn write_path<K: Sink>(alloc: Global, out: &mut K, path: &[u32]) -> Result<(), SinkError>
    ensures ok { OnOk result (Appends (K.taken out.old) (K.taken out.new) (listing.path_line path.now)) }
    ensures err { OnErr result (AppendsPrefix (K.taken out.old) (K.taken out.new) (listing.path_line path.now)) }
    ensures failed { IsErrOf result SinkError.Failed → HasRisen (K.faults out.old) (K.faults out.new) }
    ensures faults_never_fall { K.faults out.old ≤ K.faults out.new }
{
    match path_line(alloc, path) {
        Ok(line) => output::write_text(out, line.as_bytes()),
        Err(_) => Err(SinkError::Memory),
    }
}

/// Writes a state, the graphs nested in it aside, and gives the numbers of the nodes that hold these. Nothing is kept of its text.
fn write_own<K: Sink>(
    alloc: Global,
    out: &mut K,
    names: &[String],
    containers: &IndexMap<String, Container>,
    spans: &[LoopSpan],
    number: u32,
    state: &State,
) -> Result<Vec<u32>, SinkError>
    ensures ok { OnOk result (Appends (K.taken out.old) (K.taken out.new) (parts.state_text (map string_bytes names.now) (map named_container containers.now.entries) (parts.order_in spans.now number (state_tree state.now).0) number (state_tree state.now).0 (state_tree state.now).1)) }
    ensures nested { IfOk result (λ nested. nested.items ≡ listing.nested_nodes 0 (nodes_of (map named_container containers.now.entries) (state_tree state.now).0)) }
    ensures err { OnErr result (AppendsPrefix (K.taken out.old) (K.taken out.new) (parts.state_text (map string_bytes names.now) (map named_container containers.now.entries) (parts.order_in spans.now number (state_tree state.now).0) number (state_tree state.now).0 (state_tree state.now).1)) }
    ensures failed { IsErrOf result SinkError.Failed → HasRisen (K.faults out.old) (K.faults out.new) }
    ensures faults_never_fall { K.faults out.old ≤ K.faults out.new }
{
    let Ok(made) = state_text(alloc, names, containers, spans, number, state) else {
        return Err(SinkError::Memory);
    };
    output::write_text(out, made.text.as_bytes())?;
    Ok(made.nested)
}

/// Writes a graph at a path.
#[cycle(graphs)]
fn write_at<K: Sink>(
    alloc: Global,
    out: &mut K,
    graph: &Sdfg,
    path: &[u32],
) -> Result<(), SinkError>
    ensures ok { OnOk result (Appends (K.taken out.old) (K.taken out.new) (listing.graph_at (graph_tree graph.now) path.now)) }
    ensures err { OnErr result (AppendsPrefix (K.taken out.old) (K.taken out.new) (listing.graph_at (graph_tree graph.now) path.now)) }
    ensures failed { IsErrOf result SinkError.Failed → HasRisen (K.faults out.old) (K.faults out.new) }
    ensures faults_never_fall { K.faults out.old ≤ K.faults out.new }
{
    let name = graph.name.as_str();
    let names = graph.variables.as_slice();
    let states = graph.states.as_slice();
    write_head(alloc, out, name, names, &graph.containers)?;
    write_states(alloc, out, states, names, &graph.containers, path)
}

/// Writes the states of a graph at a path.
#[cycle(graphs)]
fn write_states<K: Sink>(
    alloc: Global,
    out: &mut K,
    states: &[State],
    names: &[String],
    containers: &IndexMap<String, Container>,
    path: &[u32],
) -> Result<(), SinkError>
    ensures ok { OnOk result (Appends (K.taken out.old) (K.taken out.new) (listing.states_at (state_trees states.now) (map string_bytes names.now) (map named_container containers.now.entries) (state_trees states.now) 0 path.now)) }
    ensures err { OnErr result (AppendsPrefix (K.taken out.old) (K.taken out.new) (listing.states_at (state_trees states.now) (map string_bytes names.now) (map named_container containers.now.entries) (state_trees states.now) 0 path.now)) }
    ensures failed { IsErrOf result SinkError.Failed → HasRisen (K.faults out.old) (K.faults out.new) }
    ensures faults_never_fall { K.faults out.old ≤ K.faults out.new }
{
    let Ok(found) = spans_of(alloc, names, states) else {
        return Err(SinkError::Memory);
    };
    let spans = found.as_slice();
    let mut number = 0_u32;
    for state in states {
        write_state(alloc, out, names, containers, spans, number, state, path)?;
        number = number.checked_add(1).ok_or(SinkError::Memory)?;
    }
    Ok(())
}

/// Writes a state with the graphs nested in it.
#[cycle(graphs)]
fn write_state<K: Sink>(
    alloc: Global,
    out: &mut K,
    names: &[String],
    containers: &IndexMap<String, Container>,
    spans: &[LoopSpan],
    number: u32,
    state: &State,
    path: &[u32],
) -> Result<(), SinkError>
    ensures ok { OnOk result (Appends (K.taken out.old) (K.taken out.new) (listing.state_at (map string_bytes names.now) (map named_container containers.now.entries) (parts.order_in spans.now number (state_tree state.now).0) number (state_tree state.now).0 (state_tree state.now).1 path.now)) }
    ensures err { OnErr result (AppendsPrefix (K.taken out.old) (K.taken out.new) (listing.state_at (map string_bytes names.now) (map named_container containers.now.entries) (parts.order_in spans.now number (state_tree state.now).0) number (state_tree state.now).0 (state_tree state.now).1 path.now)) }
    ensures failed { IsErrOf result SinkError.Failed → HasRisen (K.faults out.old) (K.faults out.new) }
    ensures faults_never_fall { K.faults out.old ≤ K.faults out.new }
{
    let nested = write_own(alloc, out, names, containers, spans, number, state)?;
    let Ok(longer) = with_step(alloc, path, number) else {
        return Err(SinkError::Memory);
    };
    let items = state.items.as_slice();
    let held = nested.as_slice();
    let here = longer.as_slice();
    write_nested(alloc, out, items, held, 0, here)?;
    Ok(())
}

/// Writes the graphs that items hold, and gives the place behind them; the nodes that hold graphs are these, from this place on.
#[cycle(graphs)]
fn write_nested<K: Sink>(
    alloc: Global,
    out: &mut K,
    items: &[Item],
    nodes: &[u32],
    first: usize,
    path: &[u32],
) -> Result<usize, SinkError>
    ensures ok { OnOk result (Appends (K.taken out.old) (K.taken out.new) (listing.nested_at (item_trees items.now) nodes.now first path.now)) }
    ensures place { IfOk result (λ place. place ≡ first + listing.count_in_items (item_trees items.now)) }
    ensures err { OnErr result (AppendsPrefix (K.taken out.old) (K.taken out.new) (listing.nested_at (item_trees items.now) nodes.now first path.now)) }
    ensures failed { IsErrOf result SinkError.Failed → HasRisen (K.faults out.old) (K.faults out.new) }
    ensures faults_never_fall { K.faults out.old ≤ K.faults out.new }
{
    let mut place = first;
    for item in items {
        place = write_kind(alloc, out, &item.kind, nodes, place, path)?;
    }
    Ok(place)
}

/// Writes the graphs that an item holds, and gives the place behind them.
#[cycle(graphs)]
fn write_kind<K: Sink>(
    alloc: Global,
    out: &mut K,
    kind: &ItemKind,
    nodes: &[u32],
    place: usize,
    path: &[u32],
) -> Result<usize, SinkError>
    ensures ok { OnOk result (Appends (K.taken out.old) (K.taken out.new) (listing.kind_at (kind_tree kind.now) nodes.now place path.now)) }
    ensures place { IfOk result (λ next. next ≡ place + listing.count_in_kind (kind_tree kind.now)) }
    ensures err { OnErr result (AppendsPrefix (K.taken out.old) (K.taken out.new) (listing.kind_at (kind_tree kind.now) nodes.now place path.now)) }
    ensures failed { IsErrOf result SinkError.Failed → HasRisen (K.faults out.old) (K.faults out.new) }
    ensures faults_never_fall { K.faults out.old ≤ K.faults out.new }
{
    match kind {
        ItemKind::Map { body, .. } => write_nested(alloc, out, body, nodes, place, path),
        ItemKind::Consume { body, .. } => write_nested(alloc, out, body, nodes, place, path),
        ItemKind::Nested { graph, .. } => {
            write_inner(alloc, out, graph, node_at(nodes, place), path)?;
            place.checked_add(1).ok_or(SinkError::Memory)
        }
        ItemKind::Task { .. } | ItemKind::Reduce { .. } | ItemKind::Copy { .. } => Ok(place),
    }
}

/// Writes the graph that a node of the state at a path holds, with the line before it.
#[cycle(graphs)]
fn write_inner<K: Sink>(
    alloc: Global,
    out: &mut K,
    graph: &Sdfg,
    node: u32,
    path: &[u32],
) -> Result<(), SinkError>
    ensures ok { OnOk result (Appends (K.taken out.old) (K.taken out.new) (listing.path_line (path.now ++ node ∷ []) ++ listing.graph_at (graph_tree graph.now) (path.now ++ node ∷ []))) }
    ensures err { OnErr result (AppendsPrefix (K.taken out.old) (K.taken out.new) (listing.path_line (path.now ++ node ∷ []) ++ listing.graph_at (graph_tree graph.now) (path.now ++ node ∷ []))) }
    ensures failed { IsErrOf result SinkError.Failed → HasRisen (K.faults out.old) (K.faults out.new) }
    ensures faults_never_fall { K.faults out.old ≤ K.faults out.new }
{
    let Ok(longer) = with_step(alloc, path, node) else {
        return Err(SinkError::Memory);
    };
    let here = longer.as_slice();
    write_path(alloc, out, here)?;
    write_at(alloc, out, graph, here)
}

/// Writes the text of a bound graph, each line with its newline. Of the text one state is kept at a time.
///
/// Nothing is asked of the graph. A variable that is neither that of a loop in force nor a parameter in the state
/// stands behind those that are, and what has no name is nameless.
pub fn write_graph<K: Sink>(alloc: Global, out: &mut K, bound: &Bound) -> Result<(), SinkError>
    ensures ok { OnOk result (Appends (K.taken out.old) (K.taken out.new) (listing.graph_text (graph_tree bound.now.graph))) }
    ensures err { OnErr result (AppendsPrefix (K.taken out.old) (K.taken out.new) (listing.graph_text (graph_tree bound.now.graph))) }
    ensures failed { IsErrOf result SinkError.Failed → HasRisen (K.faults out.old) (K.faults out.new) }
    ensures faults_never_fall { K.faults out.old ≤ K.faults out.new }
{
    write_at(alloc, out, &bound.graph, &[])
}
