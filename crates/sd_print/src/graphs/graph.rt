//! The parts that the text of a graph is made of.
ghost use Rattle.std.specs.Prelude.{◌≡◌, ℕ, map, length, slice_index_or, string_bytes, IfOk};
ghost use Rattle.sd_graph.specs.LoopScope.{loops_in_force};
ghost use Rattle.sd_graph.specs.TreeFold.{named_container, state_tree, state_trees};
ghost use Rattle.sd_print.specs.graphs.GraphText as definition;
ghost use Rattle.sd_print.specs.graphs.StateText as states_text;
ghost use Rattle.sd_wire.specs.loops.Spans.{variables_in};
ghost use Rattle.sd_wire.specs.wiring.Listing.{nodes_of};

use crate::graphs::container::push_head;
use crate::graphs::order::order_of;
use crate::graphs::state::push_state;
use indexmap::IndexMap;
use sd_graph::{Container, Node, NodeKind, State};
use sd_list::NoMemory;
use sd_wire::{LoopSpan, loop_spans, wire_items};
use std::alloc::Global;

/// How many names there are.
fn count_of(names: &[String]) -> Result<u32, NoMemory>
    ensures { IfOk result (λ count. count ≡ length (map string_bytes names.now)) }
{
    u32::try_from(names.len()).map_err(|_| NoMemory)
}

/// The variables of the loops among states, each with the states in which it is in force. The graph's variables
/// have these names.
pub fn spans_of(
    alloc: Global,
    names: &[String],
    states: &[State],
) -> Result<Vec<LoopSpan>, NoMemory>
    ensures { IfOk result (λ spans. (state : ℕ) → variables_in spans.items state ≡ loops_in_force (state_trees states.now) (length (map string_bytes names.now)) state) }
{
    loop_spans(alloc, states, count_of(names)?)
}

/// Whether a node holds a graph.
fn is_nested(kind: NodeKind) -> bool
    ensures { result ≡ definition.is_nested kind }
{
    match kind {
        NodeKind::Nested => true,
        NodeKind::Access(_)
        | NodeKind::Tasklet
        | NodeKind::MapEntry
        | NodeKind::ConsumeEntry
        | NodeKind::Exit(_)
        | NodeKind::Reduce
        | NodeKind::Copy => false,
    }
}

/// The numbers of the nodes that hold graphs.
fn nested_nodes(alloc: Global, nodes: &[Node]) -> Result<Vec<u32>, NoMemory>
    ensures { IfOk result (λ found. found.items ≡ definition.nested_nodes 0 nodes.now) }
{
    let mut found = Vec::new(alloc);
    let mut number = 0_u32;
    for node in nodes {
        if is_nested(node.kind) {
            found.push(number)?;
        }
        number = number.checked_add(1).ok_or(NoMemory)?;
    }
    Ok(found)
}

/// The node at a place of a list; 0 behind its end.
pub fn node_at(nodes: &[u32], place: usize) -> u32
    ensures { result ≡ slice_index_or nodes.now place 0 }
{
    match nodes.get(place) {
        Some(node) => *node,
        None => 0,
    }
}

/// The text of a graph's name and its containers, each line with its newline.
pub fn head_text(
    alloc: Global,
    name: &str,
    names: &[String],
    containers: &IndexMap<String, Container>,
) -> Result<String, NoMemory>
    ensures { IfOk result (λ text. string_bytes text ≡ definition.head_text name.now (map string_bytes names.now) (map named_container containers.now.entries)) }
{
    let mut text = String::new(alloc);
    push_head(alloc, &mut text, name, names, containers)?;
    Ok(text)
}

/// The text of a state, the graphs nested in it aside, and the numbers of the nodes that hold these.
#[derive(Drop)]
pub struct StateText {
    pub text: String,
    pub nested: Vec<u32>,
}

/// The text of a state of a graph whose loops have these spans, each line with its newline, and the numbers of the
/// nodes that hold graphs.
///
/// A variable that is neither that of a loop in force nor a parameter in the state stands behind those that are, and
/// what has no name is nameless.
pub fn state_text(
    alloc: Global,
    names: &[String],
    containers: &IndexMap<String, Container>,
    spans: &[LoopSpan],
    number: u32,
    state: &State,
) -> Result<StateText, NoMemory>
    ensures text { IfOk result (λ made. string_bytes made.text ≡ states_text.state_text (map string_bytes names.now) (map named_container containers.now.entries) (states_text.order_in spans.now number (state_tree state.now).0) number (state_tree state.now).0 (state_tree state.now).1) }
    ensures nested { IfOk result (λ made. made.nested.items ≡ definition.nested_nodes 0 (nodes_of (map named_container containers.now.entries) (state_tree state.now).0)) }
{
    let items = state.items.as_slice();
    let exits = state.exits.as_slice();
    let order = order_of(alloc, spans, number, items)?;
    let wired = wire_items(alloc, containers, items)?;
    let mut text = String::new(alloc);
    push_state(
        alloc,
        &mut text,
        names,
        containers,
        order.as_slice(),
        number,
        items,
        exits,
        &wired,
    )?;
    let nested = nested_nodes(alloc, &wired.nodes)?;
    Ok(StateText { text, nested })
}
