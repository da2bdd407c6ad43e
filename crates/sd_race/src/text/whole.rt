//! The text of the check of an accepted graph.
ghost use Rattle.std.specs.Prelude.{◌≡◌, ◌++◌, map, length, string_bytes, IfOk, OnOk};
ghost use Rattle.std.specs.List.{flat_map};
ghost use Rattle.sd_graph.specs.TreeFold.{graph_tree, named_container, state_trees};
ghost use Rattle.sd_race.specs.text.CheckText as definition;
ghost use Rattle.sd_wire.specs.loops.Spans as spans_of;

use crate::text::access::{push_touched, push_use};
use indexmap::IndexMap;
use sd_graph::{Bound, Container, Sdfg, State};
use sd_list::NoMemory;
use sd_print::push_path;
use sd_prop::{Access, WholeScope, annotate};
use sd_wire::{LoopSpan, loop_spans, variables_in};
use std::alloc::Global;

/// How many names there are.
fn count_of(names: &[String]) -> Result<u32, NoMemory>
    ensures { IfOk result (λ count. count ≡ length (map string_bytes names.now)) }
{
    u32::try_from(names.len()).map_err(|_| NoMemory)
}

/// The state in which the scope with a path stands.
fn state_of(path: &[u32]) -> u32
    ensures { result ≡ definition.state_of path.now }
{
    match path.first() {
        Some(state) => *state,
        None => 0,
    }
}

/// Adds the line of an access.
fn push_line(
    alloc: Global,
    text: &mut String,
    names: &[String],
    containers: &IndexMap<String, Container>,
    order: &[u32],
    path: &[u32],
    access: &Access,
) -> Result<(), NoMemory>
    ensures { OnOk result (string_bytes text.new ≡ string_bytes text.old ++ definition.access_line (map string_bytes names.now) (map named_container containers.now.entries) order.now path.now access.now) }
{
    text.push_str("scope ")?;
    push_path(text, path)?;
    text.push_str(": ")?;
    push_use(text, containers, access)?;
    push_touched(alloc, text, names, containers, order, access)?;
    text.push_str("\n")?;
    Ok(())
}

/// Adds the lines of a scope.
fn push_scope(
    alloc: Global,
    text: &mut String,
    names: &[String],
    containers: &IndexMap<String, Container>,
    order: &[u32],
    scope: &WholeScope,
) -> Result<(), NoMemory>
    ensures { OnOk result (string_bytes text.new ≡ string_bytes text.old ++ definition.scope_text (map string_bytes names.now) (map named_container containers.now.entries) order.now scope.now) }
{
    for access in scope.accesses() {
        push_line(alloc, text, names, containers, order, scope.path(), access)?;
    }
    Ok(())
}

/// Adds the lines of a scope of one of a graph's own states, whose loops have these spans.
fn push_own(
    alloc: Global,
    text: &mut String,
    names: &[String],
    containers: &IndexMap<String, Container>,
    spans: &[LoopSpan],
    scope: &WholeScope,
) -> Result<(), NoMemory>
    ensures { OnOk result (string_bytes text.new ≡ string_bytes text.old ++ definition.scope_text (map string_bytes names.now) (map named_container containers.now.entries) (spans_of.variables_in spans.now (definition.state_of scope.now.0)) scope.now) }
{
    let order = variables_in(alloc, spans, state_of(scope.path()))?;
    push_scope(alloc, text, names, containers, order.as_slice(), scope)
}

/// Adds the lines of scopes of a graph's own states.
fn push_scopes(
    alloc: Global,
    text: &mut String,
    names: &[String],
    containers: &IndexMap<String, Container>,
    states: &[State],
    scopes: &[WholeScope],
) -> Result<(), NoMemory>
    ensures { OnOk result (string_bytes text.new ≡ string_bytes text.old ++ flat_map (definition.scope_lines (map string_bytes names.now) (map named_container containers.now.entries) (state_trees states.now)) scopes.now) }
{
    let variables = count_of(names)?;
    let spans = loop_spans(alloc, states, variables)?;
    for scope in scopes {
        push_own(alloc, text, names, containers, spans.as_slice(), scope)?;
    }
    Ok(())
}

/// Adds the lines of scopes of a graph.
fn push_all(
    alloc: Global,
    text: &mut String,
    graph: &Sdfg,
    scopes: &[WholeScope],
) -> Result<(), NoMemory>
    ensures { OnOk result (string_bytes text.new ≡ string_bytes text.old ++ definition.scopes_text (graph_tree graph.now) scopes.now) }
{
    push_scopes(
        alloc,
        text,
        &graph.variables,
        &graph.containers,
        &graph.states,
        scopes,
    )
}

/// What the check tells of an accepted graph, each line with its newline.
///
/// There is a line for each container and mode of each scope that stands in a list of the graph's own
/// states, as `scope 1.1: read A[0:3]`, in order of first access, and then `accepted`. Whether the graph is
/// accepted is not looked at.
pub fn check_text(alloc: Global, bound: &Bound) -> Result<String, NoMemory>
    ensures { IfOk result (λ text. string_bytes text ≡ definition.check_text (graph_tree bound.now.graph)) }
{
    let scopes = annotate(alloc, bound)?;
    let mut text = String::new(alloc);
    push_all(alloc, &mut text, &bound.graph, scopes.as_slice())?;
    text.push_str("accepted\n")?;
    Ok(text)
}
