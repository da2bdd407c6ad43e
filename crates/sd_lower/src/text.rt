//! The text of a plan.
ghost use Rattle.std.specs.Prelude.{◌≡◌, ◌++◌, map, option_map, codes, string_bytes, IfOk, OnOk};
ghost use Rattle.std.specs.List.{flat_map};
ghost use Rattle.sd_graph.specs.TreeFold.{graph_tree, named_container};
ghost use Rattle.sd_lower.specs.Kinds.{scope_kinds};
ghost use Rattle.sd_lower.specs.PlanText as definition;
ghost use Rattle.sd_prop.specs.collecting.Plain.{over_of};

use crate::kinds::{Kind, MapContainer, scope_kinds};
use indexmap::IndexMap;
use sd_graph::{Bound, Container};
use sd_list::NoMemory;
use sd_print::{push_container_name, push_path};
use sd_prop::{Over, Scope, annotate, scope_with, scopes};
use std::alloc::Global;

/// The word for a kind.
fn kind_word(kind: Kind) -> &'static str
    ensures { result.now ≡ definition.kind_word kind }
{
    match kind {
        Kind::Shared => "shared",
        Kind::Copied => "copied",
    }
}

/// Adds the line of a container of a map.
fn push_container(
    text: &mut String,
    containers: &IndexMap<String, Container>,
    one: &MapContainer,
) -> Result<(), NoMemory>
    ensures { OnOk result (string_bytes text.new ≡ string_bytes text.old ++ definition.container_line (map named_container containers.now.entries) one.now) }
{
    text.push_str("scope ")?;
    push_path(text, one.at.steps.as_slice())?;
    text.push_str(": ")?;
    push_container_name(text, containers, one.container)?;
    text.push_str(" ")?;
    text.push_str(kind_word(one.kind))?;
    text.push_str("\n")?;
    Ok(())
}

/// Adds the lines of containers of a map.
fn push_containers(
    text: &mut String,
    containers: &IndexMap<String, Container>,
    all: &[MapContainer],
) -> Result<(), NoMemory>
    ensures { OnOk result (string_bytes text.new ≡ string_bytes text.old ++ flat_map (definition.container_line (map named_container containers.now.entries)) all.now) }
{
    for one in all {
        push_container(text, containers, one)?;
    }
    Ok(())
}

/// Adds the line of a scope that is one piece.
fn push_whole(text: &mut String, path: &[u32], word: &str) -> Result<(), NoMemory>
    ensures { OnOk result (string_bytes text.new ≡ string_bytes text.old ++ definition.whole_line path.now word.now) }
{
    text.push_str("scope ")?;
    push_path(text, path)?;
    text.push_str(": ")?;
    text.push_str(word)?;
    text.push_str("\n")?;
    Ok(())
}

/// Adds the lines of a scope.
fn push_scope(
    alloc: Global,
    text: &mut String,
    containers: &IndexMap<String, Container>,
    scope: &Scope<'_>,
) -> Result<(), NoMemory>
    ensures { OnOk result (string_bytes text.new ≡ string_bytes text.old ++ definition.lines_over scope.now.over (map named_container containers.now.entries) scope.now) }
{
    match scope.over() {
        Over::Points {
            sequential: true,
            ..
        } => push_whole(text, scope.path(), "sequential"),
        Over::Points { .. } => {
            let all = scope_kinds(alloc, scope)?;
            push_containers(text, containers, all.as_slice())
        }
        Over::Elements => push_whole(text, scope.path(), "board"),
    }
}

/// Adds the lines of a scope that was looked for.
fn push_found(
    alloc: Global,
    text: &mut String,
    containers: &IndexMap<String, Container>,
    found: Option<&Scope<'_>>,
) -> Result<(), NoMemory>
    ensures { OnOk result (string_bytes text.new ≡ string_bytes text.old ++ definition.found_lines (map named_container containers.now.entries) (option_map (λ scope. scope.now) found.entry)) }
{
    match found {
        Some(scope) => push_scope(alloc, text, containers, scope),
        None => Ok(()),
    }
}

/// What a plan tells of a graph, each line with its newline.
///
/// There is a line for each container of each map that is cut into pieces and stands in a list of the graph's own
/// states, as `scope 1.1: A shared`, in the order of first access; a map whose points come one after another has the
/// line `scope 1.1: sequential`, a scope over the values of a stream the line `scope 1.1: board`.
pub fn plan_text(alloc: Global, bound: &Bound) -> Result<String, NoMemory>
    ensures { IfOk result (λ text. string_bytes text ≡ definition.plan_text (graph_tree bound.now.graph)) }
{
    let all = scopes(alloc, &bound.graph)?;
    let tops = annotate(alloc, bound)?;
    let mut text = String::new(alloc);
    for top in tops.as_slice() {
        let found = scope_with(all.as_slice(), top.path());
        push_found(alloc, &mut text, &bound.graph.containers, found)?;
    }
    Ok(text)
}
