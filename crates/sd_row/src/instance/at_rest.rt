//! Accesses where a scope stands.
ghost use Rattle.std.specs.Prelude.{◌≡◌, ◌∷◌, [], ◌++◌, map, length, unsigned_abs, true, Some, IfOk};
ghost use Rattle.std.specs.Option.{MatchOption};
ghost use Rattle.std.specs.Bool.{⊤};
ghost use Rattle.std.specs.List.{AllByRecursion, AllZip};
ghost use Rattle.sd_num.specs.Wrapped.{wrapped};
ghost use Rattle.sd_range.specs.Affine.{variable_value};
ghost use Rattle.sd_graph.specs.PlainTree.{TaskletTree};
ghost use Rattle.sd_graph.specs.TreeFold.{graph_tree, tasklet_tree};
ghost use Rattle.sd_graph.specs.Context.{link_element};
ghost use Rattle.sd_scope.specs.scope.Standing.{context_of};
ghost use Rattle.sd_scope.specs.even.Even.{is_scalar};
ghost use Rattle.sd_tcode.specs.columns.Columns.{value_on};
ghost use Rattle.sd_row.specs.row.Row.{reference_on};
ghost use Rattle.sd_row.specs.instance.Known.{IsTarget, AreKnown};

use crate::instance::accesses::Accesses;
use crate::instance::fit::{element_of_variable, is_stream};
use crate::instance::target::Target;
use crate::row::Track;
use sd_graph::{Link, Sdfg, Tasklet};
use sd_list::NoMemory;
use sd_range::Env;
use sd_scope::{Base, Scope, has_one_element, link_cell, station};
use sd_tcode::Spaced;
use std::alloc::Global;

impl Accesses {
    /// Those of a tasklet with scalar inputs where a scope stands; `None` where an input is outside.
    pub fn at(
        alloc: Global,
        tasklet: &Tasklet,
        ins: &[Link],
        outs: &[Link],
        graph: &Sdfg,
        base: &Base,
        scope: &Scope,
    ) -> Result<Option<Accesses>, NoMemory>
        requires scalars { AllByRecursion (λ link. is_scalar link.memlet.subset.dims ≡ true) ins.now }
        ensures { IfOk result (λ accesses. MatchOption accesses ⊤ (AreKnown (tasklet_tree tasklet.now) ins.now outs.now 0 (context_of (graph_tree graph.now) base.now scope.now) (context_of (graph_tree graph.now) base.now scope.now))) }
    {
        let Some(reads) = tracks_at(alloc, ins, graph, base, scope)? else {
            return Ok(None);
        };
        let variables = values_at(alloc, tasklet.variables.as_slice(), &scope.values)?;
        let targets = targets_at(alloc, outs, graph, base, scope)?;
        Ok(Some(Accesses {
            reads,
            variables,
            targets,
        }))
    }
}

/// A number that stays the same.
pub(crate) fn resting(number: i64) -> Spaced
    ensures { value_on result 0 ≡ number }
{
    Spaced {
        first: number,
        step: 0,
    }
}

/// The element of a link at a place; `None` where it is outside or far behind all elements.
pub(crate) fn track_to(
    alloc: Global,
    link: &Link,
    at: &[i128],
    graph: &Sdfg,
    base: &Base,
    scope: &Scope,
) -> Result<Option<Track>, NoMemory>
    ensures { IfOk result (λ track. MatchOption track ⊤ (λ track. link_element (context_of (graph_tree graph.now) base.now scope.now) link.now at.now ≡ Some (reference_on track 0))) }
{
    let Some(cell) = link_cell(alloc, graph, base, scope, link, at)? else {
        return Ok(None);
    };
    let Ok(element) = i64::try_from(cell.element) else {
        return Ok(None);
    };
    Ok(Some(Track {
        station: cell.station,
        elements: resting(element),
    }))
}

/// The element of a link; `None` where it is outside or far behind all elements.
fn track_at(
    alloc: Global,
    link: &Link,
    graph: &Sdfg,
    base: &Base,
    scope: &Scope,
) -> Result<Option<Track>, NoMemory>
    ensures { IfOk result (λ track. MatchOption track ⊤ (λ track. link_element (context_of (graph_tree graph.now) base.now scope.now) link.now [] ≡ Some (reference_on track 0))) }
{
    track_to(alloc, link, &[], graph, base, scope)
}

/// The elements of links.
fn tracks_at(
    alloc: Global,
    links: &[Link],
    graph: &Sdfg,
    base: &Base,
    scope: &Scope,
) -> Result<Option<Vec<Track>>, NoMemory>
    ensures { IfOk result (λ tracks. MatchOption tracks ⊤ (λ tracks. map (λ link. link_element (context_of (graph_tree graph.now) base.now scope.now) link []) links.now ≡ map (λ track. Some (reference_on track 0)) tracks.items)) }
{
    let mut tracks = Vec::with_capacity(alloc, links.len())?;
    for link in links {
        let Some(track) = track_at(alloc, link, graph, base, scope)? else {
            return Ok(None);
        };
        tracks.push(track)?;
    }
    Ok(Some(tracks))
}

/// The values of variables.
pub(crate) fn values_at(
    alloc: Global,
    variables: &[u32],
    values: &Env,
) -> Result<Vec<Spaced>, NoMemory>
    ensures { IfOk result (λ numbers. map (λ variable. wrapped (variable_value values.now.values variable)) variables.now ≡ map (λ numbers. value_on numbers 0) numbers.items) }
{
    let mut numbers = Vec::with_capacity(alloc, variables.len())?;
    for variable in variables {
        numbers.push(resting(element_of_variable(*variable, values)))?;
    }
    Ok(numbers)
}

/// The target of an output.
fn target_at(
    alloc: Global,
    link: &Link,
    graph: &Sdfg,
    base: &Base,
    scope: &Scope,
) -> Result<Target, NoMemory>
    ensures { IfOk result (IsTarget 0 (context_of (graph_tree graph.now) base.now scope.now) (context_of (graph_tree graph.now) base.now scope.now) link.now) }
{
    if is_stream(graph, link.memlet.container) {
        let station = station(base, scope, link.memlet.container)?;
        return Ok(Target::Stream(station));
    }
    if !has_one_element(link.memlet.subset.dims.as_slice()) {
        return Ok(Target::Computed);
    }
    match track_at(alloc, link, graph, base, scope)? {
        Some(track) => Ok(Target::Element(link.memlet.resolution, track)),
        None => Ok(Target::Computed),
    }
}

/// The targets of outputs.
pub(crate) fn targets_at(
    alloc: Global,
    links: &[Link],
    graph: &Sdfg,
    base: &Base,
    scope: &Scope,
) -> Result<Vec<Target>, NoMemory>
    ensures { IfOk result (λ targets. AllZip (IsTarget 0 (context_of (graph_tree graph.now) base.now scope.now) (context_of (graph_tree graph.now) base.now scope.now)) links.now targets.items) }
{
    let mut targets = Vec::with_capacity(alloc, links.len())?;
    for link in links {
        targets.push(target_at(alloc, link, graph, base, scope)?)?;
    }
    Ok(targets)
}
