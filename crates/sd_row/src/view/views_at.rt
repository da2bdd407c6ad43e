//! Views where a scope stands.
ghost use Rattle.std.specs.Prelude.{◌≡◌, map, IfOk};
ghost use Rattle.std.specs.Option.{MatchOption};
ghost use Rattle.std.specs.Bool.{⊤};
ghost use Rattle.std.specs.List.{AllByRecursion, AllZip};
ghost use Rattle.sd_graph.specs.PlainTree.{GraphTree};
ghost use Rattle.sd_graph.specs.TreeFold.{graph_tree, tasklet_tree};
ghost use Rattle.sd_graph.specs.Context.{link_extents};
ghost use Rattle.sd_scope.specs.declared.scope.base.Base.{Base as BaseNow};
ghost use Rattle.sd_scope.specs.scope.Standing.{context_of};
ghost use Rattle.sd_row.specs.view.View.{IsWindow, IsInWords, AreViews};

use crate::instance::{narrowed, targets_at, values_at};
use crate::view::finding::window_at;
use crate::view::views::Views;
use crate::view::window::Window;
use sd_graph::{Link, Sdfg, Tasklet};
use sd_list::NoMemory;
use sd_scope::{Base, Scope, connector_extents};
use std::alloc::Global;

impl Views {
    /// Those of a tasklet where a scope stands; `None` where an input has no elements, or one of them is outside.
    pub fn at(
        alloc: Global,
        tasklet: &Tasklet,
        ins: &[Link],
        outs: &[Link],
        graph: &Sdfg,
        base: &Base,
        scope: &Scope,
    ) -> Result<Option<Views>, NoMemory>
        ensures views { IfOk result (λ views. MatchOption views ⊤ (AreViews (tasklet_tree tasklet.now) ins.now outs.now 0 (context_of (graph_tree graph.now) base.now scope.now) (context_of (graph_tree graph.now) base.now scope.now))) }
        ensures words { IfOk result (λ views. MatchOption views ⊤ (λ views. AllByRecursion (IsInWords 0) views.inputs.items)) }
    {
        let Some(inputs) = windows_at(alloc, ins, graph, base, scope)? else {
            return Ok(None);
        };
        let Some(outputs) = extents_at(alloc, outs, scope)? else {
            return Ok(None);
        };
        let variables = values_at(alloc, tasklet.variables.as_slice(), &scope.values)?;
        let targets = targets_at(alloc, outs, graph, base, scope)?;
        Ok(Some(Views {
            inputs,
            outputs,
            variables,
            targets,
        }))
    }
}

/// The windows of links.
fn windows_at(
    alloc: Global,
    links: &[Link],
    graph: &Sdfg,
    base: &Base,
    scope: &Scope,
) -> Result<Option<Vec<Window>>, NoMemory>
    ensures windows { IfOk result (λ windows. MatchOption windows ⊤ (λ windows. AllZip (IsWindow 0 (context_of (graph_tree graph.now) base.now scope.now)) links.now windows.items)) }
    ensures words { IfOk result (λ windows. MatchOption windows ⊤ (λ windows. AllByRecursion (IsInWords 0) windows.items)) }
{
    let mut windows = Vec::with_capacity(alloc, links.len())?;
    for link in links {
        let Some(window) = window_at(alloc, link, graph, base, scope)? else {
            return Ok(None);
        };
        windows.push(window)?;
    }
    Ok(Some(windows))
}

/// The extents of links; `None` where one does not fit 64 bits.
fn extents_at(
    alloc: Global,
    links: &[Link],
    scope: &Scope,
) -> Result<Option<Vec<Vec<u64>>>, NoMemory>
    ensures { IfOk result (λ all. MatchOption all ⊤ (λ all. (program : GraphTree) (base : BaseNow) → map (link_extents (context_of program base scope.now)) links.now ≡ map (λ extents. extents.items) all.items)) }
{
    let mut all = Vec::with_capacity(alloc, links.len())?;
    for link in links {
        let extents = connector_extents(alloc, scope, link)?;
        let Some(extents) = narrowed(alloc, extents.as_slice())? else {
            return Ok(None);
        };
        all.push(extents)?;
    }
    Ok(Some(all))
}
