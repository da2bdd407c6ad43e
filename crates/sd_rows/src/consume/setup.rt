ghost use Rattle.std.specs.Prelude.{◌≡◌, [], ◌∷◌, ◌++◌, ℕ, ◌+◌, ◌<◌, ◌^◌, pos, length, map, IfOk, OnOk, IsTrue};
ghost use Rattle.std.specs.Option.{MatchOption};
ghost use Rattle.std.specs.Bool.{⊤};
ghost use Rattle.std.specs.List.{AllByRecursion};
ghost use Rattle.sd_graph.specs.PlainTree.{GraphTree};
ghost use Rattle.sd_graph.specs.TreeFold.{graph_tree, tasklet_tree};
ghost use Rattle.sd_graph.specs.TreeParts.{containers_of};
ghost use Rattle.sd_graph.specs.Unfold.{at_element};
ghost use Rattle.sd_tcode.specs.tcode.Compiled.{Compiled};
ghost use Rattle.sd_tcode.specs.tcode.Held.{IsReady, given};
ghost use Rattle.sd_tcode.specs.columns.Columns.{value_on};
ghost use Rattle.sd_scope.specs.scope.Standing.{context_of, IsInside};
ghost use Rattle.sd_scope.specs.declared.scope.base.Base.{Base as BaseNow};
ghost use Rattle.sd_row.specs.instance.Fit.{IsRunner};
ghost use Rattle.sd_row.specs.instance.Known.{IsSetUp};
ghost use Rattle.sd_rows.specs.consume.Body.{HasSingles};
ghost use Rattle.sd_rows.specs.consume.Pool.{IsPool, pool_of};

use crate::consume::source::{Source, sources_of};
use sd_graph::{Link, Sdfg, Tasklet};
use sd_list::NoMemory;
use sd_mem::Station;
use sd_row::{Accesses, Runner, set_variables};
use sd_scope::{Base, Scope, station};
use sd_tasklet::Lifted;
use sd_tcode::{Frame, Spaced};
use std::alloc::Global;

/// What the elements of a consume scope need: the code, where its accesses lead and where its inputs come from, where an
/// element stands, and where its value comes from.
#[derive(Drop)]
pub(crate) struct Setup {
    pub runner: Runner,
    pub accesses: Accesses,
    pub sources: Vec<Source>,
    pub inner: Scope,
    pub from: Station,
}

/// Whether a container is there.
fn is_there(graph: &Sdfg, container: u32) -> bool
    ensures { IsTrue result → container < length (containers_of (graph_tree graph.now)) }
{
    (container as usize) < graph.containers.len()
}

/// Whether no output goes to this container.
fn are_elsewhere(outs: &[Link], element: u32) -> bool
    ensures { IsTrue result → AllByRecursion (λ link. (link.memlet.container ≡ element) → ⊥) outs.now }
{
    for link in outs {
        if link.memlet.container == element {
            return false;
        }
    }
    true
}

/// Where an element with the value 0 stands.
fn inner_scope(
    alloc: Global,
    element: u32,
    private: &[u32],
    scope: &Scope,
) -> Result<Scope, NoMemory>
    requires none { private.now ≡ [] }
    ensures inside { IfOk result (IsInside (element ∷ private.now) scope.now) }
    ensures context { IfOk result (λ inner. (tree : GraphTree) (base : BaseNow) → context_of tree base inner ≡ at_element (context_of tree base scope.now) element private.now (pos 0)) }
{
    let mut inner = scope.inside(alloc, &[element])?;
    inner.at_element(alloc, scope, element, 0)?;
    Ok(inner)
}

/// The code of a tasklet, with the extents that its connectors have where a scope stands; `None` where it is not run so.
fn runner_at(
    alloc: Global,
    tasklet: &Tasklet,
    ins: &[Link],
    outs: &[Link],
    inner: &Scope,
) -> Result<Option<Runner>, NoMemory>
    ensures runner { IfOk result (λ runner. MatchOption runner ⊤ (λ runner. IsRunner (tasklet_tree tasklet.now) ins.now outs.now runner.code runner.frame)) }
    ensures set { IfOk result (λ runner. MatchOption runner ⊤ (λ runner. (tree : GraphTree) (base : BaseNow) → IsSetUp (tasklet_tree tasklet.now) ins.now outs.now runner.code (given runner.frame) (context_of tree base inner.now))) }
{
    let Some(mut runner) = Runner::of(alloc, tasklet, ins, outs)? else {
        return Ok(None);
    };
    if runner.shape(alloc, ins, outs, inner)? {
        return Ok(Some(runner));
    }
    Ok(None)
}

/// A number that stays the same.
fn still(number: i64) -> Spaced
    ensures { value_on result 0 ≡ number }
{
    Spaced {
        first: number,
        step: 0,
    }
}

/// Values of variables, and behind them these numbers.
fn values_before(
    alloc: Global,
    variables: &[Spaced],
    numbers: &[i64],
) -> Result<Vec<Spaced>, NoMemory>
    ensures { IfOk result (λ all. map (λ numbers. value_on numbers 0) all.items ≡ map (λ numbers. value_on numbers 0) variables.now ++ numbers.now) }
{
    let mut all = variables.to_vec(alloc)?;
    for number in numbers {
        all.push(still(*number))?;
    }
    Ok(all)
}

/// Gives code the values of its variables, and behind them these numbers.
fn set_values(
    alloc: Global,
    frame: &mut Frame,
    variables: &[Spaced],
    numbers: &[i64],
) -> Result<(), NoMemory>
    requires many { length (given frame.old).variables ≡ length variables.now + length numbers.now }
    requires few { length variables.now + length numbers.now < 2 ^ 32 }
    ensures given { OnOk result (given frame.new ≡ record (given frame.old) { variables = map (λ numbers. value_on numbers 0) variables.now ++ numbers.now }) }
    ensures ready { OnOk result ((code : Compiled) → IsReady code frame.old → IsReady code frame.new) }
{
    let all = values_before(alloc, variables, numbers)?;
    set_variables(frame, all.as_slice(), 0);
    Ok(())
}

impl Setup {
    /// That of a scope whose body is this tasklet, with the values of its variables; `None` where it is not run so.
    pub(crate) fn of(
        alloc: Global,
        tasklet: &Tasklet,
        ins: &[Link],
        outs: &[Link],
        stream: u32,
        element: u32,
        private: &[u32],
        graph: &Sdfg,
        base: &Base,
        scope: &Scope,
    ) -> Result<Option<Setup>, NoMemory>
        requires none { private.now ≡ [] }
        requires other { (stream ≡ element) → ⊥ }
        ensures ready { IfOk result (λ setup. MatchOption setup ⊤ (λ setup. IsReady setup.runner.code setup.runner.frame)) }
        ensures singles { IfOk result (λ setup. MatchOption setup ⊤ (λ setup. HasSingles (length setup.sources.items) (given setup.runner.frame))) }
        ensures inside { IfOk result (λ setup. MatchOption setup ⊤ (λ setup. IsInside (element ∷ private.now) scope.now setup.inner)) }
        ensures pool { IfOk result (λ setup. MatchOption setup ⊤ (λ setup. (line : ℕ) → IsPool setup.runner.code (given setup.runner.frame) setup.accesses setup.sources.items setup.from element outs.now (context_of (graph_tree graph.now) base.now setup.inner)
            (pool_of (tasklet_tree tasklet.now) ins.now outs.now line stream element private.now (context_of (graph_tree graph.now) base.now scope.now)))) }
    {
        if !is_there(graph, element) || !are_elsewhere(outs, element) {
            return Ok(None);
        }
        let inner = inner_scope(alloc, element, private, scope)?;
        let lifted = Lifted::of(alloc, tasklet)?;
        let Some(mut runner) = runner_at(alloc, &lifted.tasklet, ins, outs, &inner)? else {
            return Ok(None);
        };
        let Some(accesses) = Accesses::at(alloc, tasklet, ins, outs, graph, base, &inner)? else {
            return Ok(None);
        };
        let Some(sources) = sources_of(alloc, accesses.reads.as_slice(), element)? else {
            return Ok(None);
        };
        let numbers = lifted.numbers.as_slice();
        set_values(
            alloc,
            &mut runner.frame,
            accesses.variables.as_slice(),
            numbers,
        )?;
        let from = station(base, &inner, stream)?;
        Ok(Some(Setup {
            runner,
            accesses,
            sources,
            inner,
            from,
        }))
    }
}
