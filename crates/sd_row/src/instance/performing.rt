//! What the effects of a tasklet do, where their targets are known.
ghost use Rattle.std.specs.Prelude.{◌≡◌, ◌∷◌, [], List, map, length, Some, None, nat_lt, if◌then◌else◌, slice_get, IfOk};
ghost use Rattle.sd_graph.specs.TreeFold.{graph_tree};
ghost use Rattle.sd_graph.specs.TaskletMeaning.{Inputs, extents_of_connector};
ghost use Rattle.sd_graph.specs.Context.{Context, link_extents};
ghost use Rattle.sd_graph.specs.Unfold.{pending_through};
ghost use Rattle.sd_graph.specs.declared.link.Link.{Link as LinkNow};
ghost use Rattle.sd_tasklet.specs.tasklet.Kept.{told};
ghost use Rattle.sd_scope.specs.scope.Standing.{context_of};
ghost use Rattle.sd_leaves.specs.leaves.Done.{IsDone, performing};
ghost use Rattle.sd_leaves.specs.leaves.Given.{pending_told};
ghost use Rattle.sd_row.specs.declared.instance.target.Target.{Target as TargetNow};
ghost use Rattle.sd_row.specs.instance.Known.{IsTarget, AreTargets, place_below, pending_among};

use crate::instance::target::Target;
use crate::row::Track;
use sd_graph::{FaultKind, Link, Sdfg};
use sd_leaves::perform_effect;
use sd_list::NoMemory;
use sd_mem::Machine;
use sd_num::Resolution;
use sd_range::Dim;
use sd_scope::{Base, Scope};
use sd_tasklet::Effect;
use std::alloc::Global;

/// How many ranges a subset has.
fn range_count(dims: &[Dim]) -> usize
    ensures { (context : Context) (link : LinkNow) → link.memlet.subset.dims ≡ dims.now → result ≡ length (link_extents context link) }
{
    let mut count = 0;
    for dim in dims {
        if let Dim::Span(_) = dim {
            count += 1;
        }
    }
    count
}

/// The one number of an effect's place, where it is below a bound.
#[inline(always)]
fn place_below(effect: &Effect, dimensions: usize, count: u32) -> Option<u32>
    ensures { (inputs : Inputs) → dimensions ≡ length (extents_of_connector inputs effect.now.connector) → result ≡ place_below count (told inputs effect.now).at }
{
    if dimensions != 1 {
        return None;
    }
    number_below(effect.at[0], count)
}

/// A number, where it is below a bound.
#[inline(always)]
fn number_below(number: u64, count: u32) -> Option<u32>
    ensures { result ≡ (if nat_lt number count then Some number else None) }
{
    let small = u32::try_from(number).ok()?;
    if small < count { Some(small) } else { None }
}

/// Performs an effect at a place among so many on a track; at another place its element is looked up.
#[inline(always)]
fn perform_among(
    alloc: Global,
    by: Option<Resolution>,
    to: Track,
    count: u32,
    effect: &Effect,
    link: &Link,
    graph: &Sdfg,
    base: &Base,
    scope: &Scope,
    machine: &mut Machine,
) -> Result<Option<FaultKind>, NoMemory>
    ensures { IfOk result (λ fault. (here : Context) (inputs : Inputs) → extents_of_connector inputs effect.now.connector ≡ link_extents here link.now
        → IsDone (performing (pending_among by to (context_of (graph_tree graph.now) base.now scope.now) link.now (told inputs effect.now) (place_below count (told inputs effect.now).at) ∷ [])) machine.old fault machine.new) }
{
    let dimensions = range_count(link.memlet.subset.dims.as_slice());
    match place_below(effect, dimensions, count) {
        Some(place) => {
            machine.write(to.cell(place), by, effect.value);
            Ok(None)
        }
        None => perform_effect(
            alloc, *effect, dimensions, link, graph, base, scope, machine,
        ),
    }
}

/// Performs an effect through a link that leads to this target at a point.
#[inline(always)]
fn perform_to(
    alloc: Global,
    target: Target,
    effect: &Effect,
    link: &Link,
    k: u32,
    graph: &Sdfg,
    base: &Base,
    scope: &Scope,
    machine: &mut Machine,
) -> Result<Option<FaultKind>, NoMemory>
    ensures { IfOk result (λ fault. (here : Context) (inputs : Inputs) → IsTarget k here (context_of (graph_tree graph.now) base.now scope.now) link.now target
        → extents_of_connector inputs effect.now.connector ≡ link_extents here link.now
        → IsDone (performing (pending_through here link.now (told inputs effect.now) ∷ [])) machine.old fault machine.new) }
{
    match target {
        Target::Stream(station) => {
            machine.push(station, effect.value)?;
            Ok(None)
        }
        Target::Element(by, to) => {
            machine.write(to.cell(k), by, effect.value);
            Ok(None)
        }
        Target::Among(by, to, count) => perform_among(
            alloc, by, to, count, effect, link, graph, base, scope, machine,
        ),
        Target::Computed => {
            let dimensions = range_count(link.memlet.subset.dims.as_slice());
            perform_effect(
                alloc, *effect, dimensions, link, graph, base, scope, machine,
            )
        }
    }
}

/// The target of this number; one that is looked up where there is none.
#[inline(always)]
fn target_of(targets: &[Target], number: usize) -> Target
    ensures { (target : TargetNow) → slice_get targets.now number ≡ Some target → result ≡ target }
{
    match targets.get(number) {
        Some(target) => *target,
        None => Target::Computed,
    }
}

/// Performs an effect: outputs are numbered behind so many inputs, and through another number it goes nowhere, which is a fault.
#[inline(always)]
fn perform(
    alloc: Global,
    effect: &Effect,
    inputs: usize,
    targets: &[Target],
    outs: &[Link],
    k: u32,
    graph: &Sdfg,
    base: &Base,
    scope: &Scope,
    machine: &mut Machine,
) -> Result<Option<FaultKind>, NoMemory>
    ensures { IfOk result (λ fault. (here : Context) (ins : List LinkNow) (given : Inputs) → AreTargets inputs ins outs.now given targets.now k here (context_of (graph_tree graph.now) base.now scope.now)
        → IsDone (performing (pending_told here given ins outs.now effect.now ∷ [])) machine.old fault machine.new) }
{
    let Some(number) = (effect.connector as usize).checked_sub(inputs) else {
        return Ok(Some(FaultKind::Subscript));
    };
    let Some(link) = outs.get(number) else {
        return Ok(Some(FaultKind::Subscript));
    };
    let target = target_of(targets, number);
    perform_to(alloc, target, effect, link, k, graph, base, scope, machine)
}

/// Performs effects one after another, where outputs are numbered behind so many inputs. Only a push, and a place that is looked up,
/// take memory.
#[inline(always)]
pub fn perform_all(
    alloc: Global,
    effects: &[Effect],
    inputs: usize,
    targets: &[Target],
    outs: &[Link],
    k: u32,
    graph: &Sdfg,
    base: &Base,
    scope: &Scope,
    machine: &mut Machine,
) -> Result<Option<FaultKind>, NoMemory>
    ensures { IfOk result (λ fault. (here : Context) (ins : List LinkNow) (given : Inputs) → AreTargets inputs ins outs.now given targets.now k here (context_of (graph_tree graph.now) base.now scope.now)
        → IsDone (performing (map (pending_told here given ins outs.now) effects.now)) machine.old fault machine.new) }
{
    for effect in effects {
        match perform(
            alloc, effect, inputs, targets, outs, k, graph, base, scope, machine,
        )? {
            None => {}
            Some(kind) => return Ok(Some(kind)),
        }
    }
    Ok(None)
}
