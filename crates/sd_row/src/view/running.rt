ghost use Rattle.std.specs.Prelude.{◌≡◌, ℕ, ◌<◌, ◌≤◌, ◌^◌, ◌∷◌, [], List, length, map, None, IfOk, OnOk};
ghost use Rattle.std.specs.List.{AllByRecursion};
ghost use Rattle.sd_work.specs.Memory.{Memory};
ghost use Rattle.sd_graph.specs.PlainTree.{TaskletTree};
ghost use Rattle.sd_graph.specs.TreeFold.{graph_tree};
ghost use Rattle.sd_graph.specs.TaskletMeaning.{meaning_of};
ghost use Rattle.sd_graph.specs.Context.{Context};
ghost use Rattle.sd_graph.specs.declared.link.Link.{Link as LinkNow};
ghost use Rattle.sd_tasklet.specs.tasklet.Kept.{told};
ghost use Rattle.sd_tcode.specs.op.Machine.{answered};
ghost use Rattle.sd_tcode.specs.tcode.Compiled.{Compiled, IsCodeOf};
ghost use Rattle.sd_tcode.specs.tcode.Held.{IsReady, HaveDims, given, given_with};
ghost use Rattle.sd_scope.specs.scope.Standing.{context_of};
ghost use Rattle.sd_leaves.specs.leaves.Done.{IsDone, instance_work};
ghost use Rattle.sd_row.specs.row.Point.{seen_on, IsOver};
ghost use Rattle.sd_row.specs.instance.Known.{HasRoom, AreOutward};
ghost use Rattle.sd_row.specs.view.View.{IsInput, IsInWords, AreViews, connectors_in};

use crate::instance::perform_all;
use crate::row::set_variables;
use crate::view::sight::Sight;
use crate::view::views::Views;
use crate::view::window::Window;
use sd_graph::{FaultKind, Link, Sdfg};
use sd_list::NoMemory;
use sd_mem::Machine;
use sd_scope::{Base, Scope};
use sd_tcode::{Code, Frame, run_from};
use std::alloc::Global;

/// Gives code the first element of each input; of one that is a scalar that is all.
#[inline(always)]
fn load_first(frame: &mut Frame, inputs: &[Window], k: u32, machine: &Machine)
    requires singles { AllByRecursion (λ values. length values ≡ 1) (given frame.old).values }
    requires inputs { length (given frame.old).values ≡ length inputs.now }
    requires few { length inputs.now < 2 ^ 32 }
    ensures given { given frame.new ≡ record (given frame.old) { values = map (λ window. seen_on k machine.now.memories window.first ∷ []) inputs.now } }
    ensures ready { (code : Compiled) → IsReady code frame.old → IsReady code frame.new }
{
    for number in 0..inputs.len() {
        frame.load(number as u32, 0, machine.look(inputs[number].first.cell(k)));
    }
}

/// Runs code on what it sees.
#[inline(always)]
fn run_sight(code: &Code, frame: &mut Frame, sight: &Sight<'_>) -> Result<(), FaultKind>
    requires ready { IsReady code.now frame.old }
    requires dims { HaveDims code.now (connectors_in sight.now.k sight.now.machine.now.memories sight.now.views.now) }
    requires held { (connector : ℕ) → connector < code.now.layout.inputs → IsInput sight.now.k sight.now.views.now connector }
    ensures meaning { (tree : TaskletTree) → IsCodeOf tree code.now
        → meaning_of tree (given_with (connectors_in sight.now.k sight.now.machine.now.memories sight.now.views.now) (given frame.old))
        ≡ answered result (map (told (given_with (connectors_in sight.now.k sight.now.machine.now.memories sight.now.views.now) (given frame.new))) frame.new.log.0) }
    ensures given { given frame.new ≡ given frame.old }
    ensures ready { IsReady code.now frame.new }
{
    run_from(code, frame, sight)
}

/// Runs code on what it sees through views at a point.
#[inline(always)]
fn run_seeing(
    code: &Code,
    frame: &mut Frame,
    views: &Views,
    k: u32,
    machine: &Machine,
) -> Result<(), FaultKind>
    requires ready { IsReady code.now frame.old }
    requires dims { HaveDims code.now (connectors_in k machine.now.memories views.now) }
    requires held { (connector : ℕ) → connector < code.now.layout.inputs → IsInput k views.now connector }
    ensures meaning { (tree : TaskletTree) → IsCodeOf tree code.now → meaning_of tree (given_with (connectors_in k machine.now.memories views.now) (given frame.old))
        ≡ answered result (map (told (given_with (connectors_in k machine.now.memories views.now) (given frame.new))) frame.new.log.0) }
    ensures given { given frame.new ≡ given frame.old }
    ensures ready { IsReady code.now frame.new }
{
    run_sight(code, frame, &Sight { views, k, machine })
}

/// What an instance does once its turn is spent, where its inputs are windows at the point of this number: it reads, evaluates and
/// performs its effects. Places of effects are looked up where the scope stands, which may be at another point. Only a push,
/// and a place that is looked up, take memory.
#[inline(always)]
pub fn run_on_views(
    alloc: Global,
    views: &Views,
    code: &Code,
    frame: &mut Frame,
    k: u32,
    outs: &[Link],
    graph: &Sdfg,
    base: &Base,
    scope: &Scope,
    machine: &mut Machine,
) -> Result<Option<FaultKind>, NoMemory>
    requires ready { IsReady code.now frame.old }
    requires room { HasRoom (length views.now.inputs.items) (length views.now.variables.items) (given frame.old) }
    requires dims { HaveDims code.now (connectors_in k machine.old.memories views.now) }
    requires inputs { code.now.layout.inputs ≤ length views.now.inputs.items }
    requires words { AllByRecursion (IsInWords k) views.now.inputs.items }
    ensures done { IfOk result (λ fault. (here : Context) (tree : TaskletTree) (ins : List LinkNow) → IsCodeOf tree code.now
        → AreViews tree ins outs.now k here (context_of (graph_tree graph.now) base.now scope.now) views.now → IsDone (instance_work here tree ins outs.now) machine.old fault machine.new) }
    ensures own { IfOk result (λ fault. (here : Context) (tree : TaskletTree) (ins : List LinkNow) (own : Memory) → IsCodeOf tree code.now
        → AreViews tree ins outs.now k here (context_of (graph_tree graph.now) base.now scope.now) views.now → AreOutward here outs.now → fault ≡ None → IsOver own machine.old → IsOver own machine.new) }
    ensures ready { OnOk result (IsReady code.now frame.new) }
    ensures room { OnOk result (HasRoom (length views.now.inputs.items) (length views.now.variables.items) (given frame.new)) }
    ensures extents { OnOk result ((given frame.new).extents ≡ (given frame.old).extents) }
{
    load_first(frame, &views.inputs, k, machine);
    set_variables(frame, &views.variables, k);
    if let Err(kind) = run_seeing(code, frame, views, k, machine) {
        return Ok(Some(kind));
    }
    let inputs = views.inputs.len();
    perform_all(
        alloc,
        frame.effects(),
        inputs,
        &views.targets,
        outs,
        k,
        graph,
        base,
        scope,
        machine,
    )
}
