ghost use Rattle.std.specs.Prelude.{◌≡◌, ◌≤◌, IfOk, IfErr, IfSome, OnOk, OnErr, IsErrOf};
ghost use Rattle.sd_io.specs.Count.{HasRisen};
ghost use Rattle.sd_io.specs.Sink.{Appends, AppendsPrefix};
ghost use Rattle.sd_graph.specs.TreeFold.{graph_tree};
ghost use Rattle.sd_race.specs.text.CheckText as checking;
ghost use Rattle.sd_lower.specs.PlanText as plans;
ghost use Rattle.sd_part.specs.Whole.{IsOfWidths};
ghost use Rattle.sd_steps.specs.StepText.{matches_text};
ghost use Rattle.sd_words.specs.Command.{command_of};
ghost use Rattle.sd_tool.specs.Answer.{text_of};
ghost use Rattle.sd_tool.specs.Answer as answers;
ghost use Rattle.sd_tool.specs.Answers.{Tells};
ghost use Rattle.sd_tool.specs.Ending.{answer_of};
ghost use Rattle.sd_tool.specs.Report.{reported, Says};
ghost use Rattle.sd_tool.specs.Workspace.{work_of, graph_of, RunsFor, IsLimited};

use crate::ending::Ending;
use crate::ran::{Ran, run, run_by};
use crate::steering::{Steered, accepted};
use sd_graph::Bound;
use sd_io::{Gate, Sink, SinkError};
use sd_lower::plan_text;
use sd_race::check_text;
use sd_report::{write_graph, write_run, write_text};
use sd_seq::RunEnd;
use sd_words::Command;
use std::alloc::Global;
use std::sync::Wait;
use std::thread::Threads;

/// What a command gives that nothing refuses.
#[derive(Drop)]
pub(crate) enum Report {
    /// A run that has ended.
    Run(Ran),
    /// A graph, whose text is wanted.
    Graph(Bound),
    /// An accepted graph, of which the accesses of its scopes are wanted.
    Accepted(Bound),
    /// An accepted graph, of which the plan is wanted.
    Plan(Bound),
    /// A graph, of which the rewrites that may be done are wanted.
    Matches(Bound),
}

/// Writes what the race check tells of an accepted graph.
fn write_accesses<K: Sink>(alloc: Global, out: &mut K, bound: &Bound) -> Result<(), SinkError>
    ensures ok { OnOk result (Appends (K.taken out.old) (K.taken out.new) (checking.check_text (graph_tree bound.now.graph))) }
    ensures err { OnErr result (AppendsPrefix (K.taken out.old) (K.taken out.new) (checking.check_text (graph_tree bound.now.graph))) }
    ensures failed { IsErrOf result SinkError.Failed → HasRisen (K.faults out.old) (K.faults out.new) }
    ensures faults_never_fall { K.faults out.old ≤ K.faults out.new }
{
    match check_text(alloc, bound) {
        Ok(accesses) => write_text(out, accesses.as_bytes()),
        Err(_) => Err(SinkError::Memory),
    }
}

/// Writes the plan of a graph.
fn write_plan<K: Sink>(alloc: Global, out: &mut K, bound: &Bound) -> Result<(), SinkError>
    ensures ok { OnOk result (Appends (K.taken out.old) (K.taken out.new) (plans.plan_text (graph_tree bound.now.graph))) }
    ensures err { OnErr result (AppendsPrefix (K.taken out.old) (K.taken out.new) (plans.plan_text (graph_tree bound.now.graph))) }
    ensures failed { IsErrOf result SinkError.Failed → HasRisen (K.faults out.old) (K.faults out.new) }
    ensures faults_never_fall { K.faults out.old ≤ K.faults out.new }
{
    match plan_text(alloc, bound) {
        Ok(plan) => write_text(out, plan.as_bytes()),
        Err(_) => Err(SinkError::Memory),
    }
}

/// Writes the rewrites that may be done on a graph.
fn write_matches<K: Sink>(alloc: Global, out: &mut K, bound: &Bound) -> Result<(), SinkError>
    ensures ok { OnOk result (Appends (K.taken out.old) (K.taken out.new) (matches_text (graph_tree bound.now.graph))) }
    ensures err { OnErr result (AppendsPrefix (K.taken out.old) (K.taken out.new) (matches_text (graph_tree bound.now.graph))) }
    ensures failed { IsErrOf result SinkError.Failed → HasRisen (K.faults out.old) (K.faults out.new) }
    ensures faults_never_fall { K.faults out.old ≤ K.faults out.new }
{
    match sd_steps::matches_text(alloc, bound) {
        Ok(steps) => write_text(out, steps.as_bytes()),
        Err(_) => Err(SinkError::Memory),
    }
}

impl Report {
    /// What a command gives of a call's work and of the graph that its chain made, or why it gives nothing. All but `print` and `matches` make
    /// the race check of that graph first. The memory of a graph that is not run is let go.
    pub(crate) fn of<'a, R: Threads + Wait + Sync, G: Gate + Sync + Send>(
        rt: &R,
        alloc: Global,
        command: Command<'a>,
        kept: Steered,
        gate: &G,
    ) -> Result<Report, Ending<'a>>
        requires runs { RunsFor (work_of kept.work).tree (graph_of kept) }
        requires widths { IsOfWidths kept.work.memory }
        requires limits { IsLimited (command_of command) }
        ensures tells { IfOk result (λ report.
            Says (Tells (work_of kept.work) (graph_of kept) kept.picks.items (command_of command.entry)) (reported report)) }
        ensures refuses { IfErr result (λ ending.
            IfSome (answer_of ending) (Tells (work_of kept.work) (graph_of kept) kept.picks.items (command_of command.entry))) }
    {
        match command {
            Command::Run(asked) => {
                let ran = run(rt, alloc, accepted(alloc, kept)?, asked, gate)?;
                Ok(Report::Run(ran))
            }
            Command::Step(step) => {
                let ran = run_by(alloc, accepted(alloc, kept)?, step)?;
                Ok(Report::Run(ran))
            }
            Command::Print => Ok(Report::Graph(kept.into_graph())),
            Command::Check => Ok(Report::Accepted(accepted(alloc, kept)?.into_graph())),
            Command::Plan => Ok(Report::Plan(accepted(alloc, kept)?.into_graph())),
            Command::Matches => Ok(Report::Matches(kept.into_graph())),
        }
    }

    /// The exit status: that of the run's end, and 0 where there is no run.
    pub(crate) fn status(&self) -> u8
        ensures { result ≡ answers.status_of (reported self.now) }
    {
        match self {
            Report::Run(ran) => match ran.told.end {
                RunEnd::Done { .. } => 0,
                RunEnd::Fault(..) => 7,
                RunEnd::Spent => 8,
            },
            Report::Graph(_) | Report::Accepted(_) | Report::Plan(_) | Report::Matches(_) => 0,
        }
    }

    /// Writes the text of the report.
    pub(crate) fn write<K: Sink>(&self, alloc: Global, out: &mut K) -> Result<(), SinkError>
        ensures ok { OnOk result (Appends (K.taken out.old) (K.taken out.new) (text_of (reported self.now))) }
        ensures err { OnErr result (AppendsPrefix (K.taken out.old) (K.taken out.new) (text_of (reported self.now))) }
        ensures failed { IsErrOf result SinkError.Failed → HasRisen (K.faults out.old) (K.faults out.new) }
        ensures faults_never_fall { K.faults out.old ≤ K.faults out.new }
    {
        match self {
            Report::Run(ran) => {
                let steps = ran.told.trace.as_slice();
                write_run(alloc, out, &ran.bound, ran.turns, steps, &ran.told.end)
            }
            Report::Graph(bound) => write_graph(alloc, out, bound),
            Report::Accepted(bound) => write_accesses(alloc, out, bound),
            Report::Plan(bound) => write_plan(alloc, out, bound),
            Report::Matches(bound) => write_matches(alloc, out, bound),
        }
    }
}
