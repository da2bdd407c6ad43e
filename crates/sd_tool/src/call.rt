ghost use Rattle.std.specs.Prelude.{◌≡◌, ◌≤◌, ℕ, true, false, List, map, IfOk, IfErr, IfSome, string_bytes};
ghost use Rattle.sd_io.specs.Count.{HasRisen};
ghost use Rattle.sd_graph.specs.PlainTree.{GraphTree};
ghost use Rattle.sd_race.specs.race.Pairs.{IsGraphAccepted};
ghost use Rattle.sd_words.specs.Command.{Call, Run, Step, to_run, to_step, to_print, to_check, to_plan, to_match, MakesRaceCheck, IsCall, call_of};
ghost use Rattle.sd_tool.specs.Accepted.{IsRaceFree};
ghost use Rattle.sd_tool.specs.Answers.{Answers};
ghost use Rattle.sd_tool.specs.Ending.{answer_of};
ghost use Rattle.sd_tool.specs.Ends.{Ends, sink_use};
ghost use Rattle.sd_tool.specs.Files.{ShelfUse, shelf_use};
ghost use Rattle.sd_tool.specs.Headline.{Prints, PrintsUnlessRefused, PrintsTraced, Lists, Accepts, TellsPlan, TellsMatches, TellsItsRace};
ghost use Rattle.sd_tool.specs.Report.{reported, Says};
ghost use Rattle.sd_tool.specs.Statuses.{Statuses};
ghost use Rattle.sd_tool.specs.Told.{Asks, Presents, Chained, GivesPicks};
ghost use Rattle.sd_tool.specs.Work.{Work};
ghost use Rattle.sd_tool.specs.Written.{written_status};

use crate::ending::Ending;
use crate::files::prepare;
use crate::report::Report;
use crate::steering::steer;
use sd_io::{Gate, Shelf, Sink, SinkError};
use sd_report::write_text;
use sd_safe::show_normal_forms;
use sd_words::{Asked, read};
use std::alloc::Global;
use std::sync::Wait;
use std::thread::Threads;

/// The statuses of what may go wrong while text is written.
const NO_MEMORY: u8 = 1;

const WRITE_FAULT: u8 = 10;

/// The call that the words are.
fn called(alloc: Global, words: &[String]) -> Result<Asked<'_>, Ending<'_>>
    ensures call { IfOk result (λ call. IsCall (map string_bytes words.now) (call_of call)) }
    ensures refuses { (shelf : ShelfUse) → IfErr result (λ ending. IfSome (answer_of ending) (Answers (map string_bytes words.now) shelf)) }
{
    match read(alloc, words)? {
        Some(call) => Ok(call),
        None => Err(Ending::BadWords),
    }
}

/// What the words ask for, or why there is nothing to report.
fn outcome<'a, R: Threads + Wait + Sync, S: Shelf, G: Gate + Sync + Send>(
    rt: &R,
    alloc: Global,
    words: &'a [String],
    shelf: &mut S,
    gate: &G,
) -> Result<Report, Ending<'a>>
    ensures reports { IfOk result (λ report.
        Says (Answers (map string_bytes words.now) (shelf_use S.told S.faults S.overruns shelf.old shelf.new)) (reported report)) }
    ensures refuses { IfErr result (λ ending.
        IfSome (answer_of ending) (Answers (map string_bytes words.now) (shelf_use S.told S.faults S.overruns shelf.old shelf.new))) }
    ensures told_stays { (other : List ℕ) → S.told shelf.new other ≡ S.told shelf.old other }
    ensures faults_never_fall { (other : List ℕ) → S.faults shelf.old other ≤ S.faults shelf.new other }
    ensures overruns_never_fall { (other : List ℕ) → S.overruns shelf.old other ≤ S.overruns shelf.new other }
{
    let call = called(alloc, words)?;
    let work = prepare(alloc, call, shelf)?;
    show_normal_forms(&work.bound.graph);
    let kept = steer(alloc, call, work, shelf)?;
    Report::of(rt, alloc, call.command, kept, gate)
}

/// The status of a text that was written, or of what went wrong.
fn status_of(written: Result<(), SinkError>, status: u8) -> u8
    ensures { result ≡ written_status written status }
{
    match written {
        Ok(()) => status,
        Err(SinkError::Failed) => WRITE_FAULT,
        Err(SinkError::Memory) => NO_MEMORY,
    }
}

/// Writes how a call ends that has nothing to report. Nothing is written for want of memory.
fn tell<K: Sink>(alloc: Global, out: &mut K, ending: &Ending) -> u8
    ensures ends { (words : List (List ℕ)) (shelf : ShelfUse) → IfSome (answer_of ending.now) (Answers words shelf)
        → Ends words shelf (sink_use K.taken K.faults out.old out.new) result }
    ensures faults_never_fall { K.faults out.old ≤ K.faults out.new }
{
    match ending {
        Ending::Memory => NO_MEMORY,
        _ => match ending.line(alloc) {
            Ok(line) => status_of(write_text(out, line.as_bytes()), ending.status()),
            Err(_) => NO_MEMORY,
        },
    }
}

/// Does what the words ask, and answers the exit status.
fn perform<R: Threads + Wait + Sync, S: Shelf, K: Sink, G: Gate + Sync + Send>(
    rt: &R,
    alloc: Global,
    words: &[String],
    shelf: &mut S,
    out: &mut K,
    gate: &G,
) -> u8
    ensures ends { Ends (map string_bytes words.now) (shelf_use S.told S.faults S.overruns shelf.old shelf.new)
        (sink_use K.taken K.faults out.old out.new) result }
    ensures told_stays { (other : List ℕ) → S.told shelf.new other ≡ S.told shelf.old other }
    ensures faults_never_fall { (other : List ℕ) → S.faults shelf.old other ≤ S.faults shelf.new other }
    ensures overruns_never_fall { (other : List ℕ) → S.overruns shelf.old other ≤ S.overruns shelf.new other }
    ensures sink_faults_never_fall { K.faults out.old ≤ K.faults out.new }
{
    match outcome(rt, alloc, words, shelf, gate) {
        Ok(report) => status_of(report.write(alloc, out), report.status()),
        Err(ending) => tell(alloc, out, &ending),
    }
}

/// Does what the words ask: runs a source from the shelf on its arrays and writes the outcome into the sink, or
/// writes the text of its graph, what the race check tells of it, its plan or its matches, or why there is none of these. Answers the
/// exit status. Where a chain is named, all but the outcome is of the graph that the chain makes: that graph is run in the place of the source's,
/// and is not run where the race check refuses it. What is written of a run is the outcome of the source's own sequential run, whatever
/// the chain, the number of workers and the picks are; a run by picks writes its own steps before it, where they are asked for.
///
/// The words are those after the program's name. Two workers or more are threads of the runtime, and pass the gate.
pub fn sdfg<R: Threads + Wait + Sync, S: Shelf, K: Sink, G: Gate + Sync + Send>(
    rt: &R,
    alloc: Global,
    words: &[String],
    shelf: &mut S,
    out: &mut K,
    gate: &G,
) -> u8
    // The words ask for a run of files that are told and within their limits; by the grammar the source is a
    // program, and the arrays file is an object; where a chain file is named, each of its conditions holds on the graph as it then is, and
    // this other graph comes of the program's graph with the sizes; else the other graph is that graph. The scopes of the other graph are free of races;
    // no count of the files or of the sink rises. Then the sequential run of the program's own graph over the arrays has an outcome;
    // its text is appended and the status is its own, for every number of workers; or the source (3) or the arrays file (4) is refused, which
    // `statuses` tells exactly; or memory is wanting.
    ensures headline { (call : Call) (run : Run) (work : Work) (other : GraphTree)
        → Presents (map string_bytes words.now) (shelf_use S.told S.faults S.overruns shelf.old shelf.new) call work
        → call.command ≡ to_run run
        → Chained (shelf_use S.told S.faults S.overruns shelf.old shelf.new) call.chain work.tree other
        → IsRaceFree other
        → ¬ HasRisen (K.faults out.old) (K.faults out.new)
        → PrintsUnlessRefused work run.turns (sink_use K.taken K.faults out.old out.new) result }

    // Where the source is read as a program, so that nothing stands against it, the outcome is printed or memory is
    // wanting.
    ensures run { (call : Call) (run : Run) (work : Work) (other : GraphTree)
        → Asks (map string_bytes words.now) (shelf_use S.told S.faults S.overruns shelf.old shelf.new) call work
        → call.command ≡ to_run run
        → Chained (shelf_use S.told S.faults S.overruns shelf.old shelf.new) call.chain work.tree other
        → IsGraphAccepted other
        → ¬ HasRisen (K.faults out.old) (K.faults out.new)
        → Prints work run.turns (sink_use K.taken K.faults out.old out.new) result }

    // The words ask for a run of such files by the picks of a further one, which is told, within its limit and in its form.
    // Then exactly the text of the sequential run is appended, whatever the picks are, or memory is wanting.
    ensures interleaving { (call : Call) (step : Step) (picks : List ℕ) (work : Work) (other : GraphTree)
        → Asks (map string_bytes words.now) (shelf_use S.told S.faults S.overruns shelf.old shelf.new) call work
        → call.command ≡ to_step step → step.traces ≡ false
        → Chained (shelf_use S.told S.faults S.overruns shelf.old shelf.new) call.chain work.tree other
        → GivesPicks (shelf_use S.told S.faults S.overruns shelf.old shelf.new) call.command picks
        → IsGraphAccepted other
        → ¬ HasRisen (K.faults out.old) (K.faults out.new)
        → Prints work step.turns (sink_use K.taken K.faults out.old out.new) result }

    // Where its steps are asked for, the lines of the trace of the other graph's run by picks come before exactly that text.
    ensures trace { (call : Call) (step : Step) (picks : List ℕ) (work : Work) (other : GraphTree)
        → Asks (map string_bytes words.now) (shelf_use S.told S.faults S.overruns shelf.old shelf.new) call work
        → call.command ≡ to_step step → step.traces ≡ true
        → Chained (shelf_use S.told S.faults S.overruns shelf.old shelf.new) call.chain work.tree other
        → GivesPicks (shelf_use S.told S.faults S.overruns shelf.old shelf.new) call.command picks
        → IsGraphAccepted other
        → ¬ HasRisen (K.faults out.old) (K.faults out.new)
        → PrintsTraced work other picks step.turns (sink_use K.taken K.faults out.old out.new) result }

    // The words ask for the text of the graph of such files. Then exactly the text of the graph that the chain makes is appended, with the sizes
    // in their places, and the status is 0, or memory is wanting.
    ensures listing { (call : Call) (work : Work) (other : GraphTree)
        → Asks (map string_bytes words.now) (shelf_use S.told S.faults S.overruns shelf.old shelf.new) call work
        → call.command ≡ to_print
        → Chained (shelf_use S.told S.faults S.overruns shelf.old shelf.new) call.chain work.tree other
        → ¬ HasRisen (K.faults out.old) (K.faults out.new)
        → Lists other (sink_use K.taken K.faults out.old out.new) result }

    // The words ask for the race check of such files, and it accepts the graph that the chain makes. Then exactly what each scope
    // accesses is appended, and that the graph is accepted, and the status is 0, or memory is wanting.
    ensures verdict { (call : Call) (work : Work) (other : GraphTree)
        → Asks (map string_bytes words.now) (shelf_use S.told S.faults S.overruns shelf.old shelf.new) call work
        → call.command ≡ to_check
        → Chained (shelf_use S.told S.faults S.overruns shelf.old shelf.new) call.chain work.tree other
        → IsGraphAccepted other
        → ¬ HasRisen (K.faults out.old) (K.faults out.new)
        → Accepts other (sink_use K.taken K.faults out.old out.new) result }

    // The words ask for the plan of such files, and the race check accepts the graph that the chain makes. Then exactly its plan is
    // appended, and the status is 0, or memory is wanting.
    ensures planning { (call : Call) (work : Work) (other : GraphTree)
        → Asks (map string_bytes words.now) (shelf_use S.told S.faults S.overruns shelf.old shelf.new) call work
        → call.command ≡ to_plan
        → Chained (shelf_use S.told S.faults S.overruns shelf.old shelf.new) call.chain work.tree other
        → IsGraphAccepted other
        → ¬ HasRisen (K.faults out.old) (K.faults out.new)
        → TellsPlan other (sink_use K.taken K.faults out.old out.new) result }

    // The words ask for the rewrites that may be done on the graph of such files. Then exactly those of the graph that the chain makes are appended, as lines
    // of a chain file, and the status is 0, or memory is wanting.
    ensures matching { (call : Call) (work : Work) (other : GraphTree)
        → Asks (map string_bytes words.now) (shelf_use S.told S.faults S.overruns shelf.old shelf.new) call work
        → call.command ≡ to_match
        → Chained (shelf_use S.told S.faults S.overruns shelf.old shelf.new) call.chain work.tree other
        → ¬ HasRisen (K.faults out.old) (K.faults out.new)
        → TellsMatches other (sink_use K.taken K.faults out.old out.new) result }

    // The words ask for a run of such files, by picks or without, for their race check or for their plan, and the graph that the chain makes is not
    // accepted. Then exactly its race is appended, the first pair of accesses that is not accepted, and the status is
    // 6, or memory is wanting.
    ensures race { (call : Call) (work : Work) (other : GraphTree) (picks : List ℕ)
        → Asks (map string_bytes words.now) (shelf_use S.told S.faults S.overruns shelf.old shelf.new) call work
        → Chained (shelf_use S.told S.faults S.overruns shelf.old shelf.new) call.chain work.tree other
        → GivesPicks (shelf_use S.told S.faults S.overruns shelf.old shelf.new) call.command picks
        → MakesRaceCheck call.command
        → ¬ IsGraphAccepted other
        → ¬ HasRisen (K.faults out.old) (K.faults out.new)
        → TellsItsRace other (sink_use K.taken K.faults out.old out.new) result }

    // Which answer comes where, and what is written of it; want of memory alone is free.
    ensures answers { Ends (map string_bytes words.now) (shelf_use S.told S.faults S.overruns shelf.old shelf.new)
        (sink_use K.taken K.faults out.old out.new) result }

    // Each status but that of want of memory, with its cause.
    ensures statuses { Statuses (map string_bytes words.now) (shelf_use S.told S.faults S.overruns shelf.old shelf.new)
        (sink_use K.taken K.faults out.old out.new) result }

    // What is told stays, and no count falls.
    ensures told_stays { (other : List ℕ) → S.told shelf.new other ≡ S.told shelf.old other }
    ensures faults_never_fall { (other : List ℕ) → S.faults shelf.old other ≤ S.faults shelf.new other }
    ensures overruns_never_fall { (other : List ℕ) → S.overruns shelf.old other ≤ S.overruns shelf.new other }
    ensures sink_faults_never_fall { K.faults out.old ≤ K.faults out.new }
{
    perform(rt, alloc, words, shelf, out, gate)
}
