ghost use Rattle.std.specs.Prelude.{◌≡◌, IfOk, MatchOption, List, [], map, string_bytes};
ghost use Rattle.clap.specs.Words.{Row, found_of, rows_of};
ghost use Rattle.sd_words.specs.Finding.{Finds};
ghost use Rattle.sd_words.specs.Arguments.{word_of, others_of, running, stepping};
ghost use Rattle.sd_words.specs.Command.{AskFor, Call, Give, IsCall, to_run, to_step, run_of, step_of, command_of, call_of, kind_of};
ghost use Rattle.sd_words.specs.Parsed.{IsCallOf};

use crate::asked::{Asked, Command, Run, Step};
use crate::commands;
use crate::parsed::{is_there, parse, text, told};
use clap::ArgMatches;
use sd_list::NoMemory;
use std::alloc::Global;

/// The turns of a run where no word tells them.
const TURNS: u64 = 10_000_000;

/// The most turns of a run.
const MOST_TURNS: u64 = 1 << 40;

/// The most workers of a run.
const MOST_WORKERS: u64 = 64;

/// The run that the arguments ask for.
fn run_in(matches: &ArgMatches<'_>) -> Option<Run>
    ensures { Finds run_of (λ run. AskFor (rows_of (found_of matches.now)) (to_run run)) result }
{
    let turns = told(matches, "turns", TURNS, 1, MOST_TURNS)?;
    let workers = told(matches, "workers", 1, 1, MOST_WORKERS)?;
    Some(Run { turns, workers })
}

/// The run by picks that the arguments ask for.
fn step_in<'a>(matches: &ArgMatches<'a>) -> Option<Step<'a>>
    ensures { Finds step_of (λ step. AskFor (rows_of (found_of matches.now)) (to_step step)) result }
{
    let picks = text(matches, "picks")?;
    let turns = told(matches, "turns", TURNS, 1, MOST_TURNS)?;
    let traces = is_there(matches, "trace");
    Some(Step {
        picks,
        turns,
        traces,
    })
}

/// The files that the arguments name, with what is asked of them.
fn with_files<'a>(matches: &ArgMatches<'a>, command: Command<'a>) -> Option<Asked<'a>>
    requires { AskFor (rows_of (found_of matches.now)) (command_of command) }
    ensures { MatchOption result ((other : Call) → Give (rows_of (found_of matches.now)) other → ⊥)
        (λ asked. Give (rows_of (found_of matches.now)) (call_of asked) × (asked.command ≡ command.entry)) }
{
    let source = text(matches, "source")?;
    let arrays = text(matches, "arrays")?;
    let chain = text(matches, "chain");
    Some(Asked {
        source,
        arrays,
        chain,
        command,
    })
}

/// The call of `run` that the words are.
fn run(alloc: Global, words: &[String]) -> Result<Option<Asked<'_>>, NoMemory>
    ensures { IfOk result (Finds call_of (IsCallOf running (map string_bytes words.now))) }
{
    let Some(matches) = parse(commands::run(alloc)?, words)? else {
        return Ok(None);
    };
    let Some(run) = run_in(&matches) else {
        return Ok(None);
    };
    Ok(with_files(&matches, Command::Run(run)))
}

/// The call of `step` that the words are.
fn step(alloc: Global, words: &[String]) -> Result<Option<Asked<'_>>, NoMemory>
    ensures { IfOk result (Finds call_of (IsCallOf stepping (map string_bytes words.now))) }
{
    let Some(matches) = parse(commands::step(alloc)?, words)? else {
        return Ok(None);
    };
    let Some(step) = step_in(&matches) else {
        return Ok(None);
    };
    Ok(with_files(&matches, Command::Step(step)))
}

/// The call that the words are of a command that has no argument besides the files.
fn other<'a>(
    alloc: Global,
    words: &'a [String],
    name: &'a str,
    command: Command<'a>,
) -> Result<Option<Asked<'a>>, NoMemory>
    requires name { name.now ≡ word_of (kind_of (command_of command)) }
    requires alone { others_of (kind_of (command_of command)) ≡ [] }
    requires asks { (arguments : List Row) → AskFor arguments (command_of command) }
    ensures { IfOk result (Finds call_of (IsCallOf (kind_of (command_of command.entry)) (map string_bytes words.now))) }
{
    let Some(matches) = parse(commands::with_files(alloc, name)?, words)? else {
        return Ok(None);
    };
    Ok(with_files(&matches, command))
}

/// The files that the words name and what they ask of them, where the first word is a command and clap finds its
/// arguments in the others.
pub fn read(alloc: Global, words: &[String]) -> Result<Option<Asked<'_>>, NoMemory>
    ensures { IfOk result (Finds call_of (IsCall (map string_bytes words.now))) }
{
    let Some(first) = words.first() else {
        return Ok(None);
    };
    match first.as_str() {
        "run" => run(alloc, words),
        "step" => step(alloc, words),
        "print" => other(alloc, words, "print", Command::Print),
        "check" => other(alloc, words, "check", Command::Check),
        "plan" => other(alloc, words, "plan", Command::Plan),
        "matches" => other(alloc, words, "matches", Command::Matches),
        _ => Ok(None),
    }
}
