//! The program `sdfg`: the words after its name, run over the system's files and the
//! standard output.
//!
//! `main` is one call of `run`, whose contract says what is written and with which status the
//! program ends, whatever words the system gives; so too where it gives none. The two
//! adapters keep the clauses of `Shelf` and `Sink` over any files and any writer, as far as
//! these tell their bytes; the system's tell none. Nothing goes to the standard error.
#![tactic(auto)]

ghost use Rattle.std.specs.Prelude.{◌≡◌, ◌≢◌, [], drop, map, string_bytes, IfOk, IfErr, IsErr};
ghost use Rattle.std.specs.Process.{exit_status};
ghost use Rattle.std.specs.Vec.Iter.{into_iter_items};
ghost use Rattle.std.specs.IoError.{error_kind};
ghost use Rattle.sd_tool.specs.Files.{shelf_use};
ghost use Rattle.sd_tool.specs.Ends.{Ends, Writes, sink_use};
ghost use Rattle.sdfg.specs.BadWords.{RefusesWords};

mod counts;
mod file_shelf;
mod out_sink;

use crate::file_shelf::FileShelf;
use crate::out_sink::OutSink;
use sd_io::{Open, Shelf, Sink, SinkError};
use std::alloc::{AllocError, Global};
use std::env::{self, Args};
use std::io::{self, ErrorKind};
use std::process::ExitCode;
use std::sync::Wait;
use std::thread::Threads;

fn main(rt: HostRuntime) -> ExitCode {
    let mut shelf = FileShelf::new(&rt);
    let mut out = OutSink::new(rt.stdout());
    run(&rt, rt.alloc(), env::args(&rt), &mut shelf, &mut out)
}

/// Does what the words after the first ask, which is the program's name, and gives the status
/// to end with.
///
/// The system gives the words as a whole: where one of them is not text it gives none, and
/// that is told as words that are no command.
fn run<R: Threads + Wait + Sync, S: Shelf, K: Sink>(
    rt: &R,
    alloc: Global,
    given: io::Result<Args>,
    shelf: &mut S,
    out: &mut K,
) -> ExitCode
    ensures words { IfOk given (λ given. Ends (map string_bytes (drop 1 (into_iter_items given)))
        (shelf_use S.told S.faults S.overruns shelf.old shelf.new) (sink_use K.taken K.faults out.old out.new) (exit_status result)) }
    ensures no_memory { IfErr given (λ error. error_kind error ≡ ErrorKind.OutOfMemory
        → (exit_status result ≡ 1) × Writes (sink_use K.taken K.faults out.old out.new) []) }
    ensures no_text { IfErr given (λ error. error_kind error ≢ ErrorKind.OutOfMemory
        → RefusesWords (sink_use K.taken K.faults out.old out.new) (exit_status result)) }
    ensures nothing_read { IsErr given → shelf.new ≡ shelf.old }
{
    match given {
        Ok(given) => ExitCode::from(perform(rt, alloc, given, shelf, out)),
        Err(error) => match error.kind() {
            ErrorKind::OutOfMemory => ExitCode::from(1),
            _ => ExitCode::from(refuse(out)),
        },
    }
}

/// Does what the words after the first ask, and answers the status of that.
fn perform<R: Threads + Wait + Sync, S: Shelf, K: Sink>(
    rt: &R,
    alloc: Global,
    given: Args,
    shelf: &mut S,
    out: &mut K,
) -> u8
    ensures { Ends (map string_bytes (drop 1 (into_iter_items given)))
        (shelf_use S.told S.faults S.overruns shelf.old shelf.new) (sink_use K.taken K.faults out.old out.new) result }
{
    match after_first(alloc, given) {
        Ok(words) => sd_tool::sdfg(rt, alloc, words.as_slice(), shelf, out, &Open),
        Err(_) => 1,
    }
}

/// All words but the first.
fn after_first(alloc: Global, given: Args) -> Result<Vec<String>, AllocError>
    ensures { IfOk result (λ words. words.items ≡ drop 1 (into_iter_items given)) }
{
    let mut rest = given;
    let mut words = Vec::new(alloc);
    rest.next();
    while let Some(word) = rest.next() {
        words.push(word)?;
    }
    Ok(words)
}

/// Writes that the words are no command, and answers the status of that.
fn refuse<K: Sink>(out: &mut K) -> u8
    ensures { RefusesWords (sink_use K.taken K.faults out.old out.new) result }
{
    match out.write(b"bad words\n") {
        Ok(()) => 2,
        Err(SinkError::Failed) => 10,
        Err(SinkError::Memory) => 1,
    }
}
