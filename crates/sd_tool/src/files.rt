//! The files of a call.
ghost use Rattle.std.specs.Prelude.{◌≡◌, ◌≤◌, ℕ, List, option_map, IfOk, IfErr, IfSome};
ghost use Rattle.sd_part.specs.Whole.{IsOfWidths};
ghost use Rattle.sd_words.specs.Command.{IsCall, call_of};
ghost use Rattle.sd_tool.specs.Answers.{Comes, Answers};
ghost use Rattle.sd_tool.specs.Ending.{answer_of};
ghost use Rattle.sd_tool.specs.Files.{Reads, Unread, ReadsNamed, UnreadNamed, shelf_use};
ghost use Rattle.sd_tool.specs.Workspace.{work_of};

use crate::ending::Ending;
use crate::workspace::{Workspace, prepared, source_graph};
use sd_io::{Shelf, ShelfError};
use sd_words::Asked;
use std::alloc::Global;

/// The most bytes of a source and of an arrays file.
const SOURCE_LIMIT: usize = 1 << 20;

const ARRAYS_LIMIT: usize = 1 << 26;

/// A file's content, or why it is not read.
fn content<'a, S: Shelf>(
    alloc: Global,
    shelf: &mut S,
    name: &'a str,
    most: usize,
) -> Result<Vec<u8>, Ending<'a>>
    ensures read { IfOk result (λ bytes. Reads (shelf_use S.told S.faults S.overruns shelf.old shelf.new) name.now most bytes.items) }
    ensures unread { IfErr result (λ ending.
        IfSome (answer_of ending) (Unread (shelf_use S.told S.faults S.overruns shelf.old shelf.new) name.now most)) }
    ensures told_stays { (other : List ℕ) → S.told shelf.new other ≡ S.told shelf.old other }
    ensures faults_never_fall { (other : List ℕ) → S.faults shelf.old other ≤ S.faults shelf.new other }
    ensures overruns_never_fall { (other : List ℕ) → S.overruns shelf.old other ≤ S.overruns shelf.new other }
{
    match shelf.read(alloc, name, most) {
        Ok(bytes) => Ok(bytes),
        Err(ShelfError::Failed) => Err(Ending::ReadFault(name)),
        Err(ShelfError::TooLong) => Err(Ending::TooLong(name)),
        Err(ShelfError::Memory) => Err(Ending::Memory),
    }
}

/// What the two files of a call come to, or why they come to nothing. The source is refused before the arrays
/// file is read.
pub(crate) fn prepare<'a, S: Shelf>(
    alloc: Global,
    call: Asked<'a>,
    shelf: &mut S,
) -> Result<Workspace, Ending<'a>>
    ensures comes { (words : List (List ℕ)) → IsCall words (call_of call.entry)
        → IfOk result (λ opened. Comes words (shelf_use S.told S.faults S.overruns shelf.old shelf.new) (call_of call.entry) (work_of opened)) }
    ensures refuses { (words : List (List ℕ)) → IsCall words (call_of call.entry)
        → IfErr result (λ ending. IfSome (answer_of ending) (Answers words (shelf_use S.told S.faults S.overruns shelf.old shelf.new))) }
    ensures widths { IfOk result (λ opened. IsOfWidths opened.memory) }
    ensures told_stays { (other : List ℕ) → S.told shelf.new other ≡ S.told shelf.old other }
    ensures faults_never_fall { (other : List ℕ) → S.faults shelf.old other ≤ S.faults shelf.new other }
    ensures overruns_never_fall { (other : List ℕ) → S.overruns shelf.old other ≤ S.overruns shelf.new other }
{
    let text = content(alloc, shelf, call.source, SOURCE_LIMIT)?;
    let graph = source_graph(alloc, text)?;
    let file = content(alloc, shelf, call.arrays, ARRAYS_LIMIT)?;
    prepared(alloc, graph, file)
}

/// The content of a file, where it is named, and nothing where it is not.
pub(crate) fn named<'a, S: Shelf>(
    alloc: Global,
    shelf: &mut S,
    name: Option<&'a str>,
    most: usize,
) -> Result<Vec<u8>, Ending<'a>>
    ensures read { IfOk result (λ bytes. ReadsNamed (shelf_use S.told S.faults S.overruns shelf.old shelf.new) (option_map (λ given. given.now) name.entry) most bytes.items) }
    ensures unread { IfErr result (λ ending.
        IfSome (answer_of ending) (UnreadNamed (shelf_use S.told S.faults S.overruns shelf.old shelf.new) (option_map (λ given. given.now) name.entry) most)) }
    ensures told_stays { (other : List ℕ) → S.told shelf.new other ≡ S.told shelf.old other }
    ensures faults_never_fall { (other : List ℕ) → S.faults shelf.old other ≤ S.faults shelf.new other }
    ensures overruns_never_fall { (other : List ℕ) → S.overruns shelf.old other ≤ S.overruns shelf.new other }
{
    match name {
        Some(name) => content(alloc, shelf, name, most),
        None => Ok(Vec::new(alloc)),
    }
}
