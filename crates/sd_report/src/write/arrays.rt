//! Writes arrays, of which only a part is text at a time.
ghost use Rattle.std.specs.Prelude.{◌≡◌, ◌≤◌, ◌++◌, IfOk, OnOk, OnErr, IsErrOf};
ghost use Rattle.sd_io.specs.Count.{HasRisen};
ghost use Rattle.sd_io.specs.Sink.{Appends, AppendsPrefix};
ghost use Rattle.sd_work.specs.Memory.{elements_of};
ghost use Rattle.sd_graph.specs.TreeFold.{graph_tree};
ghost use Rattle.sd_mem.specs.mem.Cells.{array_lent};
ghost use Rattle.sd_json.specs.AnswerText as lines;
ghost use Rattle.sd_report.specs.write.Pieces.{AppendsAllBut};
ghost use Rattle.sd_report.specs.write.RunText.{done_text};

use crate::write::output;
use sd_graph::Bound;
use sd_io::{Sink, SinkError};
use sd_json::{elements_text, line_head};
use sd_mem::{Elements, Memory};
use sd_num::Cell;
use std::alloc::Global;

/// How many elements are made into text at a time.
const PART: usize = 64;

/// Adds the elements of cells to a line, each after a space, and writes the pieces of it that are whole.
fn write_part<K: Sink, T: Cell>(
    alloc: Global,
    out: &mut K,
    line: Vec<u8>,
    part: &[T],
) -> Result<Vec<u8>, SinkError>
    ensures ok { IfOk result (λ rest. AppendsAllBut (K.taken out.old) (K.taken out.new) (line.items ++ lines.cells_text T.element part.now) rest.items) }
    ensures err { OnErr result (AppendsPrefix (K.taken out.old) (K.taken out.new) (line.items ++ lines.cells_text T.element part.now)) }
    ensures failed { IsErrOf result SinkError.Failed → HasRisen (K.faults out.old) (K.faults out.new) }
    ensures faults_never_fall { K.faults out.old ≤ K.faults out.new }
{
    let mut line = line;
    let Ok(text) = elements_text(alloc, part) else {
        return Err(SinkError::Memory);
    };
    if line.extend_from_slice(text.as_bytes()).is_err() {
        return Err(SinkError::Memory);
    }
    output::write_pieces(out, line)
}

/// The same of many cells, of which only a part is text at a time.
fn write_cells<K: Sink, T: Cell>(
    alloc: Global,
    out: &mut K,
    line: Vec<u8>,
    cells: &[T],
) -> Result<Vec<u8>, SinkError>
    ensures ok { IfOk result (λ rest. AppendsAllBut (K.taken out.old) (K.taken out.new) (line.items ++ lines.cells_text T.element cells.now) rest.items) }
    ensures err { OnErr result (AppendsPrefix (K.taken out.old) (K.taken out.new) (line.items ++ lines.cells_text T.element cells.now)) }
    ensures failed { IsErrOf result SinkError.Failed → HasRisen (K.faults out.old) (K.faults out.new) }
    ensures faults_never_fall { K.faults out.old ≤ K.faults out.new }
{
    let mut line = line;
    let mut rest = cells;
    while !rest.is_empty() {
        let (part, others) = rest.split_at(rest.len().min(PART));
        line = write_part(alloc, out, line, part)?;
        rest = others;
    }
    Ok(line)
}

/// The same of elements of either width.
fn write_elements<K: Sink>(
    alloc: Global,
    out: &mut K,
    line: Vec<u8>,
    elements: Elements,
) -> Result<Vec<u8>, SinkError>
    ensures ok { IfOk result (λ rest. AppendsAllBut (K.taken out.old) (K.taken out.new) (line.items ++ lines.elements_text (elements_of (array_lent elements.entry))) rest.items) }
    ensures err { OnErr result (AppendsPrefix (K.taken out.old) (K.taken out.new) (line.items ++ lines.elements_text (elements_of (array_lent elements.entry)))) }
    ensures failed { IsErrOf result SinkError.Failed → HasRisen (K.faults out.old) (K.faults out.new) }
    ensures faults_never_fall { K.faults out.old ≤ K.faults out.new }
{
    match elements {
        Elements::W32(cells) => write_cells(alloc, out, line, cells),
        Elements::W64(cells) => write_cells(alloc, out, line, cells),
    }
}

/// Writes the line of an argument. Little of it is kept at a time, however many elements it has.
fn write_array<K: Sink>(
    alloc: Global,
    out: &mut K,
    bound: &Bound,
    memory: &Memory,
    argument: u32,
) -> Result<(), SinkError>
    ensures ok { OnOk result (Appends (K.taken out.old) (K.taken out.new) (lines.container_line (graph_tree bound.now.graph) memory.now argument)) }
    ensures err { OnErr result (AppendsPrefix (K.taken out.old) (K.taken out.new) (lines.container_line (graph_tree bound.now.graph) memory.now argument)) }
    ensures failed { IsErrOf result SinkError.Failed → HasRisen (K.faults out.old) (K.faults out.new) }
    ensures faults_never_fall { K.faults out.old ≤ K.faults out.new }
{
    let Ok(head) = line_head(alloc, bound, argument) else {
        return Err(SinkError::Memory);
    };
    let elements = memory.cells(argument);
    let mut line = write_elements(alloc, out, head.into_bytes(), elements)?;
    if line.push(b'\n').is_err() {
        return Err(SinkError::Memory);
    }
    output::write_text(out, line.as_slice())
}

/// Writes the line of each argument, one after another.
pub(crate) fn write_arrays<K: Sink>(
    alloc: Global,
    out: &mut K,
    bound: &Bound,
    memory: &Memory,
) -> Result<(), SinkError>
    ensures ok { OnOk result (Appends (K.taken out.old) (K.taken out.new) (done_text (graph_tree bound.now.graph) memory.now.contents)) }
    ensures err { OnErr result (AppendsPrefix (K.taken out.old) (K.taken out.new) (done_text (graph_tree bound.now.graph) memory.now.contents)) }
    ensures failed { IsErrOf result SinkError.Failed → HasRisen (K.faults out.old) (K.faults out.new) }
    ensures faults_never_fall { K.faults out.old ≤ K.faults out.new }
{
    for argument in 0..bound.graph.arguments {
        write_array(alloc, out, bound, memory, argument)?;
    }
    Ok(())
}
