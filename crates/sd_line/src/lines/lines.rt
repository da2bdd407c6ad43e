//! The logical lines of a source, and whether a block of them is a tasklet.
ghost use Rattle.std.specs.Prelude.{◌≡◌, IfOk, slice_range};
ghost use Rattle.sd_line.specs.line.HeadFold.{head_tree};
ghost use Rattle.sd_line.specs.line.HeadReading.{head_of};
ghost use Rattle.sd_phrase.specs.Readings.{reading_map};
ghost use Rattle.sd_phrase.specs.Spans.{AreInside};
ghost use Rattle.sd_line.specs.lines.Lines as definition;
ghost use Rattle.sd_line.specs.lines.SourceLines.{Source, lines_of};

use crate::line::{BlockKind, Head, read_head};
use sd_list::NoMemory;
use sd_phrase::{Piece, Reading};
use std::alloc::Global;

/// A logical line: its words are those from one place up to another.
#[derive(Clone, Copy, Debug, PartialEq, Eq)]
pub struct LineSpan {
    /// The number of the physical line that it begins on.
    pub number: u32,
    /// Whether a block opens before it, and how many close.
    pub opens: bool,
    pub closes: usize,
    /// Whether it begins with a name and `<<` or `>>`.
    pub connects: bool,
    pub from: usize,
    pub to: usize,
}

/// Whether one of the lines is a connector line of the block that they stand in.
fn connects_from(lines: &[LineSpan]) -> bool
    ensures { (source : Source) → result ≡ definition.connects_from 0 (lines_of source.0 source.1 lines.now) }
{
    let mut inner: usize = 0;
    for line in lines {
        let now = if line.opens { inner + 1 } else { inner };
        if now < line.closes {
            return false;
        }
        if now == line.closes && line.connects {
            return true;
        }
        inner = now - line.closes;
    }
    false
}

/// Whether the lines begin with a block that has a connector line at its own level.
fn has_connector_line(lines: &[LineSpan]) -> bool
    ensures { (source : Source) → result ≡ definition.has_connector_line (lines_of source.0 source.1 lines.now) }
{
    match lines {
        [] => false,
        [line, rest @ ..] => line.opens && (line.connects || connects_from(rest)),
    }
}

fn is_consume(head: &Head) -> bool
    ensures { result ≡ definition.is_consume (head_tree head.now) }
{
    match head {
        Head::Consume { .. } => true,
        _ => false,
    }
}

/// Whether the block behind a line is the tasklet of a consume.
pub fn opens_tasklet(head: &Head, rest: &[LineSpan]) -> bool
    ensures { (source : Source) → result ≡ definition.opens_tasklet (head_tree head.now) (lines_of source.0 source.1 rest.now) }
{
    is_consume(head) && has_connector_line(rest)
}

/// What the words of a line say in a kind of block.
pub fn head_in(
    alloc: Global,
    text: &[u8],
    words: &[Piece],
    line: LineSpan,
    kind: BlockKind,
) -> Result<Reading<Head>, NoMemory>
    requires { AreInside text.now words.now }
    ensures { IfOk result (λ read. reading_map head_tree read ≡ head_of text.now kind line.number (slice_range words.now line.from line.to)) }
{
    if line.from <= line.to && line.to <= words.len() {
        read_head(alloc, text, kind, line.number, &words[line.from..line.to])
    } else {
        Err(NoMemory)
    }
}
