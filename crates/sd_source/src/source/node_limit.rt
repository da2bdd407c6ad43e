//! The limits on nodes, which stand against a source as a whole.
ghost use Rattle.std.specs.Prelude.{◌≡◌, IfOk};
ghost use Rattle.sd_phrase.specs.Spans.{AreInside};
ghost use Rattle.sd_line.specs.lines.SourceLines.{lines_of};
ghost use Rattle.sd_source.specs.source.NodeRefusal as definition;
ghost use Rattle.sd_source.specs.source.Parsed.{parsed};
ghost use Rattle.sd_source.specs.source.Prefix.{count_of_lines};

use crate::nodes::first_over;
use crate::source::prefix::program_before_refusal;
use sd_context::Refusal;
use sd_lex::Program;
use sd_line::LineSpan;
use sd_list::NoMemory;
use sd_phrase::Piece;
use std::alloc::Global;

/// Of two refusals the one of the lesser line, on one line that with the lesser number.
fn first_of(a: Refusal, b: Refusal) -> Refusal
    ensures { result ≡ definition.first_of a b }
{
    if a.line < b.line || a.line == b.line && a.number < b.number {
        a
    } else {
        b
    }
}

fn node_refusal(line: u32) -> Refusal
    ensures { result ≡ definition.node_refusal line }
{
    Refusal { number: 8, line }
}

/// What lines say, within the limits on nodes; so many of them stand before the first that is refused.
pub fn within_nodes(
    alloc: Global,
    text: &[u8],
    words: &[Piece],
    lines: &[LineSpan],
    read: Result<Program, Refusal>,
    count: usize,
) -> Result<Result<Program, Refusal>, NoMemory>
    requires inside { AreInside text.now words.now }
    requires count { count ≡ count_of_lines (lines_of text.now words.now lines.now) }
    ensures { IfOk result (λ program. parsed program ≡ definition.within_nodes (lines_of text.now words.now lines.now) (parsed read)) }
{
    match read {
        Ok(program) => match first_over(alloc, &program)? {
            None => Ok(Ok(program)),
            Some(line) => Ok(Err(node_refusal(line))),
        },
        Err(refusal) => {
            let before = program_before_refusal(alloc, text, words, lines, count)?;
            match first_over(alloc, &before)? {
                None => Ok(Err(refusal)),
                Some(line) => Ok(Err(first_of(node_refusal(line), refusal))),
            }
        }
    }
}
