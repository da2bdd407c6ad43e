//! What a line says, whatever its kind of block.
ghost use Rattle.std.specs.Prelude.{◌≡◌, IfOk};
ghost use Rattle.sd_line.specs.line.HeadFold.{head_tree};
ghost use Rattle.sd_line.specs.line.HeadReading as definition;
ghost use Rattle.sd_phrase.specs.Readings.{reading_map};
ghost use Rattle.sd_phrase.specs.Spans.{AreInside};

use crate::line::body::read_body_line;
use crate::line::head::{BlockKind, Head};
use crate::line::tasklet::read_tasklet_line;
use crate::line::top::read_top_line;
use sd_list::NoMemory;
use sd_phrase::{Piece, Reading, is_balanced};
use std::alloc::Global;

/// What the tokens of a line say in a block of this kind. The tokens are those of the line alone,
/// without the marks of its end and of blocks; the first of them stands on this physical line.
pub fn read_head(
    alloc: Global,
    text: &[u8],
    kind: BlockKind,
    line: u32,
    tokens: &[Piece],
) -> Result<Reading<Head>, NoMemory>
    requires { AreInside text.now tokens.now }
    ensures { IfOk result (λ r. reading_map head_tree r ≡ definition.head_of text.now kind line tokens.now) }
{
    if !is_balanced(tokens) {
        return Ok(Reading::NoForm);
    }
    match kind {
        BlockKind::Top => read_top_line(alloc, text, line, tokens),
        BlockKind::Program => read_body_line(alloc, text, BlockKind::Program, line, tokens),
        BlockKind::Scope => read_body_line(alloc, text, BlockKind::Scope, line, tokens),
        BlockKind::Tasklet => read_tasklet_line(alloc, text, line, tokens),
    }
}
