//! The states that are made where a block ends.
ghost use Rattle.std.specs.Prelude.{◌≡◌, map};
ghost use Rattle.sd_lex.specs.TreeFold.{statement_of};
ghost use Rattle.sd_context.specs.context.ContextFold.{open_block_of, branch_of};
ghost use Rattle.sd_context.specs.blocks.Closing as definition;
ghost use Rattle.sd_context.specs.blocks.StepFold.{counted};

use crate::blocks::refusal::Refusal;
use crate::context::{Branch, OpenBlock, Opener};
use sd_lex::Statement;
use sd_line::BlockKind;
use sd_refusal::Counts;

pub fn is_loop(statement: &Statement) -> bool
    ensures { result ≡ definition.is_loop (statement_of statement.now) }
{
    matches!(statement, Statement::For { .. } | Statement::While { .. })
}

/// One more state, which counts at this line.
pub fn count_state(counts: &mut Counts, line: u32) -> Result<(), Refusal>
    ensures { counted result counts.new ≡ definition.state_counted counts.old line }
{
    if 255 < counts.states {
        return Err(Refusal { number: 8, line });
    }
    counts.states += 1;
    Ok(())
}

/// One more state for each of the branches, the last one first.
#[tactic(auto, using(crate::proofs::blocks_lemmas::ClosingLemmas::lines_more))]
fn count_branches(counts: &mut Counts, branches: &[Branch]) -> Result<(), Refusal>
    ensures { counted result counts.new ≡ definition.states_counted counts.old (definition.lines_of (map branch_of branches.now)) }
{
    let mut left = branches.len();
    while 0 < left {
        left -= 1;
        count_state(counts, branches[left].line)?;
    }
    Ok(())
}

/// Counts the states that are made where a block ends.
pub fn count_late_states(counts: &mut Counts, block: &OpenBlock) -> Result<(), Refusal>
    ensures { counted result counts.new ≡ definition.states_counted counts.old (definition.late_states (open_block_of block.now)) }
{
    if block.kind != BlockKind::Program {
        return Ok(());
    }
    match &block.opener {
        Opener::Statement(statement) => {
            if is_loop(statement) {
                count_state(counts, block.line)?;
            }
            Ok(())
        }
        Opener::If { earlier, .. } => {
            count_state(counts, block.line)?;
            count_branches(counts, earlier)
        }
        Opener::Else { earlier } => count_branches(counts, earlier),
        _ => Ok(()),
    }
}
