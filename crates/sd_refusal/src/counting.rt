//! What a line counts.
ghost use Rattle.std.specs.Prelude.{◌≡◌, ◌+◌, IfOk};
ghost use Rattle.sd_lex.specs.TreeFold.{statement_of};
ghost use Rattle.sd_line.specs.line.HeadFold.{head_tree};
ghost use Rattle.sd_refusal.specs.Counting as counting;
ghost use Rattle.sd_names.specs.Names.{signature_by, meaning_of};
ghost use Rattle.sd_refusal.specs.OverLimit as over;

use crate::over_limit::{new_containers, new_lines, new_states};
use crate::site::Counts;
use sd_lex::Statement;
use sd_line::{BlockKind, Head};
use sd_list::NoMemory;
use sd_names::Names;

/// The length of the chain of calls that a call of the program makes.
fn program_depth(names: &Names, name: &str) -> Result<usize, NoMemory>
    ensures { IfOk result (λ depth. depth ≡ over.depth_by (signature_by (meaning_of names.now name.now))) }
{
    match names.signature(name) {
        Some(signature) => signature.depth.checked_add(1).ok_or(NoMemory),
        None => Ok(0),
    }
}

fn statement_depth(names: &Names, statement: &Statement) -> Result<usize, NoMemory>
    ensures { IfOk result (λ depth. depth ≡ over.statement_call_depth names.now (statement_of statement.now)) }
{
    match statement {
        Statement::Call { name, .. } => program_depth(names, name),
        _ => Ok(0),
    }
}

/// The longest chain of calls that a line makes.
fn call_depth(names: &Names, head: &Head) -> Result<usize, NoMemory>
    ensures { IfOk result (λ depth. depth ≡ over.call_depth names.now (head_tree head.now)) }
{
    match head {
        Head::Statement(statement) => statement_depth(names, statement),
        _ => Ok(0),
    }
}

/// Whether the line is an input or output of a tasklet.
pub fn is_connector(head: &Head) -> bool
    ensures { result ≡ counting.is_connector (head_tree head.now) }
{
    match head {
        Head::Input { .. } => true,
        Head::Output { .. } => true,
        _ => false,
    }
}

fn new_connectors(head: &Head) -> usize
    ensures { result ≡ counting.new_connectors (head_tree head.now) }
{
    if is_connector(head) { 1 } else { 0 }
}

fn sum(count: usize, more: usize) -> Result<usize, NoMemory>
    ensures { IfOk result (λ all. all ≡ count + more) }
{
    match count.checked_add(more) {
        Some(all) => Ok(all),
        None => Err(NoMemory),
    }
}

/// What is counted behind a line that stands in a block of this kind. Where the line ends blocks, their
/// states are counted before.
pub fn counts_behind(
    names: &Names,
    counts: Counts,
    kind: BlockKind,
    head: &Head,
) -> Result<Counts, NoMemory>
    ensures { IfOk result (λ all. all ≡ counting.counts_behind names.now counts kind (head_tree head.now)) }
{
    let containers = sum(counts.containers, new_containers(head))?;
    let states = sum(counts.states, new_states(kind, head))?;
    let calls = counts.calls.max(call_depth(names, head)?);
    let connectors = sum(counts.connectors, new_connectors(head))?;
    let lines = sum(counts.lines, new_lines(kind))?;
    Ok(Counts {
        containers,
        states,
        calls,
        connectors,
        lines,
    })
}
