//! What has to come behind a line, and whether a line is what has to come.
ghost use Rattle.std.specs.Prelude.{◌≡◌, IfOk};
ghost use Rattle.sd_lex.specs.TreeFold.{statement_of};
ghost use Rattle.sd_line.specs.line.HeadFold.{head_tree};
ghost use Rattle.sd_phrase.specs.Readings.{reading_map};
ghost use Rattle.sd_context.specs.context.Awaiting as definition;
ghost use Rattle.sd_context.specs.context.ContextFold.{awaited_of};

use crate::context::context::Awaited;
use sd_lex::Statement;
use sd_line::Head;
use sd_list::NoMemory;
use sd_phrase::Reading;
use std::alloc::Global;

/// Which `def` has to come next.
#[derive(Clone, Copy, Debug, PartialEq, Eq)]
pub enum Wanted {
    /// None.
    Other,
    Program,
    Consume,
}

/// What has to come behind a statement.
fn awaited_behind_statement(statement: &Statement) -> Awaited
    ensures { awaited_of result ≡ definition.statement_awaits (statement_of statement.now) }
{
    match statement {
        Statement::Argument { .. } => Awaited::Block,
        Statement::Map { .. } => Awaited::Block,
        Statement::Tasklet { .. } => Awaited::Block,
        Statement::For { .. } => Awaited::Block,
        Statement::While { .. } => Awaited::Block,
        Statement::If { .. } => Awaited::Block,
        Statement::When { .. } => Awaited::Block,
        _ => Awaited::Nothing,
    }
}

/// What has to come behind a line.
pub fn awaited_behind(alloc: Global, line: u32, head: &Head) -> Result<Awaited, NoMemory>
    ensures { IfOk result (λ awaited. awaited_of awaited ≡ definition.awaited_behind line (head_tree head.now)) }
{
    match head {
        Head::ProgramDecorator => Ok(Awaited::FunctionDef(line)),
        Head::Statement(statement) => Ok(awaited_behind_statement(statement)),
        Head::ConsumeDecorator { stream, size } => {
            let stream = String::from_str(alloc, stream)?;
            Ok(Awaited::ConsumeDef {
                line,
                stream,
                size: *size,
            })
        }
        Head::Program { .. } => Ok(Awaited::Block),
        Head::Consume { .. } => Ok(Awaited::Block),
        Head::Elif(_) => Ok(Awaited::Block),
        Head::Else => Ok(Awaited::Block),
        _ => Ok(Awaited::Nothing),
    }
}

/// Whether a block opens where and only where one is awaited, and none ends before it or a `def`.
pub fn comes_right(awaited: &Awaited, opens: bool, closes: usize) -> bool
    ensures { result ≡ definition.comes_right (awaited_of awaited.now) opens closes }
{
    match awaited {
        Awaited::Nothing => !opens,
        Awaited::Block => opens && closes == 0,
        Awaited::FunctionDef(_) => !opens && closes == 0,
        Awaited::ConsumeDef { .. } => !opens && closes == 0,
    }
}

/// The number against a line that does not come right.
pub fn wrong_number(read: &Reading<Head>) -> u8
    ensures { result ≡ definition.wrong_number (reading_map head_tree read.now) }
{
    match read {
        Reading::NoForm => 4,
        Reading::TooDeep => 8,
        Reading::Form(_) => 4,
    }
}

pub fn wanted_of(awaited: &Awaited) -> Wanted
    ensures { result ≡ definition.wanted_of (awaited_of awaited.now) }
{
    match awaited {
        Awaited::Nothing => Wanted::Other,
        Awaited::Block => Wanted::Other,
        Awaited::FunctionDef(_) => Wanted::Program,
        Awaited::ConsumeDef { .. } => Wanted::Consume,
    }
}

/// Whether a `def` stands where and only where it is wanted.
pub fn is_wanted(wanted: Wanted, head: &Head) -> bool
    ensures { result ≡ definition.is_wanted wanted (head_tree head.now) }
{
    match head {
        Head::Program { .. } => wanted == Wanted::Program,
        Head::Consume { .. } => wanted == Wanted::Consume,
        _ => wanted == Wanted::Other,
    }
}
