//! The context behind a line that is not refused.
ghost use Rattle.std.specs.Prelude.{◌≡◌, IfOk, OnOk};
ghost use Rattle.sd_lex.specs.TreeFold.{statement_of};
ghost use Rattle.sd_line.specs.line.HeadFold.{head_tree};
ghost use Rattle.sd_names.specs.Names.{named_entries};
ghost use Rattle.sd_context.specs.context.After as definition;
ghost use Rattle.sd_context.specs.context.ContextFold.{context_of};

use crate::context::awaiting::awaited_behind;
use crate::context::block::InForce;
use crate::context::context::{Awaited, Context, NO_COUNTS};
use crate::context::declaring::{declare, extents_or_one};
use crate::context::writing::note_written;
use sd_lex::Statement;
use sd_line::{BlockKind, Head};
use sd_list::NoMemory;
use sd_names::{Extents, Names};
use sd_refusal::{Counts, counts_behind, is_connector};
use std::alloc::Global;

/// Adds the parameter that an argument is.
fn push_parameter(
    alloc: Global,
    names: &Names,
    parameters: &mut Vec<(String, Extents)>,
    statement: &Statement,
) -> Result<(), NoMemory>
    ensures { OnOk result (named_entries parameters.new.items ≡ definition.statement_parameters names.now (named_entries parameters.old.items) (statement_of statement.now)) }
{
    match statement {
        Statement::Argument { name, extents, .. } => {
            let known = extents_or_one(alloc, names, extents)?;
            parameters.push((String::from_str(alloc, name)?, known))?;
            Ok(())
        }
        _ => Ok(()),
    }
}

/// The parameters of the program behind a line.
fn pass_parameters(
    alloc: Global,
    names: &Names,
    parameters: &mut Vec<(String, Extents)>,
    head: &Head,
) -> Result<(), NoMemory>
    ensures { OnOk result (named_entries parameters.new.items ≡ definition.parameters_behind names.now (named_entries parameters.old.items) (head_tree head.now)) }
{
    match head {
        Head::Program { .. } => {
            *parameters = Vec::new(alloc);
            Ok(())
        }
        Head::Statement(statement) => push_parameter(alloc, names, parameters, statement),
        _ => Ok(()),
    }
}

fn is_tasklet_statement(statement: &Statement) -> bool
    ensures { result ≡ definition.is_tasklet_statement (statement_of statement.now) }
{
    matches!(statement, Statement::Tasklet { .. })
}

/// Whether a tasklet begins behind the line.
fn begins_tasklet(is_tasklet: bool, head: &Head) -> bool
    ensures { result ≡ definition.begins_tasklet is_tasklet (head_tree head.now) }
{
    match head {
        Head::Statement(statement) => is_tasklet_statement(statement),
        Head::Consume { .. } => is_tasklet,
        _ => false,
    }
}

/// How many connectors a tasklet has before its first line.
fn first_connectors(head: &Head) -> usize
    ensures { result ≡ definition.first_connectors (head_tree head.now) }
{
    match head {
        Head::Consume { .. } => 1,
        _ => 0,
    }
}

/// What is counted behind a line.
fn counted_behind(
    names: &Names,
    counts: Counts,
    kind: BlockKind,
    is_tasklet: bool,
    head: &Head,
) -> Result<Counts, NoMemory>
    ensures { IfOk result (λ all. all ≡ definition.counted_behind names.now counts kind is_tasklet (head_tree head.now)) }
{
    match head {
        Head::Program { .. } => Ok(Counts {
            states: 1,
            ..NO_COUNTS
        }),
        Head::Import
        | Head::Symbol { .. }
        | Head::ProgramDecorator
        | Head::Statement(_)
        | Head::Reduce { .. }
        | Head::Input { .. }
        | Head::Output { .. }
        | Head::ConsumeDecorator { .. }
        | Head::Consume { .. }
        | Head::Elif(_)
        | Head::Else => {
            let mut behind = counts_behind(names, counts, kind, head)?;
            if begins_tasklet(is_tasklet, head) {
                behind.connectors = first_connectors(head);
                behind.lines = 0;
            }
            Ok(behind)
        }
    }
}

/// Whether a connector line may come behind a line.
fn connects_behind(is_tasklet: bool, head: &Head) -> bool
    ensures { result ≡ definition.connects_behind is_tasklet (head_tree head.now) }
{
    if begins_tasklet(is_tasklet, head) {
        true
    } else {
        is_connector(head)
    }
}

impl Context {
    /// Takes note of what is known behind a line, and gives back what was awaited before it.
    pub fn know(
        &mut self,
        alloc: Global,
        line: u32,
        is_tasklet: bool,
        head: &Head,
    ) -> Result<Awaited, NoMemory>
        ensures awaited { IfOk result (λ awaited. awaited ≡ self.old.awaited) }
        ensures known { OnOk result (context_of self.new ≡ definition.known_behind (context_of self.old) line is_tasklet (head_tree head.now)) }
    {
        let kind = self.block.kind;
        self.counts = counted_behind(&self.names, self.counts, kind, is_tasklet, head)?;
        self.connects = connects_behind(is_tasklet, head);
        pass_parameters(alloc, &self.names, &mut self.parameters, head)?;
        note_written(alloc, &self.names, &mut self.written, head)?;
        declare(alloc, &mut self.names, is_tasklet, head)?;
        let behind = awaited_behind(alloc, line, head)?;
        Ok(std::mem::replace(&mut self.awaited, behind))
    }

    /// Passes a line. The block of a consume's `def` may be a tasklet.
    pub fn pass(
        &mut self,
        alloc: Global,
        line: u32,
        is_tasklet: bool,
        head: Head,
    ) -> Result<(), NoMemory>
        ensures { OnOk result (context_of self.new ≡ definition.context_after (context_of self.old) line is_tasklet (head_tree head)) }
    {
        let before = InForce::of(&self.names);
        match self.know(alloc, line, is_tasklet, &head) {
            Ok(awaited) => self.place(alloc, before, awaited, line, is_tasklet, head),
            Err(error) => {
                drop(head);
                Err(error)
            }
        }
    }
}
