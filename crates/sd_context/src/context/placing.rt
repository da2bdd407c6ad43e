//! Where what a line says goes: to the file, to the arguments of the program, to the statements of its
//! block, or to a block of its own.
ghost use Rattle.std.specs.Prelude.{◌≡◌, ◌∷◌, [], OnOk, map, option_map, string_bytes};
ghost use Rattle.sd_lex.specs.PlainTree as tree;
ghost use Rattle.sd_lex.specs.TreeFold.{expression_of, statement_of, memlet_of};
ghost use Rattle.sd_line.specs.line.HeadFold.{head_tree};
ghost use Rattle.sd_phrase.specs.Memlet.{lambda_tree_of, memlet_tree_of};
ghost use Rattle.sd_context.specs.context.Context.{if_block, statement};
ghost use Rattle.sd_context.specs.context.ContextFold.{context_of, opener_of, awaited_of};
ghost use Rattle.sd_context.specs.context.Placing as definition;

use crate::context::block::{InForce, OpenBlock, Opener};
use crate::context::context::{Awaited, Context};
use sd_lex::{Expr, Lambda, Moved, Statement};
use sd_line::{BlockKind, Head};
use sd_list::NoMemory;
use sd_phrase::{WrittenLambda, WrittenMemlet};
use std::alloc::Global;

fn kind_of(lambda: &Option<WrittenLambda>) -> Option<Lambda>
    ensures { result ≡ definition.kind_of (option_map lambda_tree_of lambda.now) }
{
    match lambda {
        Some(lambda) => lambda.kind,
        None => None,
    }
}

/// What a connector moves, without the names of its lambda.
fn moved_of(memlet: WrittenMemlet) -> Moved
    ensures { memlet_of result ≡ definition.memlet_of (memlet_tree_of memlet) }
{
    let WrittenMemlet {
        name,
        volume,
        lambda,
        dims,
    } = memlet;
    let lambda = kind_of(&lambda);
    Moved {
        name,
        volume,
        lambda,
        dims,
    }
}

/// A lambda of no kind is refused before.
fn lambda_or_last(lambda: &WrittenLambda) -> Lambda
    ensures { result ≡ definition.lambda_or_last (definition.kind_in (lambda_tree_of lambda.now)) }
{
    match lambda.kind {
        Some(kind) => kind,
        None => Lambda::Last,
    }
}

/// A program's line is that of its decorator.
fn decorator_line(awaited: &Awaited, line: u32) -> u32
    ensures { result ≡ definition.decorator_line (awaited_of awaited.now) line }
{
    match awaited {
        Awaited::FunctionDef(at) => *at,
        _ => line,
    }
}

/// A consume scope has what its decorator says.
fn consumer_of(
    alloc: Global,
    awaited: Awaited,
    name: String,
    element: String,
    worker: Option<String>,
) -> Opener
    ensures { opener_of result ≡ definition.consumer_of (awaited_of awaited) (string_bytes name) (string_bytes element) (option_map string_bytes worker) }
{
    match awaited {
        Awaited::ConsumeDef { line, stream, size } => Opener::Consumer {
            line,
            stream,
            size,
            name,
            element,
            worker,
        },
        _ => Opener::Consumer {
            line: 0,
            stream: String::new(alloc),
            size: 0,
            name,
            element,
            worker,
        },
    }
}

fn consume_kind(is_tasklet: bool) -> BlockKind
    ensures { result ≡ definition.consume_kind is_tasklet }
{
    if is_tasklet {
        BlockKind::Tasklet
    } else {
        BlockKind::Scope
    }
}

impl Context {
    /// Opens a block of its own, so many scopes and loops deeper than the one about it.
    pub fn open(
        &mut self,
        alloc: Global,
        before: InForce,
        opener: Opener,
        kind: BlockKind,
        line: u32,
        deeper: usize,
    ) -> Result<(), NoMemory>
        ensures { OnOk result (context_of self.new ≡ definition.opened before (opener_of opener) kind line deeper (context_of self.old)) }
    {
        let Some(depth) = self.block.depth.checked_add(deeper) else {
            drop(opener);
            return Err(NoMemory);
        };
        let block = OpenBlock {
            opener,
            kind,
            line,
            depth,
            before,
            statements: Vec::new(alloc),
        };
        let about = std::mem::replace(&mut self.block, block);
        self.outer.push(about)?;
        Ok(())
    }

    /// Adds a statement to the innermost block.
    pub fn push_statement(&mut self, statement: Statement) -> Result<(), NoMemory>
        ensures { OnOk result (context_of self.new ≡ definition.with_statements (statement_of statement ∷ []) (context_of self.old)) }
    {
        self.block.statements.push(statement)?;
        Ok(())
    }

    /// Adds statements to the innermost block.
    pub fn append_statements(&mut self, statements: Vec<Statement>) -> Result<(), NoMemory>
        ensures { OnOk result (context_of self.new ≡ definition.with_statements (map statement_of statements.items) (context_of self.old)) }
    {
        let mut more = statements;
        self.block.statements.append(&mut more)?;
        Ok(())
    }

    /// Adds an argument to those of the program.
    fn push_argument(&mut self, argument: Statement) -> Result<(), NoMemory>
        ensures { OnOk result (context_of self.new ≡ definition.with_argument (statement_of argument) (context_of self.old)) }
    {
        self.arguments.push(argument)?;
        Ok(())
    }

    /// Opens the block of an `if`.
    fn open_if(
        &mut self,
        alloc: Global,
        before: InForce,
        kind: BlockKind,
        line: u32,
        when: Expr,
    ) -> Result<(), NoMemory>
        ensures { OnOk result (context_of self.new ≡ definition.opened before (if_block [] (expression_of when)) kind line 0 (context_of self.old)) }
    {
        let earlier = Vec::new(alloc);
        self.open(alloc, before, Opener::If { earlier, when }, kind, line, 0)
    }

    /// Opens the block of a map, a tasklet or a loop.
    fn open_with(
        &mut self,
        alloc: Global,
        before: InForce,
        opener: Statement,
        kind: BlockKind,
        line: u32,
        deeper: usize,
    ) -> Result<(), NoMemory>
        ensures { OnOk result (context_of self.new ≡ definition.opened before (statement (statement_of opener)) kind line deeper (context_of self.old)) }
    {
        self.open(alloc, before, Opener::Statement(opener), kind, line, deeper)
    }

    /// A statement opens a block of its own, or is one of the innermost block.
    fn place_statement(
        &mut self,
        alloc: Global,
        before: InForce,
        line: u32,
        statement: Statement,
    ) -> Result<(), NoMemory>
        ensures { OnOk result (context_of self.new ≡ definition.statement_placed before line (statement_of statement) (context_of self.old)) }
    {
        match statement {
            Statement::If { when, .. } => self.open_if(
                alloc,
                before,
                BlockKind::Program,
                line,
                when,
            ),
            Statement::When { when, .. } => self.open_if(
                alloc,
                before,
                BlockKind::Tasklet,
                line,
                when,
            ),
            argument @ Statement::Argument { .. } => self.push_argument(argument),
            map @ Statement::Map { .. } => {
                self.open_with(alloc, before, map, BlockKind::Scope, line, 1)
            }
            repeated @ (Statement::For { .. } | Statement::While { .. }) => {
                self.open_with(alloc, before, repeated, BlockKind::Program, line, 1)
            }
            tasklet @ Statement::Tasklet { .. } => {
                self.open_with(alloc, before, tasklet, BlockKind::Tasklet, line, 0)
            }
            other => self.push_statement(other),
        }
    }

    /// Opens the block of a program, which begins without arguments.
    fn open_program(
        &mut self,
        alloc: Global,
        before: InForce,
        line: u32,
        name: String,
    ) -> Result<(), NoMemory>
        ensures { OnOk result (context_of self.new ≡ definition.program_opened before line (string_bytes name) (context_of self.old)) }
    {
        self.arguments = Vec::new(alloc);
        self.open(
            alloc,
            before,
            Opener::Function { name },
            BlockKind::Program,
            line,
            0,
        )
    }

    /// Takes what a line says, where this was awaited and so many names were in force before the line.
    pub fn place(
        &mut self,
        alloc: Global,
        before: InForce,
        awaited: Awaited,
        line: u32,
        is_tasklet: bool,
        head: Head,
    ) -> Result<(), NoMemory>
        ensures { OnOk result (context_of self.new ≡ definition.placed before (awaited_of awaited) line is_tasklet (head_tree head) (context_of self.old)) }
    {
        match head {
            Head::Symbol { name, .. } => self.push_symbol(name),
            Head::Program { name, .. } => {
                self.open_program(alloc, before, decorator_line(&awaited, line), name)
            }
            Head::Statement(statement) => self.place_statement(alloc, before, line, statement),
            Head::Reduce {
                lambda,
                from,
                to,
                axis,
                identity,
            } => self.push_reduction(line, &lambda, from, to, axis, identity),
            Head::Input { connector, memlet } => self.push_input(line, connector, memlet),
            Head::Output { connector, memlet } => self.push_output(line, connector, memlet),
            Head::Consume {
                name,
                element,
                worker,
            } => {
                let opener = consumer_of(alloc, awaited, name, element, worker);
                self.open(alloc, before, opener, consume_kind(is_tasklet), line, 1)
            }
            _ => Ok(()),
        }
    }

    fn push_symbol(&mut self, name: String) -> Result<(), NoMemory>
        ensures { OnOk result (context_of self.new ≡ definition.with_symbol (string_bytes name) (context_of self.old)) }
    {
        self.symbols.push(name)?;
        Ok(())
    }

    fn push_reduction(
        &mut self,
        line: u32,
        lambda: &WrittenLambda,
        from: String,
        to: String,
        axis: Option<i64>,
        identity: Option<i64>,
    ) -> Result<(), NoMemory>
        ensures { OnOk result (context_of self.new ≡ definition.with_statements (tree.reduce line (definition.lambda_or_last (definition.kind_in (lambda_tree_of lambda.now))) (string_bytes from) (string_bytes to) axis identity ∷ []) (context_of self.old)) }
    {
        self.push_statement(Statement::Reduce {
            line,
            lambda: lambda_or_last(lambda),
            from,
            to,
            axis,
            identity,
        })
    }

    fn push_input(
        &mut self,
        line: u32,
        connector: String,
        memlet: WrittenMemlet,
    ) -> Result<(), NoMemory>
        ensures { OnOk result (context_of self.new ≡ definition.with_statements (tree.input line (string_bytes connector) (definition.memlet_of (memlet_tree_of memlet)) ∷ []) (context_of self.old)) }
    {
        self.push_statement(Statement::Input {
            line,
            connector,
            memlet: moved_of(memlet),
        })
    }

    fn push_output(
        &mut self,
        line: u32,
        connector: String,
        memlet: WrittenMemlet,
    ) -> Result<(), NoMemory>
        ensures { OnOk result (context_of self.new ≡ definition.with_statements (tree.output line (string_bytes connector) (definition.memlet_of (memlet_tree_of memlet)) ∷ []) (context_of self.old)) }
    {
        self.push_statement(Statement::Output {
            line,
            connector,
            memlet: moved_of(memlet),
        })
    }
}
