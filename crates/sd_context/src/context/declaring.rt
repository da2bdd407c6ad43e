//! Which names a line declares, and as what.
ghost use Rattle.std.specs.Prelude.{◌≡◌, ◌∷◌, [], IfOk, OnOk, option_map, map, string_bytes};
ghost use Rattle.sd_lex.specs.TreeFold.{statement_of, expressions_of, dimension_of, dimensions_of};
ghost use Rattle.sd_line.specs.line.HeadFold.{head_tree};
ghost use Rattle.sd_phrase.specs.Memlet.{memlet_tree_of};
ghost use Rattle.sd_names.specs.Expressions.{affine_list};
ghost use Rattle.sd_names.specs.Extents as shape;
ghost use Rattle.sd_context.specs.context.Declaring as definition;

use sd_lex::{Expr, Slot, Statement};
use sd_line::Head;
use sd_list::NoMemory;
use sd_names::{Container, Extents, Meaning, Names, affine_list, is_same};
use sd_phrase::WrittenMemlet;
use sd_range::Affine;
use sd_uses::declares_local;
use std::alloc::Global;

/// The extents of an argument; none stands for one of 1.
pub fn extents_or_one(alloc: Global, names: &Names, extents: &[Expr]) -> Result<Extents, NoMemory>
    ensures { IfOk result (λ all. all ≡ shape.or_one (affine_list names.now (expressions_of extents.now))) }
{
    let known = affine_list(alloc, names, extents)?;
    if known.as_slice().is_empty() {
        Extents::one(alloc)
    } else {
        Ok(known)
    }
}

/// A name that is assigned in a tasklet.
fn declare_assigned(alloc: Global, names: &mut Names, name: &str) -> Result<(), NoMemory>
    ensures { OnOk result (names.new ≡ definition.with_local names.old name.now) }
{
    if declares_local(names, name) {
        names.declare(alloc, name, Meaning::Local)?;
    }
    Ok(())
}

fn declare_statement(
    alloc: Global,
    names: &mut Names,
    statement: &Statement,
) -> Result<(), NoMemory>
    ensures { OnOk result (names.new ≡ definition.statement_names names.old (statement_of statement.now)) }
{
    match statement {
        Statement::Argument { name, extents, .. } => {
            let known = extents_or_one(alloc, names, extents)?;
            names.declare_container(alloc, name, Container::Array(known))
        }
        Statement::Local { name, extents, .. } => {
            let known = affine_list(alloc, names, extents)?;
            names.declare_container(alloc, name, Container::Array(known))
        }
        Statement::Stream { name, .. } => names.declare_container(alloc, name, Container::Stream),
        Statement::Map { params, .. } => names.declare_variables(alloc, params),
        Statement::For { name, .. } => names.declare(alloc, name, Meaning::Variable),
        Statement::Set { name, .. } => declare_assigned(alloc, names, name),
        _ => Ok(()),
    }
}

/// In a program no container of another is in force, and it is not called.
fn declare_program(alloc: Global, names: &mut Names, name: &str) -> Result<(), NoMemory>
    ensures { OnOk result (names.new ≡ definition.program_names names.old name.now) }
{
    names.leave_program(alloc);
    names.declare(alloc, name, Meaning::Program(None))
}

fn declare_worker(alloc: Global, names: &mut Names, worker: &Option<String>) -> Result<(), NoMemory>
    ensures { OnOk result (names.new ≡ definition.with_worker (option_map string_bytes worker.now) names.old) }
{
    match worker {
        Some(name) => names.declare(alloc, name, Meaning::Worker),
        None => Ok(()),
    }
}

/// The element of a consume: an input of its tasklet, or a container of its body.
fn declare_element(
    alloc: Global,
    names: &mut Names,
    is_tasklet: bool,
    element: &str,
) -> Result<(), NoMemory>
    ensures { OnOk result (names.new ≡ definition.element_names is_tasklet names.old element.now) }
{
    if is_tasklet {
        names.declare(alloc, element, Meaning::Input(0))
    } else {
        let extents = Extents::one(alloc)?;
        names.declare_container(alloc, element, Container::Array(extents))
    }
}

/// Whether all extents are 1.
fn are_all_one(alloc: Global, extents: &[Affine]) -> bool
    ensures { result ≡ definition.are_all_one extents.now }
{
    let one = Affine::constant(alloc, 1);
    for extent in extents {
        if !is_same(&one, extent) {
            return false;
        }
    }
    true
}

fn span_count(dimension: &Slot) -> usize
    ensures { result ≡ definition.span_count (dimension_of dimension.now) }
{
    match dimension {
        Slot::Index(_) => 0,
        Slot::Span { .. } => 1,
    }
}

/// How many ranges stand in a subset.
fn spans_of(dimensions: &[Slot]) -> usize
    ensures { result ≡ definition.spans_of (dimensions_of dimensions.now) }
{
    let mut count = 0;
    for dimension in dimensions {
        count += span_count(dimension);
    }
    count
}

/// How many dimensions a connector of an array of these extents has.
fn array_dimensions(alloc: Global, extents: &[Affine], dimensions: &[Slot]) -> usize
    ensures { result ≡ definition.array_dimensions extents.now (dimensions_of dimensions.now) }
{
    match dimensions {
        [] => {
            if are_all_one(alloc, extents) {
                0
            } else {
                extents.len()
            }
        }
        _ => spans_of(dimensions),
    }
}

fn connector_dimensions(alloc: Global, names: &Names, memlet: &WrittenMemlet) -> usize
    ensures { result ≡ definition.connector_dimensions names.now (memlet_tree_of memlet.now) }
{
    if names.is_array(&memlet.name) {
        array_dimensions(alloc, names.extents(&memlet.name), &memlet.dims)
    } else {
        0
    }
}

/// Declares what a line declares. The block of a consume's `def` may be a tasklet.
pub fn declare(
    alloc: Global,
    names: &mut Names,
    is_tasklet: bool,
    head: &Head,
) -> Result<(), NoMemory>
    ensures { OnOk result (names.new ≡ definition.names_behind names.old is_tasklet (head_tree head.now)) }
{
    match head {
        Head::Symbol { name, .. } => names.declare(alloc, name, Meaning::Symbol),
        Head::Program { name, .. } => declare_program(alloc, names, name),
        Head::Statement(statement) => declare_statement(alloc, names, statement),
        Head::Input { connector, memlet } => {
            let dimensions = connector_dimensions(alloc, names, memlet);
            names.declare(alloc, connector, Meaning::Input(dimensions))
        }
        Head::Output { connector, memlet } => {
            let dimensions = connector_dimensions(alloc, names, memlet);
            names.declare(alloc, connector, Meaning::Output(dimensions))
        }
        Head::Consume {
            element,
            worker,
            ..
        } => {
            declare_element(alloc, names, is_tasklet, element)?;
            declare_worker(alloc, names, worker)
        }
        _ => Ok(()),
    }
}
