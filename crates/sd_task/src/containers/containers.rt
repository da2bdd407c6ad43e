ghost use Rattle.std.specs.Prelude.{◌≡◌, [], ◌∷◌, map, string_bytes, bytes_eq, true, false, IfOk, OnOk};
ghost use Rattle.std.specs.List.{IsDistinct};
ghost use Rattle.sd_lex.specs.TreeFold.{expressions_of, statement_of, block_of, function_of};
ghost use Rattle.sd_graph.specs.TreeFold.{named_container};
ghost use Rattle.sd_graph.specs.TreeParts.{has_name};
ghost use Rattle.sd_program.specs.Bounds.{EachBound, EachExpression};
ghost use Rattle.sd_program.specs.Every.{Every, EveryIn, EveryOf};
ghost use Rattle.sd_program.specs.Small.{IsSmall};
ghost use Rattle.sd_task.specs.in_force.Ranges.{extents_of};
ghost use Rattle.sd_task.specs.in_force.SmallExtents.{HaveSmallExtents};
ghost use Rattle.sd_program.specs.DeclaredNames.{declared_names, declared_names_all, container_names};
ghost use Rattle.sd_task.specs.containers.NamesToCome.{Declares};
ghost use Rattle.sd_task.specs.containers.Declarations as definition;

use crate::containers::declared::container_names;
use crate::containers::fresh::fresh_name;
use crate::containers::name_list::set_of;
use crate::in_force::{Scope, affine, number};
use indexmap::{IndexMap, IndexSet};
use sd_graph::{Container, ContainerKind, Width};
use sd_lex::{Expr, Function, Statement, has_connector};
use sd_list::{NoMemory, Sequence};
use sd_range::Affine;
use std::alloc::Global;

/// The size symbols of a program, and the names that it declares for containers.
#[derive(Drop)]
struct Known {
    symbols: Scope,
    declared: IndexSet<String>,
}

/// The extents of an array: one of 1 where none is written.
fn extents_of(alloc: Global, symbols: &Scope, written: &[Expr]) -> Result<Vec<Affine>, NoMemory>
    requires { EachExpression IsSmall (expressions_of written.now) }
    ensures { IfOk result (λ extents. extents.items ≡ extents_of symbols.now (expressions_of written.now)) }
{
    if written.is_empty() {
        return Ok(vec![in alloc; number(alloc, 1)]?);
    }
    let mut extents = Vec::with_capacity(alloc, written.len())?;
    for extent in written {
        extents.push(affine(alloc, symbols, extent)?)?;
    }
    Ok(extents)
}

fn array_kind(in_scope: bool) -> ContainerKind
    ensures { result ≡ definition.array_kind in_scope }
{
    if in_scope {
        ContainerKind::Private
    } else {
        ContainerKind::Transient
    }
}

fn stream_kind(in_scope: bool) -> ContainerKind
    ensures { result ≡ definition.stream_kind in_scope }
{
    if in_scope {
        ContainerKind::PrivateStream
    } else {
        ContainerKind::Stream
    }
}

/// Declares one more container, under a name that none has.
#[tactic(auto, using(sd_graph::proofs::NameLemmas::entries_grown))]
fn declare(
    containers: &mut IndexMap<String, Container>,
    name: String,
    extents: Vec<Affine>,
    kind: ContainerKind,
) -> Result<(), NoMemory>
    ensures { OnOk result (has_name (map named_container containers.old.entries) (string_bytes name) ≡ false → map named_container containers.new.entries ≡ definition.followed_by (map named_container containers.old.entries) (string_bytes name) extents.items kind) }
{
    let container = Container {
        extents: Sequence::from(extents),
        kind,
        width: Width::W64,
    };
    containers.insert(name, container)?;
    Ok(())
}

/// Declares a container under the name that is written, the next of those to come.
fn declare_written(
    alloc: Global,
    known: &Known,
    containers: &mut IndexMap<String, Container>,
    name: &str,
    extents: Vec<Affine>,
    kind: ContainerKind,
) -> Result<(), NoMemory>
    ensures { OnOk result (Declares (map string_bytes known.now.declared.keys) (map named_container containers.old.entries) (name.now ∷ []) (definition.followed_by (map named_container containers.old.entries) name.now extents.items kind) (map named_container containers.new.entries)) }
{
    declare(containers, String::from_str(alloc, name)?, extents, kind)?;
    Ok(())
}

/// Declares the container of an element that one tasklet takes, under a name that is free.
fn declare_taken(
    alloc: Global,
    known: &Known,
    containers: &mut IndexMap<String, Container>,
    name: &str,
) -> Result<(), NoMemory>
    ensures { OnOk result (Declares (map string_bytes known.now.declared.keys) (map named_container containers.old.entries) [] (definition.with_element (map string_bytes known.now.declared.keys) (map named_container containers.old.entries) true name.now) (map named_container containers.new.entries)) }
{
    let name = fresh_name(alloc, &known.declared, containers, name)?;
    let extents = vec![in alloc; number(alloc, 1)]?;
    declare(containers, name, extents, ContainerKind::Private)?;
    Ok(())
}

/// Declares the containers of a statement, in the order of the text.
#[cycle(containers)]
fn declare_of_statement(
    alloc: Global,
    known: &Known,
    in_scope: bool,
    containers: &mut IndexMap<String, Container>,
    statement: &Statement,
) -> Result<(), NoMemory>
    requires { Every (EachBound IsSmall) (statement_of statement.now) }
    ensures { OnOk result (Declares (map string_bytes known.now.declared.keys) (map named_container containers.old.entries) (declared_names (statement_of statement.now) []) (definition.containers_with known.now.symbols (map string_bytes known.now.declared.keys) (statement_of statement.now) in_scope (map named_container containers.old.entries)) (map named_container containers.new.entries)) }
{
    match statement {
        Statement::Argument { name, extents, .. } => {
            let extents = extents_of(alloc, &known.symbols, extents)?;
            let kind = ContainerKind::Argument;
            declare_written(alloc, known, containers, name.as_str(), extents, kind)
        }
        Statement::Local { name, extents, .. } => {
            let extents = extents_of(alloc, &known.symbols, extents)?;
            let kind = array_kind(in_scope);
            declare_written(alloc, known, containers, name.as_str(), extents, kind)
        }
        Statement::Stream { name, .. } => {
            let (none, kind) = (Vec::new(alloc), stream_kind(in_scope));
            declare_written(alloc, known, containers, name.as_str(), none, kind)
        }
        Statement::Consume { element, body, .. } => {
            if has_connector(body) {
                return declare_taken(alloc, known, containers, element.as_str());
            }
            let (one, kind) = (vec![in alloc; number(alloc, 1)]?, ContainerKind::Private);
            declare_written(alloc, known, containers, element.as_str(), one, kind)?;
            declare_of_block(alloc, known, true, containers, body)
        }
        Statement::Map { body, .. } => declare_of_block(alloc, known, true, containers, body),
        Statement::For { body, .. } | Statement::While { body, .. } => {
            declare_of_block(alloc, known, in_scope, containers, body)
        }
        Statement::If { body, other, .. } => {
            declare_of_block(alloc, known, in_scope, containers, body)?;
            declare_of_block(alloc, known, in_scope, containers, other)
        }
        _ => Ok(()),
    }
}

/// Declares the containers of a block.
#[cycle(containers)]
fn declare_of_block(
    alloc: Global,
    known: &Known,
    in_scope: bool,
    containers: &mut IndexMap<String, Container>,
    body: &[Statement],
) -> Result<(), NoMemory>
    requires { EveryIn (EachBound IsSmall) (block_of body.now) }
    ensures { OnOk result (Declares (map string_bytes known.now.declared.keys) (map named_container containers.old.entries) (declared_names_all (block_of body.now) []) (definition.containers_with_all known.now.symbols (map string_bytes known.now.declared.keys) (block_of body.now) in_scope (map named_container containers.old.entries)) (map named_container containers.new.entries)) }
{
    for statement in body {
        declare_of_statement(alloc, known, in_scope, containers, statement)?;
    }
    Ok(())
}

/// The containers of a program by number, with their names: its arguments, and then those of its
/// body in the order of the text.
pub fn containers_of_function(
    alloc: Global,
    symbols: &[String],
    function: &Function,
) -> Result<IndexMap<String, Container>, NoMemory>
    requires small { EveryOf (EachBound IsSmall) (function_of function.now) }
    requires different { IsDistinct bytes_eq (container_names (function_of function.now)) }
    ensures containers { IfOk result (λ containers. map named_container containers.entries ≡ definition.containers_of_function (map string_bytes symbols.now) (function_of function.now)) }
    ensures small { IfOk result (λ containers. HaveSmallExtents (map named_container containers.entries)) }
{
    let mut scope = Scope::new(alloc);
    scope.push_all(alloc, symbols, 0)?;
    let names = container_names(alloc, function)?;
    let known = Known {
        symbols: scope,
        declared: set_of(alloc, &names)?,
    };
    let mut containers = IndexMap::with_capacity(alloc, names.len())?;
    declare_of_block(alloc, &known, false, &mut containers, &function.arguments)?;
    declare_of_block(alloc, &known, false, &mut containers, &function.body)?;
    Ok(containers)
}
