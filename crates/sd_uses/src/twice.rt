//! Error 7: declared twice.
ghost use Rattle.std.specs.Prelude.{◌≡◌, ◌∷◌, IfOk, [], map, option_map, string_bytes};
ghost use Rattle.sd_lex.specs.TreeFold.{statement_of};
ghost use Rattle.sd_line.specs.line.HeadFold.{head_tree};
ghost use Rattle.sd_phrase.specs.Memlet.{lambda_tree_of};
ghost use Rattle.sd_names.specs.Names.{meaning_of};
ghost use Rattle.sd_names.specs.Expressions.{optional};
ghost use Rattle.sd_uses.specs.Twice as twice;
ghost use Rattle.sd_uses.specs.Uses.{lambda_of};

use sd_lex::Statement;
use sd_line::Head;
use sd_list::NoMemory;
use sd_names::{Meaning, NameSet, Names, is_reserved};
use sd_phrase::WrittenLambda;
use std::alloc::Global;

/// Whether one of the names is not free, or stands earlier in the list too.
pub fn are_not_new(alloc: Global, names: &Names, wanted: &[String]) -> Result<bool, NoMemory>
    ensures { IfOk result (λ answer. answer ≡ twice.are_not_new names.now [] (map string_bytes wanted.now)) }
{
    let mut earlier = NameSet::new(alloc);
    for name in wanted {
        if !names.is_free(name) || earlier.contains(name) {
            return Ok(true);
        }
        earlier.note(alloc, name)?;
    }
    Ok(false)
}

fn is_not_new(names: &Names, name: &str) -> bool
    ensures { result ≡ twice.are_not_new names.now [] (name.now ∷ []) }
{
    !names.is_free(name)
}

/// Whether an element or the name beside it is not free, or both are one name.
fn are_not_new_both(names: &Names, element: &str, worker: &Option<String>) -> bool
    ensures { result ≡ twice.are_not_new names.now [] (element.now ∷ optional (option_map string_bytes worker.now)) }
{
    match worker {
        None => is_not_new(names, element),
        Some(worker) => {
            !names.is_free(element) || !names.is_free(worker) || worker.as_str() == element
        }
    }
}

/// Whether an assignment to the name in a tasklet declares a local.
pub fn declares_local(names: &Names, name: &str) -> bool
    ensures { result ≡ twice.declares_local (meaning_of names.now name.now) }
{
    match names.meaning(name) {
        Some(Meaning::Local) => false,
        Some(Meaning::Input(_)) => false,
        Some(Meaning::Output(_)) => false,
        _ => true,
    }
}

fn statement_declares_not_new(
    alloc: Global,
    names: &Names,
    statement: &Statement,
) -> Result<bool, NoMemory>
    ensures { IfOk result (λ answer. answer ≡ twice.are_not_new names.now [] (twice.statement_declares names.now (statement_of statement.now))) }
{
    match statement {
        Statement::Argument { name, .. } => Ok(is_not_new(names, name)),
        Statement::Local { name, .. } => Ok(is_not_new(names, name)),
        Statement::Stream { name, .. } => Ok(is_not_new(names, name)),
        Statement::For { name, .. } => Ok(is_not_new(names, name)),
        Statement::Map { params, .. } => are_not_new(alloc, names, params),
        Statement::Set { name, .. } => Ok(declares_local(names, name) && is_not_new(names, name)),
        Statement::Assign { .. }
        | Statement::Copy { .. }
        | Statement::Reduce { .. }
        | Statement::Tasklet { .. }
        | Statement::Consume { .. }
        | Statement::Call { .. }
        | Statement::While { .. }
        | Statement::If { .. }
        | Statement::Input { .. }
        | Statement::Output { .. }
        | Statement::SetAt { .. }
        | Statement::When { .. } => Ok(false),
    }
}

fn declares_not_new(alloc: Global, names: &Names, head: &Head) -> Result<bool, NoMemory>
    ensures { IfOk result (λ answer. answer ≡ twice.are_not_new names.now [] (twice.declares names.now (head_tree head.now))) }
{
    match head {
        Head::Symbol { name, .. } => Ok(is_not_new(names, name)),
        Head::Program { name, .. } => Ok(is_not_new(names, name)),
        Head::Statement(statement) => statement_declares_not_new(alloc, names, statement),
        Head::Input { connector, .. } => Ok(is_not_new(names, connector)),
        Head::Output { connector, .. } => Ok(is_not_new(names, connector)),
        Head::Consume {
            element,
            worker,
            ..
        } => Ok(are_not_new_both(names, element, worker)),
        _ => Ok(false),
    }
}

fn has_reserved(combined: &WrittenLambda) -> bool
    ensures { result ≡ twice.lambda_is_reserved (lambda_tree_of combined.now) }
{
    is_reserved(&combined.first) || is_reserved(&combined.second)
}

fn option_has_reserved(combined: &Option<WrittenLambda>) -> bool
    ensures { result ≡ twice.has_reserved (option_map lambda_tree_of combined.now) }
{
    match combined {
        Some(combined) => has_reserved(combined),
        None => false,
    }
}

fn lambda_is_reserved(head: &Head) -> bool
    ensures { result ≡ twice.has_reserved (lambda_of (head_tree head.now)) }
{
    match head {
        Head::Reduce { lambda, .. } => has_reserved(lambda),
        Head::Input { memlet, .. } => option_has_reserved(&memlet.lambda),
        Head::Output { memlet, .. } => option_has_reserved(&memlet.lambda),
        _ => false,
    }
}

fn names_consume(names: &Names, head: &Head) -> bool
    ensures { result ≡ twice.names_consume names.now (head_tree head.now) }
{
    match head {
        Head::Consume { name, .. } => !names.is_free(name),
        _ => false,
    }
}

/// Error 7: whether the line declares a name that it may not declare.
pub fn declares_twice(alloc: Global, names: &Names, head: &Head) -> Result<bool, NoMemory>
    ensures { IfOk result (λ answer. answer ≡ twice.declares_twice names.now (head_tree head.now)) }
{
    if declares_not_new(alloc, names, head)? {
        return Ok(true);
    }
    Ok(lambda_is_reserved(head) || names_consume(names, head))
}
