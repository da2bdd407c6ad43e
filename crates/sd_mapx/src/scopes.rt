//! What the rewrites that change the order of points ask of scopes.
ghost use Rattle.std.specs.Prelude.{◌≡◌, IfOk};
ghost use Rattle.sd_prop.specs.collecting.Plain.{over_of};
ghost use Rattle.sd_mapx.specs.ScopeTests as definition;

use sd_list::NoMemory;
use sd_prop::{Over, Scope};
use sd_race::is_free_of_races;
use std::alloc::Global;

/// Whether a scope is free of races, where this is asked of it.
fn passes(alloc: Global, is_asked: bool, scope: &Scope<'_>) -> Result<bool, NoMemory>
    ensures { IfOk result (λ is. is ≡ definition.passes is_asked scope.now) }
{
    if is_asked {
        is_free_of_races(alloc, scope)
    } else {
        Ok(true)
    }
}

/// Whether each scope with this path is.
pub(crate) fn is_free_at(
    alloc: Global,
    path: &[u32],
    scopes: &[Scope<'_>],
) -> Result<bool, NoMemory>
    ensures { IfOk result (λ is. is ≡ definition.is_free_at path.now scopes.now) }
{
    for scope in scopes {
        if !passes(alloc, path == scope.path(), scope)? {
            return Ok(false);
        }
    }
    Ok(true)
}

/// Whether the first scope is, where this is asked of it.
fn first_passes(alloc: Global, is_asked: bool, scopes: &[Scope<'_>]) -> Result<bool, NoMemory>
    ensures { IfOk result (λ is. is ≡ definition.first_passes is_asked scopes.now) }
{
    match scopes.split_first() {
        None => Ok(true),
        Some((scope, _)) => passes(alloc, is_asked, scope),
    }
}

/// Whether the scope behind each with this path is.
pub(crate) fn is_free_behind(
    alloc: Global,
    path: &[u32],
    scopes: &[Scope<'_>],
) -> Result<bool, NoMemory>
    ensures { IfOk result (λ is. is ≡ definition.is_free_behind path.now scopes.now) }
{
    for (i, scope) in scopes.iter().enumerate() {
        if !first_passes(alloc, path == scope.path(), &scopes[i + 1..])? {
            return Ok(false);
        }
    }
    Ok(true)
}

/// Whether it is done for each element of a stream.
fn is_over_elements(over: &Over) -> bool
    ensures { result ≡ definition.is_over_elements (over_of over.now) }
{
    match over {
        Over::Points { .. } => false,
        Over::Elements => true,
    }
}

/// Whether each consume scope is free of races.
pub(crate) fn are_pools_free(alloc: Global, scopes: &[Scope<'_>]) -> Result<bool, NoMemory>
    ensures { IfOk result (λ is. is ≡ definition.are_pools_free scopes.now) }
{
    for scope in scopes {
        if !passes(alloc, is_over_elements(scope.over()), scope)? {
            return Ok(false);
        }
    }
    Ok(true)
}
