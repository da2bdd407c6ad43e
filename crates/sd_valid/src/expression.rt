//! Expressions, and what has them, with sizes in the place of the size symbols.
ghost use Rattle.std.specs.Prelude.{◌≡◌, ◌+ℤ◌, ◌*ℤ◌, ◌++◌, [], ◌∷◌, map, IfOk, OnOk};
ghost use Rattle.sd_range.specs.Affine.{affine_value, variable_value};
ghost use Rattle.sd_range.specs.Terms.{IsNormal};
ghost use Rattle.sd_valid.specs.BoundExpression.{terms_left, bound_affine, bound_range, bound_dim, bound_subset, bound_memlet, bound_link, bound_container, bound_assignment, bound_param};

use sd_graph::{Container, Link, Memlet};
use sd_list::{NoMemory, Sequence};
use sd_range::{Affine, Dim, Range, Subset, Terms};
use std::alloc::Global;

/// The size of a variable, 0 where it is no size symbol.
pub(crate) fn size_at(sizes: &[i64], variable: u32) -> i64
    ensures { result ≡ variable_value sizes.now variable }
{
    match sizes.get(variable as usize) {
        Some(size) => *size,
        None => 0,
    }
}

/// A constant with the value of a term; `NoMemory` where 128 bits don't hold it.
fn with_term(constant: i128, term: &(u32, i128), sizes: &[i64]) -> Result<i128, NoMemory>
    ensures { IfOk result (λ sum. sum ≡ constant +ℤ (term.now.1 *ℤ variable_value sizes.now term.now.0)) }
{
    let size = i128::from(size_at(sizes, term.0));
    let product = term.1.checked_mul(size).ok_or(NoMemory)?;
    constant.checked_add(product).ok_or(NoMemory)
}

/// The constant of an expression with the value of its size symbols.
fn bound_constant(sizes: &[i64], a: &Affine) -> Result<i128, NoMemory>
    ensures { IfOk result (λ constant. constant ≡ affine_value sizes.now a.now) }
{
    let mut constant = a.constant;
    for term in a.terms.as_slice() {
        constant = with_term(constant, term, sizes)?;
    }
    Ok(constant)
}

/// Adds a term of a higher variable, unless it is one of so many size symbols.
fn put_other(terms: &mut Terms, term: (u32, i128), symbols: usize) -> Result<(), NoMemory>
    requires { IsNormal (terms.old ++ terms_left symbols (term ∷ [])) }
    ensures { OnOk result (terms.new ≡ terms.old ++ terms_left symbols (term ∷ [])) }
{
    if symbols <= term.0 as usize {
        terms.push(term.0, term.1)?;
    }
    Ok(())
}

/// The terms of an expression whose variables are no size symbols, of which there are so many.
fn other_terms(alloc: Global, symbols: usize, a: &Affine) -> Result<Terms, NoMemory>
    ensures { IfOk result (λ terms. terms ≡ terms_left symbols a.now.terms) }
{
    let mut terms = Terms::new(alloc);
    for term in a.terms.as_slice() {
        put_other(&mut terms, *term, symbols)?;
    }
    Ok(terms)
}

pub(crate) fn expression(alloc: Global, sizes: &[i64], a: &Affine) -> Result<Affine, NoMemory>
    ensures { IfOk result (λ bound. bound ≡ bound_affine sizes.now a.now) }
{
    Ok(Affine {
        constant: bound_constant(sizes, a)?,
        terms: other_terms(alloc, sizes.len(), a)?,
    })
}

fn expressions(alloc: Global, sizes: &[i64], all: &[Affine]) -> Result<Vec<Affine>, NoMemory>
    ensures { IfOk result (λ bound. bound.items ≡ map (bound_affine sizes.now) all.now) }
{
    let mut bound = Vec::with_capacity(alloc, all.len())?;
    for a in all {
        bound.push(expression(alloc, sizes, a)?)?;
    }
    Ok(bound)
}

pub(crate) fn range(alloc: Global, sizes: &[i64], range: &Range) -> Result<Range, NoMemory>
    ensures { IfOk result (λ bound. bound ≡ bound_range sizes.now range.now) }
{
    Ok(Range {
        begin: expression(alloc, sizes, &range.begin)?,
        ends: Sequence::from(expressions(alloc, sizes, range.ends.as_slice())?),
        step: range.step,
    })
}

fn dim(alloc: Global, sizes: &[i64], dim: &Dim) -> Result<Dim, NoMemory>
    ensures { IfOk result (λ bound. bound ≡ bound_dim sizes.now dim.now) }
{
    match dim {
        Dim::Index(at) => Ok(Dim::Index(expression(alloc, sizes, at)?)),
        Dim::Span(span) => Ok(Dim::Span(range(alloc, sizes, span)?)),
    }
}

fn subset(alloc: Global, sizes: &[i64], subset: &Subset) -> Result<Subset, NoMemory>
    ensures { IfOk result (λ bound. bound ≡ bound_subset sizes.now subset.now) }
{
    let mut dims = Vec::with_capacity(alloc, subset.dims.len())?;
    for one in subset.dims.as_slice() {
        dims.push(dim(alloc, sizes, one)?)?;
    }
    Ok(Subset {
        dims: Sequence::from(dims),
    })
}

pub(crate) fn link(alloc: Global, sizes: &[i64], link: &Link) -> Result<Link, NoMemory>
    ensures { IfOk result (λ bound. bound ≡ bound_link sizes.now link.now) }
{
    Ok(Link {
        connector: link.connector.copy_of(alloc)?,
        memlet: Memlet {
            container: link.memlet.container,
            subset: subset(alloc, sizes, &link.memlet.subset)?,
            volume: link.memlet.volume,
            resolution: link.memlet.resolution,
        },
    })
}

pub(crate) fn links(alloc: Global, sizes: &[i64], all: &[Link]) -> Result<Vec<Link>, NoMemory>
    ensures { IfOk result (λ bound. bound.items ≡ map (bound_link sizes.now) all.now) }
{
    let mut bound = Vec::with_capacity(alloc, all.len())?;
    for one in all {
        bound.push(link(alloc, sizes, one)?)?;
    }
    Ok(bound)
}

pub(crate) fn container(
    alloc: Global,
    sizes: &[i64],
    container: &Container,
) -> Result<Container, NoMemory>
    ensures { IfOk result (λ bound. bound ≡ bound_container sizes.now container.now) }
{
    Ok(Container {
        extents: Sequence::from(expressions(alloc, sizes, container.extents.as_slice())?),
        kind: container.kind,
        width: container.width,
    })
}

pub(crate) fn assignments(
    alloc: Global,
    sizes: &[i64],
    all: &[(u32, Affine)],
) -> Result<Vec<(u32, Affine)>, NoMemory>
    ensures { IfOk result (λ bound. bound.items ≡ map (bound_assignment sizes.now) all.now) }
{
    let mut bound = Vec::with_capacity(alloc, all.len())?;
    for (variable, value) in all {
        bound.push((*variable, expression(alloc, sizes, value)?))?;
    }
    Ok(bound)
}

pub(crate) fn params(
    alloc: Global,
    sizes: &[i64],
    all: &[(u32, Range)],
) -> Result<Vec<(u32, Range)>, NoMemory>
    ensures { IfOk result (λ bound. bound.items ≡ map (bound_param sizes.now) all.now) }
{
    let mut bound = Vec::with_capacity(alloc, all.len())?;
    for (variable, span) in all {
        bound.push((*variable, range(alloc, sizes, span)?))?;
    }
    Ok(bound)
}
