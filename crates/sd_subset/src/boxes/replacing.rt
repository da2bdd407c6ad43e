//! Parameters replaced in bounds.
ghost use Rattle.std.specs.Prelude.{◌≡◌, IfOk};
ghost use Rattle.sd_range.specs.Arithmetic.{substituted};
ghost use Rattle.sd_subset.specs.boxes.Box as definition;

use crate::boxes::bounds::Bounds;
use crate::boxes::fitting::with_in_place;
use sd_list::{NoMemory, Sequence};
use sd_range::{Affine, Range};
use std::alloc::Global;

/// A parameter replaced by the last end of its range.
fn with_end(alloc: Global, parameter: &(u32, Range), a: &Affine) -> Result<Affine, NoMemory>
    ensures { IfOk result (λ bound. bound ≡ substituted parameter.now.0 (definition.last_end parameter.now.1) a.now) }
{
    match parameter.1.ends.as_slice().last() {
        Some(end) => with_in_place(alloc, parameter.0, end, a),
        None => with_in_place(alloc, parameter.0, &Affine::constant(alloc, 0), a),
    }
}

/// A parameter replaced in a lower bound.
fn with_least(alloc: Global, parameter: &(u32, Range), a: &Affine) -> Result<Affine, NoMemory>
    ensures { IfOk result (λ bound. bound ≡ definition.with_least parameter.now a.now) }
{
    if 0 < a.terms.coefficient(parameter.0) {
        with_in_place(alloc, parameter.0, &parameter.1.begin, a)
    } else {
        with_end(alloc, parameter, a)
    }
}

/// A parameter replaced in an upper bound.
fn with_greatest(alloc: Global, parameter: &(u32, Range), a: &Affine) -> Result<Affine, NoMemory>
    ensures { IfOk result (λ bound. bound ≡ definition.with_greatest parameter.now a.now) }
{
    if 0 < a.terms.coefficient(parameter.0) {
        with_end(alloc, parameter, a)
    } else {
        with_in_place(alloc, parameter.0, &parameter.1.begin, a)
    }
}

/// An expression with parameters, the outermost first, replaced as in a lower bound.
pub fn least(alloc: Global, parameters: &[(u32, Range)], a: &Affine) -> Result<Affine, NoMemory>
    ensures { IfOk result (λ bound. bound ≡ definition.least parameters.now a.now) }
{
    let mut bound = a.copy_of(alloc)?;
    let mut left = parameters;
    while let Some((parameter, outer)) = left.split_last() {
        bound = with_least(alloc, parameter, &bound)?;
        left = outer;
    }
    Ok(bound)
}

/// An expression with parameters, the outermost first, replaced as in an upper bound.
pub fn greatest(alloc: Global, parameters: &[(u32, Range)], a: &Affine) -> Result<Affine, NoMemory>
    ensures { IfOk result (λ bound. bound ≡ definition.greatest parameters.now a.now) }
{
    let mut bound = a.copy_of(alloc)?;
    let mut left = parameters;
    while let Some((parameter, outer)) = left.split_last() {
        bound = with_greatest(alloc, parameter, &bound)?;
        left = outer;
    }
    Ok(bound)
}

/// A box with parameters, the outermost first, replaced in it.
pub fn replaced(
    alloc: Global,
    parameters: &[(u32, Range)],
    bounds: &[Bounds],
) -> Result<Sequence<Bounds>, NoMemory>
    ensures { IfOk result (λ all. all ≡ definition.replaced parameters.now bounds.now) }
{
    let mut all = Vec::with_capacity(alloc, bounds.len())?;
    for one in bounds {
        all.push(Bounds {
            low: least(alloc, parameters, &one.low)?,
            high: greatest(alloc, parameters, &one.high)?,
        })?;
    }
    Ok(Sequence::from(all))
}
