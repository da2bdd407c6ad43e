//! Stretches of subsets.
ghost use Rattle.std.specs.Prelude.{◌≡◌, ◌++◌, IfOk, OnOk, option_map, true};
ghost use Rattle.sd_lex.specs.TreeFold.{expression_of, dimension_of, dimensions_of};
ghost use Rattle.sd_range.specs.Arithmetic.{affine_difference, affine_zero};
ghost use Rattle.sd_names.specs.Limits.{is_within};
ghost use Rattle.sd_uses.specs.ShapeMismatch as shape;

use sd_lex::{Expr, Slot};
use sd_list::NoMemory;
use sd_names::{Names, is_same, value_of};
use sd_range::Affine;
use std::alloc::Global;

/// A range of a subset: its end less its begin, and its step.
#[derive(Drop)]
pub struct Stretch {
    pub length: Affine,
    pub step: i64,
}

/// The one less the other, both within the limits.
fn difference(alloc: Global, end: &Affine, begin: &Affine) -> Result<Affine, NoMemory>
    requires end { is_within end.now ≡ true }
    requires begin { is_within begin.now ≡ true }
    ensures { IfOk result (λ a. a ≡ affine_difference end.now begin.now) }
{
    end.minus(alloc, begin)
}

/// The value of a bound, or the other value where it is not written.
fn bound_or(
    alloc: Global,
    other: &Affine,
    names: &Names,
    bound: &Option<Expr>,
) -> Result<Affine, NoMemory>
    requires { is_within other.now ≡ true }
    ensures value { IfOk result (λ a. a ≡ shape.bound_or other.now names.now.meanings (option_map expression_of bound.now)) }
    ensures within { IfOk result (λ a. is_within a ≡ true) }
{
    match bound {
        Some(expression) => value_of(alloc, names, expression),
        None => other.copy_of(alloc),
    }
}

/// Adds the stretch of a dimension of this extent.
pub fn push_stretch(
    alloc: Global,
    names: &Names,
    extent: &Affine,
    dimension: &Slot,
    all: &mut Vec<Stretch>,
) -> Result<(), NoMemory>
    requires { is_within extent.now ≡ true }
    ensures { OnOk result (all.new.items ≡ all.old.items ++ shape.stretch_of names.now.meanings extent.now (dimension_of dimension.now)) }
{
    match dimension {
        Slot::Index(_) => Ok(()),
        Slot::Span { begin, end, step } => {
            let last = bound_or(alloc, extent, names, end)?;
            let first = bound_or(alloc, &Affine::constant(alloc, 0), names, begin)?;
            let length = difference(alloc, &last, &first)?;
            let step = step.unwrap_or(1);
            all.push(Stretch { length, step })?;
            Ok(())
        }
    }
}

/// Whether both have the same length and step.
pub fn is_same_stretch(a: &Stretch, b: &Stretch) -> bool
    ensures { result ≡ shape.is_same_stretch a.now b.now }
{
    a.step == b.step && is_same(&a.length, &b.length)
}
