//! Error 10: what does not fit.
ghost use Rattle.std.specs.Prelude.{◌≡◌, ◌∷◌, [], ◌++◌, ◌+◌, ◌<◌, length, take, drop, IfOk, OnOk, map, true, ℕ, List, Bool};
ghost use Rattle.std.specs.List.{list_any, zip};
ghost use Rattle.std.specs.Option.{option_copied};
ghost use Rattle.std.specs.Cmp.Lexicographic.{pointwise};
ghost use Rattle.sd_lex.specs.PlainTree.{Dimension};
ghost use Rattle.sd_lex.specs.TreeFold.{dimensions_of, statement_of, call_argument_of};
ghost use Rattle.sd_line.specs.line.HeadFold.{head_tree};
ghost use Rattle.sd_names.specs.declared.meaning.Parameter.{Parameter};
ghost use Rattle.sd_names.specs.Names.{signature_by, meaning_of, is_among, is_repeated};
ghost use Rattle.sd_range.specs.Arithmetic.{affine_zero};
ghost use Rattle.sd_names.specs.Limits.{is_within};
ghost use Rattle.sd_names.specs.Extents.{AreWithin, are_same, or_one, one_extent};
ghost use Rattle.sd_uses.specs.ShapeMismatch as shape;

use crate::stretch::{Stretch, is_same_stretch, push_stretch};
use sd_lex::{Slot, Statement};
use sd_line::Head;
use sd_list::NoMemory;
use sd_names::{NameSet, Names, Parameter, Signature, are_same, is_same};
use sd_range::Affine;
use std::alloc::Global;

/// The first of the extents that are left, or this one of 0.
fn first_extent<'a>(extents: &'a [Affine], zero: &'a Affine) -> &'a Affine
    requires extents { AreWithin extents.now }
    requires zero { zero.now ≡ affine_zero }
    ensures extent { result.now ≡ shape.first_extent extents.now }
    ensures within { is_within result.now ≡ true }
{
    match extents {
        [extent, ..] => extent,
        [] => zero,
    }
}

/// The extents behind the first one.
fn behind_first(extents: &[Affine]) -> &[Affine]
    requires { AreWithin extents.now }
    ensures rest { result.now ≡ drop 1 extents.now }
    ensures within { AreWithin result.now }
{
    match extents {
        [_extent, rest @ ..] => rest,
        [] => extents,
    }
}

/// The stretches of dimensions, where the first ones have these extents.
fn stretches_of(
    alloc: Global,
    names: &Names,
    extents: &[Affine],
    dimensions: &[Slot],
) -> Result<Vec<Stretch>, NoMemory>
    requires { AreWithin extents.now }
    ensures { IfOk result (λ all. all.items ≡ shape.stretches_of names.now.meanings extents.now (dimensions_of dimensions.now)) }
{
    let mut all = Vec::new(alloc);
    let zero = Affine::constant(alloc, 0);
    let mut left = extents;
    for dimension in dimensions {
        push_stretch(alloc, names, first_extent(left, &zero), dimension, &mut all)?;
        left = behind_first(left);
    }
    Ok(all)
}

/// The whole of a container of these extents.
fn whole_of(alloc: Global, extents: &[Affine]) -> Result<Vec<Stretch>, NoMemory>
    ensures { IfOk result (λ all. all.items ≡ map shape.whole_stretch extents.now) }
{
    let mut all = Vec::new(alloc);
    for extent in extents {
        let length = extent.copy_of(alloc)?;
        all.push(Stretch { length, step: 1 })?;
    }
    Ok(all)
}

/// The stretches of a container's subset.
fn subset_of(
    alloc: Global,
    names: &Names,
    name: &str,
    dimensions: &[Slot],
) -> Result<Vec<Stretch>, NoMemory>
    ensures { IfOk result (λ all. all.items ≡ shape.subset_of names.now name.now (dimensions_of dimensions.now)) }
{
    let extents = names.extents(name);
    match dimensions {
        [] => whole_of(alloc, extents),
        _ => stretches_of(alloc, names, extents, dimensions),
    }
}

fn are_same_stretches(a: &[Stretch], b: &[Stretch]) -> bool
    ensures { result ≡ pointwise shape.is_same_stretch a.now b.now }
{
    let mut left = b;
    for stretch in a {
        match left {
            [other, rest @ ..] => {
                if !is_same_stretch(stretch, other) {
                    return false;
                }
                left = rest;
            }
            [] => return false,
        }
    }
    left.is_empty()
}

/// Whether the stretches have these lengths; where there are none, one extent of 1.
fn have_lengths(alloc: Global, subset: &[Stretch], extents: &[Affine]) -> bool
    ensures { result ≡ are_same (or_one (map (λ stretch. stretch.length) subset.now)) extents.now }
{
    match subset {
        [] => is_one(alloc, extents),
        _ => are_lengths(subset, extents),
    }
}

fn are_lengths(subset: &[Stretch], extents: &[Affine]) -> bool
    ensures { result ≡ are_same (map (λ stretch. stretch.length) subset.now) extents.now }
{
    let mut left = extents;
    for stretch in subset {
        match left {
            [extent, rest @ ..] => {
                if !is_same(&stretch.length, extent) {
                    return false;
                }
                left = rest;
            }
            [] => return false,
        }
    }
    left.is_empty()
}

/// Whether the extents are one, of 1.
fn is_one(alloc: Global, extents: &[Affine]) -> bool
    ensures { result ≡ are_same (one_extent ∷ []) extents.now }
{
    match extents {
        [extent] => is_same(&Affine::constant(alloc, 1), extent),
        _ => false,
    }
}

/// Whether a step is not 1.
fn any_other_step(subset: &[Stretch]) -> bool
    ensures { result ≡ shape.any_other_step subset.now }
{
    for stretch in subset {
        if stretch.step != 1 {
            return true;
        }
    }
    false
}

/// A test of an argument of a call, with the parameter for which it stands.
trait ArgumentTest {
    ghost of_pair: { Self → (List ℕ × List Dimension) × Parameter → Bool };

    /// Whether the argument passes.
    fn passes(
        &self,
        alloc: Global,
        name: &str,
        dimensions: &[Slot],
        parameter: &Parameter,
    ) -> Result<bool, NoMemory>
        ensures { IfOk result (λ answer. answer ≡ of_pair self.now ((name.now, dimensions_of dimensions.now), parameter.now)) };
}

/// Whether one of the arguments passes.
fn any_argument<T: ArgumentTest>(
    test: &T,
    alloc: Global,
    arguments: &[(String, Vec<Slot>)],
    parameters: &[Parameter],
) -> Result<bool, NoMemory>
    ensures { IfOk result (λ answer. answer ≡ list_any (T.of_pair test.now) (zip (map call_argument_of arguments.now) parameters.now)) }
{
    let mut left = parameters;
    for (name, dimensions) in arguments {
        match left {
            [parameter, rest @ ..] => {
                if test.passes(alloc, name, dimensions, parameter)? {
                    return Ok(true);
                }
                left = rest;
            }
            [] => return Ok(false),
        }
    }
    Ok(false)
}

/// An argument that is no parameter of these extents.
#[derive(Clone, Copy)]
struct NoArgument<'a> {
    names: &'a Names,
}

impl<'a> ArgumentTest for NoArgument<'a> {
    ghost use Rattle.sd_uses.specs.ShapeMismatch.{is_no_argument};

    ghost of_pair = { λ s. is_no_argument s.names.now };

    fn passes(
        &self,
        alloc: Global,
        name: &str,
        dimensions: &[Slot],
        parameter: &Parameter,
    ) -> Result<bool, NoMemory> {
        let subset = subset_of(alloc, self.names, name, dimensions)?;
        Ok(any_other_step(&subset) || !have_lengths(alloc, &subset, parameter.extents.as_slice()))
    }
}

/// The containers that are more than one argument.
fn repeated_containers(
    alloc: Global,
    arguments: &[(String, Vec<Slot>)],
) -> Result<NameSet, NoMemory>
    ensures { IfOk result (λ twice. (name : List ℕ) → is_among twice name ≡ is_repeated (shape.containers_of (map call_argument_of arguments.now)) name) }
{
    let mut met = NameSet::new(alloc);
    let mut twice = NameSet::new(alloc);
    for (name, _dimensions) in arguments {
        if met.contains(name) {
            twice.note(alloc, name)?;
        } else {
            met.note(alloc, name)?;
        }
    }
    Ok(twice)
}

/// An argument that the program writes, and that is another argument too.
#[derive(Clone, Copy)]
struct Shared<'a> {
    repeated: &'a NameSet,
}

impl<'a> ArgumentTest for Shared<'a> {
    ghost use Rattle.std.specs.Prelude.{◌&&◌};
    ghost use Rattle.sd_names.specs.Names.{is_among};

    ghost of_pair = { λ s pair. pair.1.is_written && is_among s.repeated.now pair.0.0 };

    fn passes(
        &self,
        _alloc: Global,
        name: &str,
        _dimensions: &[Slot],
        parameter: &Parameter,
    ) -> Result<bool, NoMemory> {
        Ok(parameter.is_written && self.repeated.contains(name))
    }
}

/// Whether the program writes an argument that is another argument too.
fn any_shared(
    alloc: Global,
    arguments: &[(String, Vec<Slot>)],
    parameters: &[Parameter],
) -> Result<bool, NoMemory>
    ensures { IfOk result (λ answer. answer ≡ list_any (shape.is_shared (map call_argument_of arguments.now)) (zip (map call_argument_of arguments.now) parameters.now)) }
{
    let repeated = repeated_containers(alloc, arguments)?;
    any_argument(
        &Shared {
            repeated: &repeated,
        },
        alloc,
        arguments,
        parameters,
    )
}

fn is_no_call_of(
    alloc: Global,
    names: &Names,
    arguments: &[(String, Vec<Slot>)],
    signature: &Signature,
) -> Result<bool, NoMemory>
    ensures { IfOk result (λ answer. answer ≡ shape.is_no_call_of names.now (map call_argument_of arguments.now) signature.now) }
{
    let parameters = signature.parameters.as_slice();
    if arguments.len() != parameters.len() {
        return Ok(true);
    }
    if any_argument(&NoArgument { names }, alloc, arguments, parameters)? {
        return Ok(true);
    }
    any_shared(alloc, arguments, parameters)
}

fn is_no_call(
    alloc: Global,
    names: &Names,
    name: &str,
    arguments: &[(String, Vec<Slot>)],
) -> Result<bool, NoMemory>
    ensures { IfOk result (λ answer. answer ≡ shape.is_no_call names.now (map call_argument_of arguments.now) (signature_by (meaning_of names.now name.now))) }
{
    match names.signature(name) {
        Some(signature) => is_no_call_of(alloc, names, arguments, signature),
        None => Ok(true),
    }
}

fn is_no_copy(
    alloc: Global,
    names: &Names,
    to: &str,
    to_dims: &[Slot],
    from: &str,
    from_dims: &[Slot],
) -> Result<bool, NoMemory>
    ensures { IfOk result (λ answer. answer ≡ shape.is_no_copy names.now to.now (dimensions_of to_dims.now) from.now (dimensions_of from_dims.now)) }
{
    if to == from {
        return Ok(true);
    }
    let target = subset_of(alloc, names, to, to_dims)?;
    let source = subset_of(alloc, names, from, from_dims)?;
    Ok(!are_same_stretches(&target, &source))
}

fn statement_mismatches(
    alloc: Global,
    names: &Names,
    statement: &Statement,
) -> Result<bool, NoMemory>
    ensures { IfOk result (λ answer. answer ≡ shape.statement_mismatches names.now (statement_of statement.now)) }
{
    match statement {
        Statement::Copy {
            to,
            to_dims,
            from,
            from_dims,
            ..
        } => is_no_copy(alloc, names, to, to_dims, from, from_dims),
        Statement::Call {
            name,
            arguments,
            ..
        } => is_no_call(alloc, names, name, arguments),
        _ => Ok(false),
    }
}

/// Adds copies of the extents.
fn append_copies(alloc: Global, all: &mut Vec<Affine>, extents: &[Affine]) -> Result<(), NoMemory>
    ensures { OnOk result (all.new.items ≡ all.old.items ++ extents.now) }
{
    for extent in extents {
        all.push(extent.copy_of(alloc)?)?;
    }
    Ok(())
}

/// The extents without that of the axis.
fn without(alloc: Global, axis: usize, extents: &[Affine]) -> Result<Vec<Affine>, NoMemory>
    requires { axis < length extents.now }
    ensures { IfOk result (λ kept. kept.items ≡ take axis extents.now ++ drop (axis + 1) extents.now) }
{
    let mut kept = Vec::new(alloc);
    append_copies(alloc, &mut kept, &extents[..axis])?;
    append_copies(alloc, &mut kept, &extents[axis + 1..])?;
    Ok(kept)
}

/// Whether both lists have the same extents, where none stands for one of 1.
fn are_same_or_one(alloc: Global, extents: &[Affine], target: &[Affine]) -> bool
    ensures { result ≡ are_same (or_one extents.now) target.now }
{
    match extents {
        [] => is_one(alloc, target),
        _ => are_same(extents, target),
    }
}

/// Whether the target of a reduction has the extents without that of the axis.
fn is_without(
    alloc: Global,
    axis: usize,
    extents: &[Affine],
    target: &[Affine],
) -> Result<bool, NoMemory>
    ensures { IfOk result (λ answer. answer ≡ shape.is_left_over (shape.without_axis axis extents.now) target.now) }
{
    if axis < extents.len() {
        let kept = without(alloc, axis, extents)?;
        return Ok(are_same_or_one(alloc, &kept, target));
    }
    Ok(false)
}

fn is_reduced(
    alloc: Global,
    axis: Option<i64>,
    extents: &[Affine],
    target: &[Affine],
) -> Result<bool, NoMemory>
    ensures { IfOk result (λ answer. answer ≡ shape.is_left_over (shape.left_over axis extents.now) target.now) }
{
    match axis {
        Some(axis) => {
            if 0 <= axis {
                is_without(alloc, axis as usize, extents, target)
            } else {
                Ok(false)
            }
        }
        None => Ok(is_one(alloc, target)),
    }
}

fn is_no_reduction(
    alloc: Global,
    names: &Names,
    from: &str,
    to: &str,
    axis: Option<i64>,
) -> Result<bool, NoMemory>
    ensures { IfOk result (λ answer. answer ≡ shape.is_no_reduction names.now from.now to.now axis) }
{
    if from == to {
        return Ok(true);
    }
    Ok(!is_reduced(alloc, axis, names.extents(from), names.extents(to))?)
}

/// Error 10: whether two sides of the line do not fit.
pub fn has_mismatch(alloc: Global, names: &Names, head: &Head) -> Result<bool, NoMemory>
    ensures { IfOk result (λ answer. answer ≡ shape.has_mismatch names.now (head_tree head.now)) }
{
    match head {
        Head::Statement(statement) => statement_mismatches(alloc, names, statement),
        Head::Reduce { from, to, axis, .. } => is_no_reduction(alloc, names, from, to, *axis),
        _ => Ok(false),
    }
}
