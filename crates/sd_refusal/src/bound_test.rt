//! Tests of the affine places of a line.
ghost use Rattle.std.specs.Prelude.{◌≡◌, ◌||◌, ◌∷◌, [], ◌++◌, List, Bool, IfOk, map, option_map};
ghost use Rattle.std.specs.List.{list_any};
ghost use Rattle.sd_lex.specs.PlainTree.{Expression, index};
ghost use Rattle.sd_lex.specs.TreeFold.{expression_of, expressions_of, dimension_of, dimensions_of, statement_of, call_argument_of};
ghost use Rattle.sd_line.specs.line.HeadFold.{head_tree};
ghost use Rattle.sd_names.specs.Expressions as expressions;
ghost use Rattle.sd_names.specs.Expressions.{expression_list};
ghost use Rattle.sd_refusal.specs.NotAffine as not_affine;
ghost use Rattle.sd_uses.specs.Uses as uses;
ghost use Rattle.sd_names.specs.Expressions.{optional, expressions_of_dimension, expressions_of_dimensions};

use sd_lex::{Expr, Slot, Statement};
use sd_line::{BlockKind, Head};
use sd_list::NoMemory;
use sd_names::{Names, affine_of, is_affine};
use std::alloc::Global;

/// A test of the expressions in affine places.
pub trait BoundTest {
    ghost of_bound: { Self → Expression → Bool };

    /// Whether an expression passes.
    fn passes(&self, alloc: Global, bound: &Expr) -> Result<bool, NoMemory>
        ensures { IfOk result (λ answer. answer ≡ of_bound self.now (expression_of bound.now)) };
}

/// An expression that is not affine.
#[derive(Clone, Copy)]
pub struct Rough;

impl BoundTest for Rough {
    ghost use Rattle.sd_names.specs.Expressions.{is_rough};

    ghost of_bound = { λ s. is_rough };

    fn passes(&self, _alloc: Global, bound: &Expr) -> Result<bool, NoMemory> {
        Ok(!is_affine(bound))
    }
}

/// An expression of which a part passes the limits.
#[derive(Clone, Copy)]
pub struct Wide<'a> {
    pub names: &'a Names,
}

impl<'a> BoundTest for Wide<'a> {
    ghost use Rattle.sd_names.specs.Expressions.{is_wide};

    ghost of_bound = { λ s. is_wide s.names.now.meanings };

    fn passes(&self, alloc: Global, bound: &Expr) -> Result<bool, NoMemory> {
        Ok(affine_of(alloc, self.names, bound)?.is_none())
    }
}

/// Whether one of the expressions passes.
fn any_passes<T: BoundTest>(test: &T, alloc: Global, all: &[Expr]) -> Result<bool, NoMemory>
    ensures { IfOk result (λ answer. answer ≡ expressions.any_of (T.of_bound test.now) (expressions_of all.now)) }
{
    for expression in all {
        if test.passes(alloc, expression)? {
            return Ok(true);
        }
    }
    Ok(false)
}

/// Whether an affine place of the expression, that is a subscript, passes.
fn any_subscript<T: BoundTest>(test: &T, alloc: Global, expression: &Expr) -> Result<bool, NoMemory>
    ensures { IfOk result (λ answer. answer ≡ expressions.any_subscript (T.of_bound test.now) (expression_of expression.now)) }
{
    match expression {
        Expr::Number(_) | Expr::Name(_) => Ok(false),
        Expr::Element { at, .. } => any_passes(test, alloc, at),
        Expr::One { of, .. } => any_subscript(test, alloc, of),
        Expr::Two { left, right, .. } => {
            if any_subscript(test, alloc, left)? {
                return Ok(true);
            }
            any_subscript(test, alloc, right)
        }
        Expr::Choice { value, when, other } => {
            if any_subscript(test, alloc, value)? {
                return Ok(true);
            }
            if any_subscript(test, alloc, when)? {
                return Ok(true);
            }
            any_subscript(test, alloc, other)
        }
    }
}

/// Whether the expression passes, where there is one.
fn optional_passes<T: BoundTest>(
    test: &T,
    alloc: Global,
    bound: &Option<Expr>,
) -> Result<bool, NoMemory>
    ensures { IfOk result (λ answer. answer ≡ list_any (T.of_bound test.now) (optional (option_map expression_of bound.now))) }
{
    match bound {
        Some(expression) => test.passes(alloc, expression),
        None => Ok(false),
    }
}

/// Whether an affine place of the dimension passes.
#[tactic(auto, using(sd_names::proofs::ExpressionLemmas::any_append))]
fn dimension_passes<T: BoundTest>(
    test: &T,
    alloc: Global,
    dimension: &Slot,
) -> Result<bool, NoMemory>
    ensures { IfOk result (λ answer. answer ≡ list_any (T.of_bound test.now) (expressions_of_dimension (dimension_of dimension.now))) }
{
    match dimension {
        Slot::Index(at) => test.passes(alloc, at),
        Slot::Span { begin, end, .. } => {
            if optional_passes(test, alloc, begin)? {
                return Ok(true);
            }
            optional_passes(test, alloc, end)
        }
    }
}

/// Whether an affine place of one of the dimensions passes.
#[inline(never)]
#[tactic(auto, using(sd_names::proofs::ExpressionLemmas::any_append))]
fn any_dimension_passes<T: BoundTest>(
    test: &T,
    alloc: Global,
    dimensions: &[Slot],
) -> Result<bool, NoMemory>
    ensures { IfOk result (λ answer. answer ≡ list_any (T.of_bound test.now) (expressions_of_dimensions (dimensions_of dimensions.now))) }
{
    for dimension in dimensions {
        if dimension_passes(test, alloc, dimension)? {
            return Ok(true);
        }
    }
    Ok(false)
}

#[tactic(auto, using(crate::proofs::BoundLemmas::extents_bound))]
fn any_extent_passes<T: BoundTest>(test: &T, alloc: Global, all: &[Expr]) -> Result<bool, NoMemory>
    ensures { IfOk result (λ answer. answer ≡ list_any (not_affine.any_bound (T.of_bound test.now)) (map uses.extent (expression_list (expressions_of all.now)))) }
{
    any_passes(test, alloc, all)
}

#[tactic(auto, using(crate::proofs::BoundLemmas::places_bound))]
fn any_place_passes<T: BoundTest>(test: &T, alloc: Global, at: &[Expr]) -> Result<bool, NoMemory>
    ensures { IfOk result (λ answer. answer ≡ list_any (T.of_bound test.now) (expressions_of_dimensions (map index (expression_list (expressions_of at.now))))) }
{
    any_passes(test, alloc, at)
}

#[tactic(auto, using(crate::proofs::BoundLemmas::ranges_bound))]
fn any_range_passes<T: BoundTest>(
    test: &T,
    alloc: Global,
    ranges: &[Slot],
) -> Result<bool, NoMemory>
    ensures { IfOk result (λ answer. answer ≡ list_any (not_affine.any_bound (T.of_bound test.now)) (map uses.bound (expressions_of_dimensions (dimensions_of ranges.now)))) }
{
    any_dimension_passes(test, alloc, ranges)
}

fn assign_passes<T: BoundTest>(
    test: &T,
    alloc: Global,
    at: &[Expr],
    value: &Expr,
) -> Result<bool, NoMemory>
    ensures { IfOk result (λ answer. answer ≡ (list_any (T.of_bound test.now) (expressions_of_dimensions (map index (expression_list (expressions_of at.now)))) || expressions.any_subscript (T.of_bound test.now) (expression_of value.now))) }
{
    if any_place_passes(test, alloc, at)? {
        return Ok(true);
    }
    any_subscript(test, alloc, value)
}

fn copy_passes<T: BoundTest>(
    test: &T,
    alloc: Global,
    to: &[Slot],
    from: &[Slot],
) -> Result<bool, NoMemory>
    ensures { IfOk result (λ answer. answer ≡ (list_any (T.of_bound test.now) (expressions_of_dimensions (dimensions_of to.now)) || list_any (T.of_bound test.now) (expressions_of_dimensions (dimensions_of from.now)))) }
{
    if any_dimension_passes(test, alloc, to)? {
        return Ok(true);
    }
    any_dimension_passes(test, alloc, from)
}

#[tactic(auto, using(crate::proofs::BoundLemmas::loop_bound))]
fn loop_passes<T: BoundTest>(
    test: &T,
    alloc: Global,
    begin: &Option<Expr>,
    end: &Expr,
) -> Result<bool, NoMemory>
    ensures { IfOk result (λ answer. answer ≡ list_any (not_affine.any_bound (T.of_bound test.now)) (map uses.bound (optional (option_map expression_of begin.now) ++ expression_of end.now ∷ []))) }
{
    if optional_passes(test, alloc, begin)? {
        return Ok(true);
    }
    test.passes(alloc, end)
}

fn any_argument_passes<T: BoundTest>(
    test: &T,
    alloc: Global,
    arguments: &[(String, Vec<Slot>)],
) -> Result<bool, NoMemory>
    ensures { IfOk result (λ answer. answer ≡ list_any (not_affine.any_bound (T.of_bound test.now)) (map uses.argument (map call_argument_of arguments.now))) }
{
    for (name, dimensions) in arguments {
        if any_dimension_passes(test, alloc, dimensions)? {
            return Ok(true);
        }
    }
    Ok(false)
}

/// The code of a tasklet has no affine place.
#[tactic(auto, using(crate::proofs::BoundLemmas::codes_bound))]
fn code_passes<T: BoundTest>(_test: &T, _at: &[Expr], _value: &Expr) -> bool
    ensures { result ≡ list_any (not_affine.any_bound (T.of_bound _test.now)) (map uses.code (expression_list (expressions_of _at.now)) ++ uses.code (expression_of _value.now) ∷ []) }
{
    false
}

fn statement_passes<T: BoundTest>(
    test: &T,
    alloc: Global,
    kind: BlockKind,
    statement: &Statement,
) -> Result<bool, NoMemory>
    ensures { IfOk result (λ answer. answer ≡ list_any (not_affine.any_bound (T.of_bound test.now)) (uses.statement_uses kind (statement_of statement.now))) }
{
    match statement {
        Statement::Argument { extents, .. } => any_extent_passes(test, alloc, extents),
        Statement::Local { extents, .. } => any_extent_passes(test, alloc, extents),
        Statement::Assign { at, value, .. } => assign_passes(test, alloc, at, value),
        Statement::Copy {
            to_dims,
            from_dims,
            ..
        } => copy_passes(test, alloc, to_dims, from_dims),
        Statement::Map { ranges, .. } => any_range_passes(test, alloc, ranges),
        Statement::Call { arguments, .. } => any_argument_passes(test, alloc, arguments),
        Statement::For { begin, end, .. } => loop_passes(test, alloc, begin, end),
        Statement::While { when, .. } => any_subscript(test, alloc, when),
        Statement::If { when, .. } => any_subscript(test, alloc, when),
        Statement::SetAt { at, value, .. } => Ok(code_passes(test, at, value)),
        Statement::Stream { .. }
        | Statement::Reduce { .. }
        | Statement::Tasklet { .. }
        | Statement::Consume { .. }
        | Statement::Input { .. }
        | Statement::Output { .. }
        | Statement::Set { .. }
        | Statement::When { .. } => Ok(false),
    }
}

fn condition_passes<T: BoundTest>(
    test: &T,
    alloc: Global,
    kind: BlockKind,
    when: &Expr,
) -> Result<bool, NoMemory>
    ensures { IfOk result (λ answer. answer ≡ not_affine.any_bound (T.of_bound test.now) (uses.condition kind (expression_of when.now))) }
{
    match kind {
        BlockKind::Tasklet => Ok(false),
        _ => any_subscript(test, alloc, when),
    }
}

/// Whether an affine place of the line passes.
pub fn any_bound<T: BoundTest>(
    test: &T,
    alloc: Global,
    kind: BlockKind,
    head: &Head,
) -> Result<bool, NoMemory>
    ensures { IfOk result (λ answer. answer ≡ list_any (not_affine.any_bound (T.of_bound test.now)) (uses.uses kind (head_tree head.now))) }
{
    match head {
        Head::Statement(statement) => statement_passes(test, alloc, kind, statement),
        Head::Input { memlet, .. } => any_dimension_passes(test, alloc, &memlet.dims),
        Head::Output { memlet, .. } => any_dimension_passes(test, alloc, &memlet.dims),
        Head::Elif(when) => condition_passes(test, alloc, kind, when),
        _ => Ok(false),
    }
}
