//! Which expressions are affine, and their normal forms.
ghost use Rattle.std.specs.Prelude.{◌≡◌, ◌∷◌, pos, neg_ℤ, IfOk, IfSome, true, nat_le};
ghost use Rattle.sd_range.specs.Arithmetic.{affine_product};
ghost use Rattle.sd_range.specs.Weight.{weight_of};
ghost use Rattle.sd_lex.specs.TreeFold.{expression_of, expressions_of};
ghost use Rattle.sd_names.specs.Expressions as expressions;
ghost use Rattle.sd_names.specs.Limits.{is_within, if_within};

use crate::extents::Extents;
use crate::name_test::{NameTest, any_name};
use crate::names::Names;
use sd_lex::{Expr, OneSign, TwoSign};
use sd_list::{NoMemory, Sequence};
use sd_range::Affine;
use std::alloc::Global;

/// Constants of affine expressions have a size below 2^40.
const MOST_CONSTANT: u128 = 1_099_511_627_776;

/// The sizes of the coefficients of one expression add up to at most 2^10.
const MOST_COEFFICIENTS: u128 = 1024;

/// Every name.
#[derive(Clone, Copy)]
struct Any;

impl NameTest for Any {
    ghost use Rattle.std.specs.Prelude.{true};

    ghost of_alone = { λ s name. true };

    ghost of_subscripted = { λ s name count. true };

    fn alone(&self, _name: &str) -> bool {
        true
    }

    fn subscripted(&self, _name: &str, _count: usize) -> bool {
        true
    }
}

/// Whether a name stands in the expression.
fn has_name(expression: &Expr) -> bool
    ensures { result ≡ expressions.has_name (expression_of expression.now) }
{
    any_name(&Any, expression)
}

/// Whether the expression is affine: numbers and names with `+`, `-`, and `*` where one side has no
/// name. Whether the names are variables is not asked.
pub fn is_affine(expression: &Expr) -> bool
    ensures { result ≡ expressions.is_affine (expression_of expression.now) }
{
    match expression {
        Expr::Number(_) | Expr::Name(_) => true,
        Expr::Element { .. } | Expr::Choice { .. } => false,
        Expr::One { sign, of } => match sign {
            OneSign::Neg => is_affine(of),
            _ => false,
        },
        Expr::Two { sign, left, right } => match sign {
            TwoSign::Add | TwoSign::Sub => is_affine(left) && is_affine(right),
            TwoSign::Mul => {
                is_affine(left) && is_affine(right) && !(has_name(left) && has_name(right))
            }
            _ => false,
        },
    }
}

/// Whether the sizes of the coefficients add up to at most 2^10.
fn is_light(terms: &[(u32, i128)]) -> bool
    ensures { result ≡ nat_le (weight_of terms.now) 1024 }
{
    let mut left: u128 = MOST_COEFFICIENTS;
    for term in terms {
        let size = term.1.unsigned_abs();
        if left < size {
            return false;
        }
        left -= size;
    }
    true
}

/// Whether the numbers of the expression are within the limits.
fn is_within(value: &Affine) -> bool
    ensures { result ≡ is_within value.now }
{
    value.constant.unsigned_abs() < MOST_CONSTANT && is_light(value.terms.as_slice())
}

/// The expression where it is within the limits.
fn if_within(value: Affine) -> Option<Affine>
    ensures value { result ≡ if_within value }
    ensures within { IfSome result (λ a. is_within a ≡ true) }
{
    if is_within(&value) { Some(value) } else { None }
}

/// Minus the expression.
fn negated(alloc: Global, value: &Affine) -> Result<Affine, NoMemory>
    requires { is_within value.now ≡ true }
    ensures { IfOk result (λ a. a ≡ affine_product (neg_ℤ (pos 1)) value.now) }
{
    value.times(alloc, -1)
}

/// The product, where one side is a number: the first one where it has no name.
fn product(
    alloc: Global,
    is_left_a_number: bool,
    left: &Affine,
    right: &Affine,
) -> Result<Affine, NoMemory>
    requires left { is_within left.now ≡ true }
    requires right { is_within right.now ≡ true }
    ensures { IfOk result (λ a. a ≡ expressions.product_of is_left_a_number left.now right.now) }
{
    if is_left_a_number {
        right.times(alloc, left.constant)
    } else {
        left.times(alloc, right.constant)
    }
}

/// What two expressions come to with the sign between them.
fn joined(
    alloc: Global,
    sign: TwoSign,
    is_left_a_number: bool,
    left: &Affine,
    right: &Affine,
) -> Result<Affine, NoMemory>
    requires left { is_within left.now ≡ true }
    requires right { is_within right.now ≡ true }
    ensures { IfOk result (λ a. a ≡ expressions.joined sign is_left_a_number left.now right.now) }
{
    match sign {
        TwoSign::Add => left.plus(alloc, right),
        TwoSign::Sub => left.minus(alloc, right),
        TwoSign::Mul => product(alloc, is_left_a_number, left, right),
        _ => Ok(Affine::constant(alloc, 0)),
    }
}

/// The normal form of an affine expression, whose variables are the places of their names
/// (`Names::place`); None where a number word or the normal form of a part of it passes the limits.
/// What is not affine counts as 0.
pub fn affine_of(
    alloc: Global,
    names: &Names,
    expression: &Expr,
) -> Result<Option<Affine>, NoMemory>
    ensures value { IfOk result (λ value. value ≡ expressions.affine_of names.now.meanings (expression_of expression.now)) }
    ensures within { IfOk result (λ value. IfSome value (λ a. is_within a ≡ true)) }
{
    match expression {
        Expr::Number(value) => Ok(if_within(Affine::constant(alloc, *value as i128))),
        Expr::Name(name) => Ok(Some(Affine::variable(alloc, names.place(name))?)),
        Expr::Element { .. } | Expr::Choice { .. } => Ok(Some(Affine::constant(alloc, 0))),
        Expr::One { of, .. } => {
            let Some(value) = affine_of(alloc, names, of)? else {
                return Ok(None);
            };
            Ok(if_within(negated(alloc, &value)?))
        }
        Expr::Two { sign, left, right } => {
            let Some(first) = affine_of(alloc, names, left)? else {
                return Ok(None);
            };
            let Some(second) = affine_of(alloc, names, right)? else {
                return Ok(None);
            };
            Ok(if_within(joined(alloc, *sign, !has_name(left), &first, &second)?))
        }
    }
}

/// The same; 0 where a part passes the limits.
pub fn value_of(alloc: Global, names: &Names, expression: &Expr) -> Result<Affine, NoMemory>
    ensures value { IfOk result (λ a. a ≡ expressions.value_of names.now.meanings (expression_of expression.now)) }
    ensures within { IfOk result (λ a. is_within a ≡ true) }
{
    match affine_of(alloc, names, expression)? {
        Some(value) => Ok(value),
        None => Ok(Affine::constant(alloc, 0)),
    }
}

/// The extents that are written for a container.
pub fn affine_list(alloc: Global, names: &Names, extents: &[Expr]) -> Result<Extents, NoMemory>
    ensures { IfOk result (λ all. all ≡ expressions.affine_list names.now (expressions_of extents.now)) }
{
    let mut all = Vec::new(alloc);
    for extent in extents {
        all.push(value_of(alloc, names, extent)?)?;
    }
    Ok(Extents::new(Sequence::from(all)))
}
