ghost use Rattle.std.specs.Prelude.{◌≡◌, IfOk};
ghost use Rattle.sd_range.specs.Arithmetic.{IsRepresentable};
ghost use Rattle.sd_lex.specs.TreeFold.{expression_of};
ghost use Rattle.sd_program.specs.Affines.{affine_number, affine_of, affine_one, affine_two, product_of};
ghost use Rattle.sd_program.specs.Small.{IsSmall, IsWithinLimits};
ghost use Rattle.sd_task.specs.in_force.Exact.{IsExact};

use crate::in_force::scope::Scope;
use sd_lex::{Expr, OneSign, TwoSign};
use sd_list::NoMemory;
use sd_range::Affine;
use std::alloc::Global;

/// A number as an expression.
pub fn number(alloc: Global, value: i128) -> Affine
    ensures { result ≡ affine_number value }
{
    Affine::constant(alloc, value)
}

/// The product of two expressions, one of which has no variable.
fn product(alloc: Global, left: &Affine, right: &Affine) -> Result<Affine, NoMemory>
    requires { IsRepresentable (product_of left.now.terms left.now right.now) }
    ensures { IfOk result (λ product. product ≡ product_of left.now.terms left.now right.now) }
{
    if left.terms.as_slice().is_empty() {
        right.times(alloc, left.constant)
    } else {
        left.times(alloc, right.constant)
    }
}

/// A sign before an affine expression.
fn with_one_sign(alloc: Global, sign: OneSign, of: &Affine) -> Result<Affine, NoMemory>
    requires { IsRepresentable (affine_one sign of.now) }
    ensures { IfOk result (λ affine. affine ≡ affine_one sign of.now) }
{
    match sign {
        OneSign::Neg => of.times(alloc, -1),
        _ => Ok(Affine::constant(alloc, 0)),
    }
}

/// A sign between two affine expressions.
fn with_two_sign(
    alloc: Global,
    sign: TwoSign,
    left: &Affine,
    right: &Affine,
) -> Result<Affine, NoMemory>
    requires { IsRepresentable (affine_two sign left.now right.now) }
    ensures { IfOk result (λ affine. affine ≡ affine_two sign left.now right.now) }
{
    match sign {
        TwoSign::Add => left.plus(alloc, right),
        TwoSign::Sub => left.minus(alloc, right),
        TwoSign::Mul => product(alloc, left, right),
        _ => Ok(Affine::constant(alloc, 0)),
    }
}

/// An affine expression by the numbers of its variables, where each step of it fits.
fn exact(alloc: Global, variables: &Scope, expression: &Expr) -> Result<Affine, NoMemory>
    requires { IsExact (expression_of expression.now) }
    ensures { IfOk result (λ affine. affine ≡ affine_of variables.now (expression_of expression.now)) }
{
    match expression {
        Expr::Number(value) => Ok(Affine::constant(alloc, i128::from(*value))),
        Expr::Name(name) => match variables.find(name.as_str()) {
            Some(variable) => Affine::variable(alloc, variable),
            None => Ok(Affine::constant(alloc, 0)),
        },
        Expr::One { sign, of } => {
            let of = exact(alloc, variables, of)?;
            with_one_sign(alloc, *sign, &of)
        }
        Expr::Two { sign, left, right } => {
            let left = exact(alloc, variables, left)?;
            let right = exact(alloc, variables, right)?;
            with_two_sign(alloc, *sign, &left, &right)
        }
        Expr::Element { .. } | Expr::Choice { .. } => Ok(Affine::constant(alloc, 0)),
    }
}

/// An affine expression by the numbers of its variables.
#[tactic(auto, using(crate::proofs::in_force_lemmas::SmallLemmas::exact_from_small, crate::proofs::in_force_lemmas::SmallLemmas::within_from_small))]
pub fn affine(alloc: Global, variables: &Scope, expression: &Expr) -> Result<Affine, NoMemory>
    requires { IsSmall (expression_of expression.now) }
    ensures affine { IfOk result (λ affine. affine ≡ affine_of variables.now (expression_of expression.now)) }
    ensures within { IfOk result (λ affine. IsWithinLimits affine) }
{
    exact(alloc, variables, expression)
}
