//! Tests of the names of expressions.
ghost use Rattle.std.specs.Prelude.{◌≡◌, List, ℕ, Bool, option_map};
ghost use Rattle.std.specs.List.{list_any};
ghost use Rattle.sd_lex.specs.TreeFold.{expression_of, expressions_of, dimension_of, dimensions_of};
ghost use Rattle.sd_names.specs.Expressions.{optional, expressions_of_dimension, expressions_of_dimensions};
ghost use Rattle.sd_names.specs.Expressions as expressions;

use sd_lex::{Expr, Slot};

/// A test of the names of an expression.
pub trait NameTest {
    ghost of_alone: { Self → List ℕ → Bool };

    ghost of_subscripted: { Self → List ℕ → ℕ → Bool };

    /// Whether a name that stands alone passes.
    fn alone(&self, name: &str) -> bool
        ensures { result ≡ of_alone self.now name.now };

    /// Whether a name before so many subscripts passes.
    fn subscripted(&self, name: &str, count: usize) -> bool
        ensures { result ≡ of_subscripted self.now name.now count };
}

/// How many expressions there are.
#[tactic(auto, using(crate::proofs::ExpressionLemmas::count_expressions))]
pub fn count_of(all: &[Expr]) -> usize
    ensures { result ≡ expressions.count_of (expressions_of all.now) }
{
    all.len()
}

/// Whether a name of the expression passes the test.
#[cycle(any_name)]
pub fn any_name<T: NameTest>(test: &T, expression: &Expr) -> bool
    ensures { result ≡ expressions.any_name (T.of_alone test.now) (T.of_subscripted test.now) (expression_of expression.now) }
{
    match expression {
        Expr::Number(_) => false,
        Expr::Name(name) => test.alone(name),
        Expr::Element { name, at } => {
            test.subscripted(name, count_of(at)) || any_name_of(test, at)
        }
        Expr::One { of, .. } => any_name(test, of),
        Expr::Two { left, right, .. } => any_name(test, left) || any_name(test, right),
        Expr::Choice { value, when, other } => {
            any_name(test, value) || any_name(test, when) || any_name(test, other)
        }
    }
}

/// Whether a name of one of the expressions passes the test.
#[cycle(any_name)]
pub fn any_name_of<T: NameTest>(test: &T, all: &[Expr]) -> bool
    ensures { result ≡ expressions.any_name_of (T.of_alone test.now) (T.of_subscripted test.now) (expressions_of all.now) }
{
    for expression in all {
        if any_name(test, expression) {
            return true;
        }
    }
    false
}

/// Whether a name of the expression, where there is one, passes the test.
pub fn any_name_of_bound<T: NameTest>(test: &T, bound: &Option<Expr>) -> bool
    ensures { result ≡ list_any (expressions.any_name (T.of_alone test.now) (T.of_subscripted test.now)) (optional (option_map expression_of bound.now)) }
{
    match bound {
        Some(expression) => any_name(test, expression),
        None => false,
    }
}

/// Whether a name of the dimension passes the test.
#[tactic(auto, using(crate::proofs::ExpressionLemmas::any_append))]
fn any_name_of_dimension<T: NameTest>(test: &T, dimension: &Slot) -> bool
    ensures { result ≡ list_any (expressions.any_name (T.of_alone test.now) (T.of_subscripted test.now)) (expressions_of_dimension (dimension_of dimension.now)) }
{
    match dimension {
        Slot::Index(at) => any_name(test, at),
        Slot::Span { begin, end, .. } => any_name_of_bound(test, begin)
            || any_name_of_bound(test, end),
    }
}

/// Whether a name of one of the dimensions passes the test.
#[tactic(auto, using(crate::proofs::ExpressionLemmas::any_append))]
pub fn any_name_of_dimensions<T: NameTest>(test: &T, dimensions: &[Slot]) -> bool
    ensures { result ≡ list_any (expressions.any_name (T.of_alone test.now) (T.of_subscripted test.now)) (expressions_of_dimensions (dimensions_of dimensions.now)) }
{
    for dimension in dimensions {
        if any_name_of_dimension(test, dimension) {
            return true;
        }
    }
    false
}
