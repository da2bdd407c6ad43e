//! Affine code, as it stands in the condition of a loop.
ghost use Rattle.std.specs.Prelude.{◌≡◌};
ghost use Rattle.sd_graph.specs.TreeFold.{value_tree};
ghost use Rattle.sd_validity.specs.rules.Transitions as transitions;

use sd_graph::{OneSign, TwoSign, Value};

/// Whether only numbers stand in a value.
pub fn has_numbers_only(value: &Value) -> bool
    ensures { result ≡ transitions.has_numbers_only (value_tree value.now) }
{
    match value {
        Value::Number(_) => true,
        Value::One { of, .. } => has_numbers_only(of),
        Value::Two { left, right, .. } => has_numbers_only(left) && has_numbers_only(right),
        Value::Variable(_) | Value::Local(_) | Value::Input { .. } | Value::Choice { .. } => false,
    }
}

fn is_negation(sign: OneSign) -> bool
    ensures { result ≡ transitions.is_negation sign }
{
    match sign {
        OneSign::Neg => true,
        OneSign::Not | OneSign::Inv => false,
    }
}

/// Whether a sign joins two values to an affine one: a product has a side without a variable.
fn is_affine_join(sign: TwoSign, left: &Value, right: &Value) -> bool
    ensures { result ≡ transitions.is_affine_join sign (value_tree left.now) (value_tree right.now) }
{
    match sign {
        TwoSign::Add | TwoSign::Sub => true,
        TwoSign::Mul => has_numbers_only(left) || has_numbers_only(right),
        _ => false,
    }
}

/// Whether a value is affine.
pub fn is_affine_value(value: &Value) -> bool
    ensures { result ≡ transitions.is_affine_value (value_tree value.now) }
{
    match value {
        Value::Number(_) | Value::Variable(_) => true,
        Value::One { sign, of } => is_negation(*sign) && is_affine_value(of),
        Value::Two { sign, left, right } => {
            is_affine_join(*sign, left, right) && is_affine_value(left) && is_affine_value(right)
        }
        Value::Local(_) | Value::Input { .. } | Value::Choice { .. } => false,
    }
}
