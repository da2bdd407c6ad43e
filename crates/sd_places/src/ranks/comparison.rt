//! Conditions that ask whether a variable is below a value.
ghost use Rattle.std.specs.Prelude.{◌≡◌, option_map, None, Some};
ghost use Rattle.sd_graph.specs.TreeFold.{act_tree, act_trees, value_tree, value_trees};
ghost use Rattle.sd_validity.specs.rules.Compared as definition;
ghost use Rattle.sd_places.specs.ranks.ComparisonOf.{comparison_of};

use sd_graph::{Act, TwoSign, Value};

/// A variable, by its place among those of the code, and what it is to be below.
#[derive(Clone, Copy)]
pub struct Comparison<'a> {
    pub place: u32,
    pub bound: &'a Value,
}

/// A value, if it is given without subscripts.
#[tactic(auto, using(crate::proofs::ranks_lemmas::Bare::bare_some, crate::proofs::ranks_lemmas::Bare::bare_none))]
fn bare_value<'a>(at: &[Value], value: &'a Value) -> Option<&'a Value>
    ensures { option_map (λ value. value_tree value.now) result ≡ definition.bare_value (value_trees at.now) (value_tree value.now) }
{
    if at.is_empty() { Some(value) } else { None }
}

/// The value that an assignment without subscripts gives to its output.
fn given_by(act: &Act) -> Option<&Value>
    ensures { option_map (λ value. value_tree value.now) result ≡ definition.given_by (act_tree act.now) }
{
    match act {
        Act::Out { at, value, .. } => bare_value(at, value),
        Act::Local { .. } | Act::When { .. } => None,
    }
}

/// The value that code gives to its output, where it is one assignment without subscripts.
pub fn given(acts: &[Act]) -> Option<&Value>
    ensures { option_map (λ value. value_tree value.now) result ≡ definition.given (act_trees acts.now) }
{
    let (first, others) = acts.split_first()?;
    if others.is_empty() {
        given_by(first)
    } else {
        None
    }
}

/// The place of a value that is a variable.
fn place_of_variable(value: &Value) -> Option<u32>
    ensures { result ≡ definition.place_of_variable (value_tree value.now) }
{
    match value {
        Value::Variable(place) => Some(*place),
        _ => None,
    }
}

fn is_less(sign: TwoSign) -> bool
    ensures { result ≡ definition.is_less sign }
{
    match sign {
        TwoSign::Less => true,
        _ => false,
    }
}

/// What a value compares.
fn comparison_in(value: &Value) -> Option<Comparison<'_>>
    ensures { option_map comparison_of result ≡ definition.comparison (value_tree value.now) }
{
    match value {
        Value::Two { sign, left, right } => {
            if !is_less(*sign) {
                return None;
            }
            let place = place_of_variable(left)?;
            Some(Comparison {
                place,
                bound: right,
            })
        }
        _ => None,
    }
}

/// What code that is one comparison compares.
pub fn compared(acts: &[Act]) -> Option<Comparison<'_>>
    ensures { option_map comparison_of result ≡ definition.compared (act_trees acts.now) }
{
    comparison_in(given(acts)?)
}
