//! How large code is.
ghost use Rattle.std.specs.Prelude.{◌≡◌, ◌+◌, ◌<◌, nat_le, MatchOption};
ghost use Rattle.sd_graph.specs.TreeFold.{act_tree, act_trees, tasklet_tree, value_tree, value_trees};
ghost use Rattle.sd_validity.specs.rules.CodeSize as size;

use sd_graph::{Act, Tasklet, Value};

/// The most connectors of code.
const MOST_PORTS: usize = 64;

/// The most lines of code.
const MOST_LINES: u32 = 1024;

/// The most levels of an expression of code.
const MOST_LEVELS: u32 = 64;

/// Whether an expression has at most so many levels.
#[cycle(levels)]
#[tactic(auto, using(crate::proofs::limits_lemmas::Levels::max_within, crate::proofs::limits_lemmas::Levels::none_within, crate::proofs::limits_lemmas::Levels::one_within))]
fn has_levels(value: &Value, most: u32) -> bool
    ensures { result ≡ nat_le (size.levels_of (value_tree value.now)) most }
{
    match value {
        Value::Number(_) | Value::Variable(_) | Value::Local(_) => true,
        Value::Input { at, .. } => have_subscript_levels(at, most),
        Value::One { of, .. } => 0 < most && has_levels(of, most - 1),
        Value::Two { left, right, .. } => {
            0 < most && has_levels(left, most - 1) && has_levels(right, most - 1)
        }
        Value::Choice { value, when, other } => {
            0 < most
                && has_levels(value, most - 1)
                && has_levels(when, most - 1)
                && has_levels(other, most - 1)
        }
    }
}

/// Whether an input with these subscripts has.
#[cycle(levels)]
#[tactic(auto, using(crate::proofs::limits_lemmas::Levels::subscripts_none, crate::proofs::limits_lemmas::Levels::subscripts_over, crate::proofs::limits_lemmas::Levels::subscripts_within))]
fn have_subscript_levels(at: &[Value], most: u32) -> bool
    ensures { result ≡ nat_le (size.subscript_levels (value_trees at.now)) most }
{
    if 0 < at.len() {
        0 < most && have_levels(at, most - 1)
    } else {
        true
    }
}

/// Whether each of these expressions has.
#[cycle(levels)]
#[tactic(auto, using(crate::proofs::limits_lemmas::Levels::max_within))]
fn have_levels(all: &[Value], most: u32) -> bool
    ensures { result ≡ nat_le (size.greatest_levels (value_trees all.now)) most }
{
    for value in all {
        if !has_levels(value, most) {
            return false;
        }
    }
    true
}

/// Whether each expression of a statement has.
#[cycle(act_levels)]
#[tactic(auto, using(crate::proofs::limits_lemmas::Levels::max_within))]
fn has_act_levels(act: &Act, most: u32) -> bool
    ensures { result ≡ nat_le (size.act_levels (act_tree act.now)) most }
{
    match act {
        Act::Local { value, .. } => has_levels(value, most),
        Act::Out { at, value, .. } => have_levels(at, most) && has_levels(value, most),
        Act::When { when, body, other } => {
            has_levels(when, most) && have_act_levels(body, most) && have_act_levels(other, most)
        }
    }
}

#[cycle(act_levels)]
#[tactic(auto, using(crate::proofs::limits_lemmas::Levels::max_within))]
fn have_act_levels(acts: &[Act], most: u32) -> bool
    ensures { result ≡ nat_le (size.acts_levels (act_trees acts.now)) most }
{
    for act in acts {
        if !has_act_levels(act, most) {
            return false;
        }
    }
    true
}

/// How many lines are left of so many behind a statement; `None` where it has more.
#[cycle(lines)]
fn lines_behind_act(act: &Act, left: u32) -> Option<u32>
    ensures { MatchOption result (left < size.act_lines (act_tree act.now)) (λ rest. size.act_lines (act_tree act.now) + rest ≡ left) }
{
    let left = left.checked_sub(1)?;
    match act {
        Act::Local { .. } | Act::Out { .. } => Some(left),
        Act::When { body, other, .. } => {
            let left = lines_behind(body, left)?;
            lines_behind(other, left)
        }
    }
}

/// How many are left behind these statements.
#[cycle(lines)]
fn lines_behind(acts: &[Act], left: u32) -> Option<u32>
    ensures { MatchOption result (left < size.acts_lines (act_trees acts.now)) (λ rest. size.acts_lines (act_trees acts.now) + rest ≡ left) }
{
    let mut rest = left;
    for act in acts {
        rest = lines_behind_act(act, rest)?;
    }
    Some(rest)
}

/// Whether code has at most so many connectors.
fn are_ports_few(code: &Tasklet) -> bool
    ensures { result ≡ size.are_ports_few (tasklet_tree code.now) }
{
    let ins = code.ins.len();
    ins <= MOST_PORTS && code.outs.len() <= MOST_PORTS - ins
}

/// Whether it has at most so many lines.
fn are_lines_few(acts: &[Act]) -> bool
    ensures { result ≡ nat_le (size.acts_lines (act_trees acts.now)) 1024 }
{
    lines_behind(acts, MOST_LINES).is_some()
}

/// Whether code is within the limits.
pub(crate) fn is_code_small(code: &Tasklet) -> bool
    ensures { result ≡ size.is_code_small (tasklet_tree code.now) }
{
    are_ports_few(code) && are_lines_few(&code.body) && have_act_levels(&code.body, MOST_LEVELS)
}
