//! Error 8: over a limit.
ghost use Rattle.std.specs.Prelude.{◌≡◌, ◌+◌, ◌≤◌, ◌^◌, ℕ, min, nat_lt, IfOk, map};
ghost use Rattle.std.specs.List.{list_any};
ghost use Rattle.sd_lex.specs.TreeFold.{expression_of, dimension_of, dimensions_of, statement_of, call_argument_of};
ghost use Rattle.sd_line.specs.line.HeadFold.{head_tree};
ghost use Rattle.sd_names.specs.Expressions as expressions;
ghost use Rattle.sd_names.specs.Names.{signature_by, meaning_of};
ghost use Rattle.sd_refusal.specs.OverLimit as over;

use crate::bound_test::{Wide, any_bound};
use crate::site::Site;
use sd_lex::{Expr, Slot, Statement};
use sd_line::{BlockKind, Head};
use sd_list::NoMemory;
use sd_names::Names;
use std::alloc::Global;

/// A step has a size below 2^40.
const MOST_STEP: i64 = 1_099_511_627_776;

/// So many elements count as one more than a tasklet may have connectors.
const MANY: usize = 65;

fn is_wide_step(step: Option<i64>) -> bool
    ensures { result ≡ over.is_wide_step step }
{
    match step {
        Some(step) => step >= MOST_STEP,
        None => false,
    }
}

fn has_wide_step(dimension: &Slot) -> bool
    ensures { result ≡ over.has_wide_step (dimension_of dimension.now) }
{
    match dimension {
        Slot::Index(_) => false,
        Slot::Span { step, .. } => is_wide_step(*step),
    }
}

fn any_wide_step(dimensions: &[Slot]) -> bool
    ensures { result ≡ list_any over.has_wide_step (dimensions_of dimensions.now) }
{
    for dimension in dimensions {
        if has_wide_step(dimension) {
            return true;
        }
    }
    false
}

fn any_wide_argument(arguments: &[(String, Vec<Slot>)]) -> bool
    ensures { result ≡ list_any over.argument_has_wide_step (map call_argument_of arguments.now) }
{
    for (name, dimensions) in arguments {
        if any_wide_step(dimensions) {
            return true;
        }
    }
    false
}

fn statement_has_wide_step(statement: &Statement) -> bool
    ensures { result ≡ over.statement_has_wide_step (statement_of statement.now) }
{
    match statement {
        Statement::Copy {
            to_dims,
            from_dims,
            ..
        } => any_wide_step(to_dims) || any_wide_step(from_dims),
        Statement::Map { ranges, .. } => any_wide_step(ranges),
        Statement::Call { arguments, .. } => any_wide_argument(arguments),
        Statement::For { step, .. } => is_wide_step(*step),
        _ => false,
    }
}

fn head_has_wide_step(head: &Head) -> bool
    ensures { result ≡ over.head_has_wide_step (head_tree head.now) }
{
    match head {
        Head::Statement(statement) => statement_has_wide_step(statement),
        Head::Input { memlet, .. } => any_wide_step(&memlet.dims),
        Head::Output { memlet, .. } => any_wide_step(&memlet.dims),
        _ => false,
    }
}

#[tactic(auto, using(sd_names::proofs::ExpressionLemmas::count_expressions))]
fn statement_is_long(statement: &Statement) -> bool
    ensures { result ≡ over.statement_is_long (statement_of statement.now) }
{
    match statement {
        Statement::Local { extents, .. } => 4 < sd_names::count_of(extents),
        Statement::Map { params, .. } => 8 < params.len(),
        _ => false,
    }
}

/// Whether there are more than four dimensions, or more than eight parameters.
fn is_long(head: &Head) -> bool
    ensures { result ≡ over.is_long (head_tree head.now) }
{
    match head {
        Head::Statement(statement) => statement_is_long(statement),
        _ => false,
    }
}

fn statement_containers(statement: &Statement) -> usize
    ensures { result ≡ over.statement_containers (statement_of statement.now) }
{
    match statement {
        Statement::Argument { .. } => 1,
        Statement::Local { .. } => 1,
        Statement::Stream { .. } => 1,
        _ => 0,
    }
}

/// How many containers a line makes.
pub fn new_containers(head: &Head) -> usize
    ensures { result ≡ over.new_containers (head_tree head.now) }
{
    match head {
        Head::Statement(statement) => statement_containers(statement),
        Head::Consume { .. } => 1,
        _ => 0,
    }
}

fn statement_states(statement: &Statement) -> usize
    ensures { result ≡ over.statement_states (statement_of statement.now) }
{
    match statement {
        Statement::Assign { .. } => 1,
        Statement::Copy { .. } => 1,
        Statement::Map { .. } => 1,
        Statement::Tasklet { .. } => 1,
        Statement::Call { .. } => 1,
        Statement::If { .. } => 1,
        Statement::For { .. } => 2,
        Statement::While { .. } => 2,
        _ => 0,
    }
}

fn head_states(head: &Head) -> usize
    ensures { result ≡ over.head_states (head_tree head.now) }
{
    match head {
        Head::Statement(statement) => statement_states(statement),
        Head::Reduce { .. } => 1,
        Head::ConsumeDecorator { .. } => 1,
        Head::Elif(_) => 1,
        _ => 0,
    }
}

/// How many states a line makes.
pub fn new_states(kind: BlockKind, head: &Head) -> usize
    ensures { result ≡ over.new_states kind (head_tree head.now) }
{
    match kind {
        BlockKind::Program => head_states(head),
        _ => 0,
    }
}

/// How many elements stand in the expression, counted up to a limit.
fn element_count(expression: &Expr) -> usize
    ensures { result ≡ min 65 (expressions.element_count (expression_of expression.now)) }
{
    match expression {
        Expr::Number(_) | Expr::Name(_) => 0,
        Expr::Element { .. } => 1,
        Expr::One { of, .. } => element_count(of),
        Expr::Two { left, right, .. } => at_most_many(element_count(left), element_count(right)),
        Expr::Choice { value, when, other } => at_most_many(
            at_most_many(element_count(value), element_count(when)),
            element_count(other),
        ),
    }
}

fn at_most_many(left: usize, right: usize) -> usize
    requires left { left ≤ 65 }
    requires right { right ≤ 65 }
    ensures { result ≡ min 65 (left + right) }
{
    (left + right).min(MANY)
}

/// Whether elements and so many connectors more are too many.
fn has_many_elements(expression: &Expr, more: usize) -> bool
    requires { more ≤ 64 }
    ensures { result ≡ nat_lt 64 (expressions.element_count (expression_of expression.now) + more) }
{
    64 < element_count(expression) + more
}

/// Whether the sum of both is above the limit.
fn is_above(limit: usize, count: usize, more: usize) -> bool
    ensures { result ≡ nat_lt limit (count + more) }
{
    match count.checked_add(more) {
        Some(sum) => limit < sum,
        None => true,
    }
}

fn of_itself(add: bool, kind: BlockKind) -> usize
    ensures result { result ≡ over.of_itself add kind }
    ensures small { result ≤ 1 }
{
    match kind {
        BlockKind::Program => if add { 1 } else { 0 },
        _ => 0,
    }
}

fn statement_connects_much(kind: BlockKind, statement: &Statement) -> bool
    ensures { result ≡ over.statement_connects_much kind (statement_of statement.now) }
{
    match statement {
        Statement::Assign { add, value, .. } => {
            has_many_elements(value, of_itself(*add, kind) + 1)
        }
        Statement::While { when, .. } => has_many_elements(when, 1),
        Statement::If { when, .. } => has_many_elements(when, 1),
        _ => false,
    }
}

fn elif_connects_much(kind: BlockKind, when: &Expr) -> bool
    ensures { result ≡ over.elif_connects_much kind (expression_of when.now) }
{
    match kind {
        BlockKind::Tasklet => false,
        _ => has_many_elements(when, 1),
    }
}

/// Whether the tasklet of the line has too many connectors.
fn connects_much(before: usize, kind: BlockKind, head: &Head) -> bool
    ensures { result ≡ over.connects_much before kind (head_tree head.now) }
{
    match head {
        Head::Statement(statement) => statement_connects_much(kind, statement),
        Head::Elif(when) => elif_connects_much(kind, when),
        Head::Input { .. } => is_above(64, before, 1),
        Head::Output { .. } => is_above(64, before, 1),
        _ => false,
    }
}

/// How many lines of a tasklet a line is.
pub fn new_lines(kind: BlockKind) -> usize
    ensures { result ≡ over.new_lines kind }
{
    match kind {
        BlockKind::Tasklet => 1,
        _ => 0,
    }
}

/// Whether a call of the program makes a chain of more than so many calls.
fn program_calls_deeper(names: &Names, name: &str, limit: usize) -> bool
    ensures { result ≡ nat_lt limit (over.depth_by (signature_by (meaning_of names.now name.now))) }
{
    match names.signature(name) {
        Some(signature) => is_above(limit, signature.depth, 1),
        None => false,
    }
}

fn statement_calls_deeply(names: &Names, statement: &Statement) -> bool
    ensures { result ≡ nat_lt 8 (over.statement_call_depth names.now (statement_of statement.now)) }
{
    match statement {
        Statement::Call { name, .. } => program_calls_deeper(names, name, 8),
        _ => false,
    }
}

fn calls_deeply(names: &Names, head: &Head) -> bool
    ensures { result ≡ nat_lt 8 (over.call_depth names.now (head_tree head.now)) }
{
    match head {
        Head::Statement(statement) => statement_calls_deeply(names, statement),
        _ => false,
    }
}

/// Whether a step is too wide, or a list too long.
fn is_wide_or_long(head: &Head) -> bool
    ensures { result ≡ over.is_wide_or_long (head_tree head.now) }
{
    head_has_wide_step(head) || is_long(head)
}

/// Whether too much is counted behind the line.
fn counts_much(names: &Names, site: Site, head: &Head) -> bool
    ensures { result ≡ over.counts_much names.now site (head_tree head.now) }
{
    let Site { kind, counts, .. } = site;
    is_above(256, counts.containers, new_containers(head))
        || is_above(256, counts.states, new_states(kind, head))
        || connects_much(counts.connectors, kind, head)
        || is_above(1024, counts.lines, new_lines(kind))
        || calls_deeply(names, head)
}

/// Error 8: whether the line passes a limit.
pub fn is_over_limit(
    alloc: Global,
    names: &Names,
    site: Site,
    head: &Head,
) -> Result<bool, NoMemory>
    ensures { IfOk result (λ answer. answer ≡ over.is_over_limit names.now site (head_tree head.now)) }
{
    if 7 < site.depth {
        return Ok(true);
    }
    if any_bound(&Wide { names }, alloc, site.kind, head)? {
        return Ok(true);
    }
    Ok(is_wide_or_long(head) || counts_much(names, site, head))
}
