//! Error 5: names that are not in force for their uses.
ghost use Rattle.std.specs.Prelude.{◌≡◌, [], ◌∷◌, ◌++◌, map};
ghost use Rattle.std.specs.List.{list_any};
ghost use Rattle.sd_lex.specs.TreeFold.{expression_of, expressions_of, dimensions_of, statement_of, call_argument_of};
ghost use Rattle.sd_names.specs.Expressions.{expression_list};
ghost use Rattle.sd_line.specs.line.HeadFold.{head_tree};
ghost use Rattle.sd_lex.specs.PlainTree.{index};
ghost use Rattle.sd_names.specs.Expressions.{expressions_of_dimensions};
ghost use Rattle.sd_uses.specs.Uses as uses;
ghost use Rattle.sd_uses.specs.UnknownName as unknown;

use sd_lex::{Expr, Slot, Statement};
use sd_line::{BlockKind, Head};
use sd_names::{NameTest, Names, any_name, any_name_of, any_name_of_bound, any_name_of_dimensions};

/// A name alone that is no number, or a name before subscripts that is no array.
#[derive(Clone, Copy)]
pub struct Unknown<'a> {
    names: &'a Names,
}

impl<'a> NameTest for Unknown<'a> {
    ghost use Rattle.std.specs.Prelude.{not};
    ghost use Rattle.sd_names.specs.Names.{is_number_kind, meaning_of, is_array};

    ghost of_alone = { λ s name. not (is_number_kind (meaning_of s.names.now name)) };

    ghost of_subscripted = { λ s name count. not (is_array s.names.now name) };

    fn alone(&self, name: &str) -> bool {
        !self.names.is_number(name)
    }

    fn subscripted(&self, name: &str, _count: usize) -> bool {
        !self.names.is_array(name)
    }
}

/// The same in a tasklet, where subscripts are those of a connector.
#[derive(Clone, Copy)]
pub struct UnknownInCode<'a> {
    names: &'a Names,
}

impl<'a> NameTest for UnknownInCode<'a> {
    ghost use Rattle.std.specs.Prelude.{not};
    ghost use Rattle.sd_names.specs.Names.{is_number_in_code, meaning_of, is_input};

    ghost of_alone = { λ s name. not (is_number_in_code (meaning_of s.names.now name)) };

    ghost of_subscripted = { λ s name count. not (is_input (meaning_of s.names.now name)) };

    fn alone(&self, name: &str) -> bool {
        !self.names.is_number_in_code(name)
    }

    fn subscripted(&self, name: &str, _count: usize) -> bool {
        !self.names.is_input(name)
    }
}

/// Whether a name of the expression is not in force for its use.
pub fn has_unknown(names: &Names, expression: &Expr) -> bool
    ensures { result ≡ unknown.has_unknown names.now (expression_of expression.now) }
{
    any_name(&Unknown { names }, expression)
}

fn has_unknown_in_code(names: &Names, expression: &Expr) -> bool
    ensures { result ≡ unknown.has_unknown_in_code names.now (expression_of expression.now) }
{
    any_name(&UnknownInCode { names }, expression)
}

#[tactic(auto, using(sd_names::proofs::NameLemmas::any_listed))]
fn any_unknown(names: &Names, all: &[Expr]) -> bool
    ensures { result ≡ list_any (unknown.has_unknown names.now) (expression_list (expressions_of all.now)) }
{
    any_name_of(&Unknown { names }, all)
}

#[tactic(auto, using(crate::proofs::UseLemmas::unknown_extents))]
fn any_unknown_extent(names: &Names, all: &[Expr]) -> bool
    ensures { result ≡ list_any (unknown.is_unknown_use names.now) (map uses.extent (expression_list (expressions_of all.now))) }
{
    any_unknown(names, all)
}

#[tactic(auto, using(crate::proofs::UseLemmas::unknown_bounds))]
fn any_unknown_bound(names: &Names, ranges: &[Slot]) -> bool
    ensures { result ≡ list_any (unknown.is_unknown_use names.now) (map uses.bound (expressions_of_dimensions (dimensions_of ranges.now))) }
{
    any_name_of_dimensions(&Unknown { names }, ranges)
}

#[tactic(auto, using(crate::proofs::UseLemmas::index_places))]
fn is_unknown_element(names: &Names, name: &str, at: &[Expr]) -> bool
    ensures { result ≡ unknown.is_unknown_use names.now (uses.part name.now (map index (expression_list (expressions_of at.now)))) }
{
    !names.is_array(name) || any_unknown(names, at)
}

#[tactic(auto, using(sd_names::proofs::NameLemmas::any_listed))]
fn any_unknown_in_code(names: &Names, all: &[Expr]) -> bool
    ensures { result ≡ list_any (unknown.has_unknown_in_code names.now) (expression_list (expressions_of all.now)) }
{
    any_name_of(&UnknownInCode { names }, all)
}

#[tactic(auto, using(crate::proofs::UseLemmas::unknown_uses))]
fn set_has_unknown(names: &Names, at: &[Expr], value: &Expr) -> bool
    ensures { result ≡ list_any (unknown.is_unknown_use names.now) (map uses.code (expression_list (expressions_of at.now)) ++ uses.code (expression_of value.now) ∷ []) }
{
    any_unknown_in_code(names, at) || has_unknown_in_code(names, value)
}

fn is_unknown_part(names: &Names, name: &str, dimensions: &[Slot]) -> bool
    ensures { result ≡ unknown.is_unknown_use names.now (uses.part name.now (dimensions_of dimensions.now)) }
{
    !names.is_array(name) || any_name_of_dimensions(&Unknown { names }, dimensions)
}

fn is_unknown_target(names: &Names, name: &str, dimensions: &[Slot]) -> bool
    ensures { result ≡ unknown.is_unknown_use names.now (uses.target name.now (dimensions_of dimensions.now)) }
{
    !(names.is_array(name) || names.is_stream(name))
        || any_name_of_dimensions(&Unknown { names }, dimensions)
}

fn any_unknown_argument(names: &Names, arguments: &[(String, Vec<Slot>)]) -> bool
    ensures { result ≡ list_any (unknown.is_unknown_use names.now) (map uses.argument (map call_argument_of arguments.now)) }
{
    for (name, dimensions) in arguments {
        if is_unknown_part(names, name, dimensions) {
            return true;
        }
    }
    false
}

#[tactic(auto, using(sd_names::proofs::ExpressionLemmas::any_append))]
fn statement_has_unknown(names: &Names, kind: BlockKind, statement: &Statement) -> bool
    ensures { result ≡ list_any (unknown.is_unknown_use names.now) (uses.statement_uses kind (statement_of statement.now)) }
{
    match statement {
        Statement::Argument { extents, .. } => any_unknown_extent(names, extents),
        Statement::Local { extents, .. } => any_unknown_extent(names, extents),
        Statement::Assign {
            name,
            at,
            value,
            ..
        } => { is_unknown_element(names, name, at) || has_unknown(names, value) }
        Statement::Copy {
            to,
            to_dims,
            from,
            from_dims,
            ..
        } => { is_unknown_part(names, to, to_dims) || is_unknown_part(names, from, from_dims) }
        Statement::Map { ranges, .. } => any_unknown_bound(names, ranges),
        Statement::Call {
            name,
            arguments,
            ..
        } => { !names.is_callable(name) || any_unknown_argument(names, arguments) }
        Statement::For { begin, end, .. } => {
            any_name_of_bound(&Unknown { names }, begin) || has_unknown(names, end)
        }
        Statement::While { when, .. } => has_unknown(names, when),
        Statement::If { when, .. } => has_unknown(names, when),
        Statement::When { when, .. } => has_unknown_in_code(names, when),
        Statement::Set { value, .. } => has_unknown_in_code(names, value),
        Statement::SetAt { at, value, .. } => { set_has_unknown(names, at, value) }
        Statement::Stream { .. }
        | Statement::Reduce { .. }
        | Statement::Tasklet { .. }
        | Statement::Consume { .. }
        | Statement::Input { .. }
        | Statement::Output { .. } => false,
    }
}

fn assigns_unknown(names: &Names, head: &Head) -> bool
    ensures { result ≡ unknown.assigns_unknown names.now (head_tree head.now) }
{
    match head {
        Head::Statement(statement) => statement_assigns_unknown(names, statement),
        _ => false,
    }
}

fn statement_assigns_unknown(names: &Names, statement: &Statement) -> bool
    ensures { result ≡ unknown.statement_assigns_unknown names.now (statement_of statement.now) }
{
    match statement {
        Statement::SetAt { name, .. } => !names.is_output(name),
        _ => false,
    }
}

fn condition_has_unknown(names: &Names, kind: BlockKind, when: &Expr) -> bool
    ensures { result ≡ unknown.is_unknown_use names.now (uses.condition kind (expression_of when.now)) }
{
    match kind {
        BlockKind::Tasklet => has_unknown_in_code(names, when),
        _ => has_unknown(names, when),
    }
}

fn uses_unknown(names: &Names, kind: BlockKind, head: &Head) -> bool
    ensures { result ≡ list_any (unknown.is_unknown_use names.now) (uses.uses kind (head_tree head.now)) }
{
    match head {
        Head::Statement(statement) => statement_has_unknown(names, kind, statement),
        Head::Reduce { from, to, .. } => !names.is_array(from) || !names.is_array(to),
        Head::Input { memlet, .. } => is_unknown_part(names, &memlet.name, &memlet.dims),
        Head::Output { memlet, .. } => is_unknown_target(names, &memlet.name, &memlet.dims),
        Head::ConsumeDecorator { stream, .. } => !names.is_stream(stream),
        Head::Elif(when) => condition_has_unknown(names, kind, when),
        _ => false,
    }
}

/// Error 5: whether a name of the line is not in force for its use.
pub fn has_unknown_name(names: &Names, kind: BlockKind, head: &Head) -> bool
    ensures { result ≡ unknown.has_unknown_name names.now kind (head_tree head.now) }
{
    assigns_unknown(names, head) || uses_unknown(names, kind, head)
}
