//! Error 4: none of the forms.
ghost use Rattle.std.specs.Prelude.{◌≡◌, [], ◌∷◌, ◌++◌, IfOk, map, string_bytes};
ghost use Rattle.std.specs.List.{list_any};
ghost use Rattle.sd_lex.specs.TreeFold.{expression_of, expressions_of, dimensions_of, statement_of, call_argument_of};
ghost use Rattle.sd_lex.specs.PlainTree.{index};
ghost use Rattle.sd_line.specs.line.HeadFold.{head_tree};
ghost use Rattle.sd_names.specs.Expressions as expressions;
ghost use Rattle.sd_names.specs.Expressions.{expression_list};
ghost use Rattle.sd_refusal.specs.NotAForm as no_form;
ghost use Rattle.sd_names.specs.Names as names;
ghost use Rattle.sd_uses.specs.Uses as uses;
ghost use Rattle.sd_names.specs.Expressions.{expressions_of_dimensions};

use crate::site::Site;
use sd_lex::{Expr, Slot, Statement};
use sd_line::{BlockKind, Head};
use sd_list::NoMemory;
use sd_names::{
    NameSet, NameTest, Names, any_name, any_name_of, any_name_of_bound, any_name_of_dimensions,
};
use std::alloc::Global;

/// A container alone where a number has to be, or one before a wrong number of subscripts.
#[derive(Clone, Copy)]
pub struct Misuse<'a> {
    names: &'a Names,
}

impl<'a> NameTest for Misuse<'a> {
    ghost use Rattle.sd_refusal.specs.NotAForm.{is_container, is_misread};

    ghost of_alone = { λ s name. is_container s.names.now name };

    ghost of_subscripted = { λ s name count. is_misread s.names.now name count };

    fn alone(&self, name: &str) -> bool {
        self.names.container(name).is_some()
    }

    fn subscripted(&self, name: &str, count: usize) -> bool {
        is_misread(self.names, name, count)
    }
}

/// The same in a tasklet, where subscripts are those of a connector.
#[derive(Clone, Copy)]
pub struct MisuseInCode<'a> {
    names: &'a Names,
}

impl<'a> NameTest for MisuseInCode<'a> {
    ghost use Rattle.sd_refusal.specs.NotAForm.{is_misread_alone, is_misread_in_code};

    ghost of_alone = { λ s name. is_misread_alone s.names.now name };

    ghost of_subscripted = { λ s name count. is_misread_in_code s.names.now name count };

    fn alone(&self, name: &str) -> bool {
        is_misread_in_code(self.names, name, 0)
    }

    fn subscripted(&self, name: &str, count: usize) -> bool {
        is_misread_in_code(self.names, name, count)
    }
}

/// One of these names, alone or before subscripts.
#[derive(Clone, Copy)]
pub struct AmongNames<'a> {
    wanted: &'a NameSet,
}

impl<'a> NameTest for AmongNames<'a> {
    ghost use Rattle.sd_names.specs.Names.{is_among};

    ghost of_alone = { λ s name. is_among s.wanted.now name };

    ghost of_subscripted = { λ s name count. is_among s.wanted.now name };

    fn alone(&self, name: &str) -> bool {
        self.wanted.contains(name)
    }

    fn subscripted(&self, name: &str, _count: usize) -> bool {
        self.wanted.contains(name)
    }
}

fn is_misread(names: &Names, name: &str, count: usize) -> bool
    ensures { result ≡ no_form.is_misread names.now name.now count }
{
    names.is_stream(name) || names.is_array(name) && names.extents(name).len() != count
}

fn is_misread_in_code(names: &Names, name: &str, count: usize) -> bool
    ensures { result ≡ no_form.is_misread_in_code names.now name.now count }
{
    names.is_stream(name) || names.is_input(name) && names.dimensions(name) != count
}

fn misuses_name(names: &Names, expression: &Expr) -> bool
    ensures { result ≡ no_form.misuses_name names.now (expression_of expression.now) }
{
    any_name(&Misuse { names }, expression)
}

fn misuses_code(names: &Names, expression: &Expr) -> bool
    ensures { result ≡ no_form.misuses names.now (uses.code (expression_of expression.now)) }
{
    any_name(&MisuseInCode { names }, expression)
}

#[tactic(auto, using(sd_names::proofs::NameLemmas::any_listed))]
fn any_misuse(names: &Names, all: &[Expr]) -> bool
    ensures { result ≡ list_any (no_form.misuses_name names.now) (expression_list (expressions_of all.now)) }
{
    any_name_of(&Misuse { names }, all)
}

#[tactic(auto, using(crate::proofs::MisuseLemmas::misused_extents))]
fn any_misused_extent(names: &Names, all: &[Expr]) -> bool
    ensures { result ≡ list_any (no_form.misuses names.now) (map uses.extent (expression_list (expressions_of all.now))) }
{
    any_misuse(names, all)
}

fn any_misuse_of_dimensions(names: &Names, dimensions: &[Slot]) -> bool
    ensures { result ≡ list_any (no_form.misuses_name names.now) (expressions_of_dimensions (dimensions_of dimensions.now)) }
{
    any_name_of_dimensions(&Misuse { names }, dimensions)
}

#[tactic(auto, using(crate::proofs::MisuseLemmas::misused_bounds))]
fn any_misused_bound(names: &Names, ranges: &[Slot]) -> bool
    ensures { result ≡ list_any (no_form.misuses names.now) (map uses.bound (expressions_of_dimensions (dimensions_of ranges.now))) }
{
    any_misuse_of_dimensions(names, ranges)
}

fn has_other_dimensions(names: &Names, name: &str, count: usize) -> bool
    ensures { result ≡ no_form.has_other_count names.now name.now count }
{
    count != 0 && names.is_array(name) && names.extents(name).len() != count
}

fn misuses_dimensions(names: &Names, name: &str, dimensions: &[Slot]) -> bool
    ensures { result ≡ no_form.misuses_dimensions names.now name.now (dimensions_of dimensions.now) }
{
    has_other_dimensions(names, name, dimensions.len())
        || any_misuse_of_dimensions(names, dimensions)
}

fn is_misused_part(names: &Names, name: &str, dimensions: &[Slot]) -> bool
    ensures { result ≡ no_form.misuses names.now (uses.part name.now (dimensions_of dimensions.now)) }
{
    names.is_stream(name) || misuses_dimensions(names, name, dimensions)
}

fn is_misused_target(names: &Names, name: &str, dimensions: &[Slot]) -> bool
    ensures { result ≡ no_form.misuses names.now (uses.target name.now (dimensions_of dimensions.now)) }
{
    names.is_stream(name) && !dimensions.is_empty() || misuses_dimensions(names, name, dimensions)
}

#[tactic(auto, using(crate::proofs::MisuseLemmas::element_places))]
fn is_misused_element(names: &Names, name: &str, at: &[Expr]) -> bool
    ensures { result ≡ no_form.misuses names.now (uses.part name.now (map index (expression_list (expressions_of at.now)))) }
{
    names.is_stream(name) || has_other_dimensions(names, name, at.len()) || any_misuse(names, at)
}

#[tactic(auto, using(sd_names::proofs::NameLemmas::any_listed))]
fn any_misused_code(names: &Names, all: &[Expr]) -> bool
    ensures { result ≡ list_any (expressions.any_name (no_form.is_misread_alone names.now) (no_form.is_misread_in_code names.now)) (expression_list (expressions_of all.now)) }
{
    any_name_of(&MisuseInCode { names }, all)
}

#[tactic(auto, using(crate::proofs::MisuseLemmas::misused_uses))]
fn set_misuses(names: &Names, at: &[Expr], value: &Expr) -> bool
    ensures { result ≡ list_any (no_form.misuses names.now) (map uses.code (expression_list (expressions_of at.now)) ++ uses.code (expression_of value.now) ∷ []) }
{
    any_misused_code(names, at) || misuses_code(names, value)
}

fn any_misused_argument(names: &Names, arguments: &[(String, Vec<Slot>)]) -> bool
    ensures { result ≡ list_any (no_form.misuses names.now) (map uses.argument (map call_argument_of arguments.now)) }
{
    for (name, dimensions) in arguments {
        if is_misused_part(names, name, dimensions) {
            return true;
        }
    }
    false
}

#[tactic(auto, using(sd_names::proofs::ExpressionLemmas::any_append))]
fn statement_misuses(names: &Names, kind: BlockKind, statement: &Statement) -> bool
    ensures { result ≡ list_any (no_form.misuses names.now) (uses.statement_uses kind (statement_of statement.now)) }
{
    match statement {
        Statement::Argument { extents, .. } => any_misused_extent(names, extents),
        Statement::Local { extents, .. } => any_misused_extent(names, extents),
        Statement::Assign {
            name,
            at,
            value,
            ..
        } => { is_misused_element(names, name, at) || misuses_name(names, value) }
        Statement::Copy {
            to,
            to_dims,
            from,
            from_dims,
            ..
        } => { is_misused_part(names, to, to_dims) || is_misused_part(names, from, from_dims) }
        Statement::Map { ranges, .. } => any_misused_bound(names, ranges),
        Statement::Call {
            name,
            arguments,
            ..
        } => { names.is_stream(name) || any_misused_argument(names, arguments) }
        Statement::For { begin, end, .. } => {
            any_name_of_bound(&Misuse { names }, begin) || misuses_name(names, end)
        }
        Statement::While { when, .. } => misuses_name(names, when),
        Statement::If { when, .. } => misuses_name(names, when),
        Statement::When { when, .. } => misuses_code(names, when),
        Statement::Set { value, .. } => misuses_code(names, value),
        Statement::SetAt { at, value, .. } => set_misuses(names, at, value),
        Statement::Stream { .. }
        | Statement::Reduce { .. }
        | Statement::Tasklet { .. }
        | Statement::Consume { .. }
        | Statement::Input { .. }
        | Statement::Output { .. } => false,
    }
}

fn condition_misuses(names: &Names, kind: BlockKind, when: &Expr) -> bool
    ensures { result ≡ no_form.misuses names.now (uses.condition kind (expression_of when.now)) }
{
    match kind {
        BlockKind::Tasklet => misuses_code(names, when),
        _ => misuses_name(names, when),
    }
}

fn uses_wrongly(names: &Names, kind: BlockKind, head: &Head) -> bool
    ensures { result ≡ list_any (no_form.misuses names.now) (uses.uses kind (head_tree head.now)) }
{
    match head {
        Head::Statement(statement) => statement_misuses(names, kind, statement),
        Head::Reduce { from, to, .. } => names.is_stream(from) || names.is_stream(to),
        Head::Input { memlet, .. } => is_misused_part(names, &memlet.name, &memlet.dims),
        Head::Output { memlet, .. } => is_misused_target(names, &memlet.name, &memlet.dims),
        Head::Elif(when) => condition_misuses(names, kind, when),
        _ => false,
    }
}

fn is_program(kind: BlockKind) -> bool
    ensures { result ≡ no_form.is_program kind }
{
    match kind {
        BlockKind::Program => true,
        _ => false,
    }
}

/// Whether the ranges name one of the set.
fn mention_any(wanted: &NameSet, ranges: &[Slot]) -> bool
    ensures { result ≡ list_any (no_form.mentions_any wanted.now) (expressions_of_dimensions (dimensions_of ranges.now)) }
{
    any_name_of_dimensions(&AmongNames { wanted }, ranges)
}

/// Whether the ranges of a map name its own parameters.
#[tactic(auto, using(crate::proofs::MisuseLemmas::named_once), unfolding(crate::specs::NotAForm::names_itself))]
fn names_itself(alloc: Global, parameters: &[String], ranges: &[Slot]) -> Result<bool, NoMemory>
    ensures { IfOk result (λ answer. answer ≡ no_form.names_itself (map string_bytes parameters.now) (dimensions_of ranges.now)) }
{
    let wanted = NameSet::of(alloc, parameters)?;
    Ok(mention_any(&wanted, ranges))
}

/// Whether the name is an output with another number of subscripts.
fn is_other_output(names: &Names, name: &str, count: usize) -> bool
    ensures { result ≡ no_form.is_other_output names.now name.now count }
{
    names.is_output(name) && names.dimensions(name) != count
}

fn misplaces_element(names: &Names, name: &str, at: &[Expr]) -> bool
    ensures { result ≡ no_form.misplaces_element names.now name.now (expressions.count_of (expressions_of at.now)) }
{
    names.is_stream(name)
        || names.is_input(name)
        || is_other_output(names, name, sd_names::count_of(at))
}

fn block_is_misplaced(kind: BlockKind, statement: &Statement) -> bool
    ensures { result ≡ no_form.block_is_misplaced kind (statement_of statement.now) }
{
    match statement {
        Statement::For { .. } => !is_program(kind),
        Statement::While { .. } => !is_program(kind),
        Statement::If { .. } => !is_program(kind),
        _ => false,
    }
}

fn map_is_misplaced(alloc: Global, statement: &Statement) -> Result<bool, NoMemory>
    ensures { IfOk result (λ answer. answer ≡ no_form.map_is_misplaced (statement_of statement.now)) }
{
    match statement {
        Statement::Map { params, ranges, .. } => names_itself(alloc, params, ranges),
        _ => Ok(false),
    }
}

fn set_is_misplaced(names: &Names, statement: &Statement) -> bool
    ensures { result ≡ no_form.set_is_misplaced names.now (statement_of statement.now) }
{
    match statement {
        Statement::Set { name, .. } => names.is_input(name) || is_other_output(names, name, 0),
        Statement::SetAt { name, at, .. } => misplaces_element(names, name, at),
        _ => false,
    }
}

fn statement_is_misplaced(
    alloc: Global,
    names: &Names,
    kind: BlockKind,
    statement: &Statement,
) -> Result<bool, NoMemory>
    ensures { IfOk result (λ answer. answer ≡ no_form.statement_is_misplaced names.now kind (statement_of statement.now)) }
{
    if block_is_misplaced(kind, statement) || map_is_misplaced(alloc, statement)? {
        return Ok(true);
    }
    Ok(set_is_misplaced(names, statement))
}

fn is_misplaced(alloc: Global, names: &Names, site: Site, head: &Head) -> Result<bool, NoMemory>
    ensures { IfOk result (λ answer. answer ≡ no_form.is_misplaced names.now site (head_tree head.now)) }
{
    match head {
        Head::Symbol { name, quoted } => Ok(name.as_str() != quoted.as_str()),
        Head::Statement(statement) => statement_is_misplaced(alloc, names, site.kind, statement),
        Head::Input { .. } => Ok(!site.connects),
        Head::Output { .. } => Ok(!site.connects),
        _ => Ok(false),
    }
}

/// Error 4: whether the line may not stand here, or uses a container in another way than it allows.
pub fn is_no_form(alloc: Global, names: &Names, site: Site, head: &Head) -> Result<bool, NoMemory>
    ensures { IfOk result (λ answer. answer ≡ no_form.is_no_form names.now site (head_tree head.now)) }
{
    if is_misplaced(alloc, names, site, head)? {
        return Ok(true);
    }
    Ok(uses_wrongly(names, site.kind, head))
}
