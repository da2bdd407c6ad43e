//! Error 6: not affine.
ghost use Rattle.std.specs.Prelude.{◌≡◌, IfOk};
ghost use Rattle.std.specs.List.{list_any};
ghost use Rattle.sd_lex.specs.TreeFold.{expressions_of, statement_of};
ghost use Rattle.sd_line.specs.line.HeadFold.{head_tree};
ghost use Rattle.sd_names.specs.Expressions.{expression_list};
ghost use Rattle.sd_refusal.specs.NotAffine as not_affine;

use crate::bound_test::{Rough, any_bound};
use sd_lex::{Expr, Statement};
use sd_line::{BlockKind, Head};
use sd_list::NoMemory;
use sd_names::{NameTest, Names, any_name_of};
use std::alloc::Global;

/// A loop variable or a parameter of a map.
#[derive(Clone, Copy)]
struct Varying<'a> {
    names: &'a Names,
}

impl<'a> NameTest for Varying<'a> {
    ghost use Rattle.std.specs.Prelude.{false};
    ghost use Rattle.sd_names.specs.Names.{is_variable_kind, meaning_of};

    ghost of_alone = { λ s name. is_variable_kind (meaning_of s.names.now name) };

    ghost of_subscripted = { λ s name count. false };

    fn alone(&self, name: &str) -> bool {
        self.names.is_variable(name)
    }

    fn subscripted(&self, _name: &str, _count: usize) -> bool {
        false
    }
}

#[tactic(auto, using(sd_names::proofs::NameLemmas::any_listed))]
fn any_varies(names: &Names, extents: &[Expr]) -> bool
    ensures { result ≡ list_any (not_affine.varies names.now) (expression_list (expressions_of extents.now)) }
{
    any_name_of(&Varying { names }, extents)
}

fn statement_varies(names: &Names, statement: &Statement) -> bool
    ensures { result ≡ not_affine.statement_varies names.now (statement_of statement.now) }
{
    match statement {
        Statement::Argument { extents, .. } => any_varies(names, extents),
        Statement::Local { extents, .. } => any_varies(names, extents),
        _ => false,
    }
}

fn head_varies(names: &Names, head: &Head) -> bool
    ensures { result ≡ not_affine.head_varies names.now (head_tree head.now) }
{
    match head {
        Head::Statement(statement) => statement_varies(names, statement),
        _ => false,
    }
}

/// Error 6: whether an affine place is not affine, or an extent names a loop variable.
pub fn is_not_affine(
    alloc: Global,
    names: &Names,
    kind: BlockKind,
    head: &Head,
) -> Result<bool, NoMemory>
    ensures { IfOk result (λ answer. answer ≡ not_affine.is_not_affine names.now kind (head_tree head.now)) }
{
    if any_bound(&Rough, alloc, kind, head)? {
        return Ok(true);
    }
    Ok(head_varies(names, head))
}
