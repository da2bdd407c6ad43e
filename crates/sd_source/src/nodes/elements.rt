ghost use Rattle.std.specs.Prelude.{◌≡◌, OnOk};
ghost use Rattle.sd_lex.specs.TreeFold.{expression_of};
ghost use Rattle.sd_source.specs.nodes.SourceItems.{with_elements};

use crate::nodes::name_set::NameSet;
use sd_lex::Expr;
use sd_list::NoMemory;
use std::alloc::Global;

/// Notes the containers of an expression's elements, from left to right.
pub fn note_elements(
    alloc: Global,
    own: &NameSet,
    expression: &Expr,
    names: &mut NameSet,
) -> Result<(), NoMemory>
    ensures { OnOk result (names.new ≡ with_elements own.now names.old (expression_of expression.now)) }
{
    match expression {
        Expr::Number(_) | Expr::Name(_) => {}
        Expr::Element { name, .. } => names.note_own(alloc, own, name)?,
        Expr::One { of, .. } => note_elements(alloc, own, of, names)?,
        Expr::Two { left, right, .. } => {
            note_elements(alloc, own, left, names)?;
            note_elements(alloc, own, right, names)?;
        }
        Expr::Choice { value, when, other } => {
            note_elements(alloc, own, value, names)?;
            note_elements(alloc, own, when, names)?;
            note_elements(alloc, own, other, names)?;
        }
    }
    Ok(())
}
