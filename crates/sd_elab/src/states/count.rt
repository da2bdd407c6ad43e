ghost use Rattle.std.specs.Prelude.{◌≡◌, IfOk};
ghost use Rattle.sd_lex.specs.TreeFold.{statement_of, block_of};
ghost use Rattle.sd_program.specs.Declared as declared;

use sd_lex::Statement;
use sd_list::NoMemory;
use sd_task::more;

/// How many states a statement makes.
#[cycle(counts)]
fn states_in(statement: &Statement) -> Result<u32, NoMemory>
    ensures { IfOk result (λ made. made ≡ declared.states_in (statement_of statement.now)) }
{
    match statement {
        Statement::Argument { .. } | Statement::Local { .. } | Statement::Stream { .. } => Ok(0),
        Statement::If { body, other, .. } => {
            more(more(1, states_in_all(body)?)?, states_in_other(other)?)
        }
        Statement::While { body, .. } | Statement::For { body, .. } => {
            more(more(2, states_in_all(body)?)?, 1)
        }
        _ => Ok(1),
    }
}

/// How many states several statements make.
#[cycle(counts)]
pub(crate) fn states_in_all(body: &[Statement]) -> Result<u32, NoMemory>
    ensures { IfOk result (λ made. made ≡ declared.states_in_all (block_of body.now)) }
{
    let mut all = 0;
    for statement in body {
        all = more(all, states_in(statement)?)?;
    }
    Ok(all)
}

/// How many states an `else` makes, with the one behind both blocks.
#[cycle(counts)]
#[tactic(auto, using(crate::proofs::states_lemmas::CountLemmas::other_counted))]
fn states_in_other(other: &[Statement]) -> Result<u32, NoMemory>
    ensures { IfOk result (λ made. made ≡ declared.states_in_other (block_of other.now)) }
{
    if other.is_empty() {
        Ok(1)
    } else {
        more(more(1, states_in_all(other)?)?, 1)
    }
}
