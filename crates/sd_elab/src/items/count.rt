ghost use Rattle.std.specs.Prelude.{◌≡◌, length, map, string_bytes, IfOk};
ghost use Rattle.sd_lex.specs.TreeFold.{statement_of, block_of};
ghost use Rattle.sd_elab.specs.items.Counts as counts;
ghost use Rattle.sd_program.specs.Declared as declared;

use sd_lex::Statement;
use sd_list::NoMemory;
use sd_task::more;

/// How many containers a statement declares, in the blocks below it too.
#[cycle(containers)]
pub(crate) fn containers_in(statement: &Statement) -> Result<u32, NoMemory>
    ensures { IfOk result (λ count. count ≡ declared.containers_in (statement_of statement.now)) }
{
    match statement {
        Statement::Argument { .. } | Statement::Local { .. } | Statement::Stream { .. } => Ok(1),
        Statement::Map { body, .. } | Statement::For { body, .. } => count_containers(body),
        Statement::While { body, .. } => count_containers(body),
        Statement::Consume { body, .. } => more(1, count_containers(body)?),
        Statement::If { body, other, .. } => {
            more(count_containers(body)?, count_containers(other)?)
        }
        _ => Ok(0),
    }
}

/// How many containers a block declares, in the blocks below it too.
#[cycle(containers)]
pub fn count_containers(body: &[Statement]) -> Result<u32, NoMemory>
    ensures { IfOk result (λ count. count ≡ declared.containers_in_all (block_of body.now)) }
{
    let mut all = 0;
    for statement in body {
        all = more(all, containers_in(statement)?)?;
    }
    Ok(all)
}

/// How many names there are, as a number of 32 bits.
#[tactic(auto, using(crate::proofs::items_lemmas::ListLemmas::map_length))]
pub(crate) fn count_names(names: &[String]) -> Result<u32, NoMemory>
    ensures { IfOk result (λ count. count ≡ length (map string_bytes names.now)) }
{
    u32::try_from(names.len()).map_err(|_| NoMemory)
}

/// How many variables a statement declares, in the blocks below it too.
#[cycle(variables)]
pub(crate) fn variables_in(statement: &Statement) -> Result<u32, NoMemory>
    ensures { IfOk result (λ count. count ≡ counts.variables_in (statement_of statement.now)) }
{
    match statement {
        Statement::Map { params, body, .. } => more(count_names(params)?, count_variables(body)?),
        Statement::For { body, .. } => more(1, count_variables(body)?),
        Statement::Consume { body, .. } | Statement::While { body, .. } => count_variables(body),
        Statement::If { body, other, .. } => more(count_variables(body)?, count_variables(other)?),
        _ => Ok(0),
    }
}

/// How many variables a block declares, in the blocks below it too.
#[cycle(variables)]
pub fn count_variables(body: &[Statement]) -> Result<u32, NoMemory>
    ensures { IfOk result (λ count. count ≡ counts.variables_in_all (block_of body.now)) }
{
    let mut all = 0;
    for statement in body {
        all = more(all, variables_in(statement)?)?;
    }
    Ok(all)
}
