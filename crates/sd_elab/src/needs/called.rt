ghost use Rattle.std.specs.Prelude.{◌≡◌, map, string_bytes, OnOk};
ghost use Rattle.sd_lex.specs.TreeFold.{block_of, statement_of};
ghost use Rattle.sd_elab.specs.needs.Needed as definition;
ghost use Rattle.sd_source.specs.nodes.Names.{is_among, noted, with_name};

use indexmap::IndexSet;
use sd_lex::Statement;
use sd_list::NoMemory;
use std::alloc::Global;

/// Whether a name is one of these.
#[tactic(auto, using(sd_source::proofs::nodes_lemmas::NameLemmas::among_keys))]
pub(crate) fn is_noted(names: &IndexSet<String>, name: &str) -> bool
    ensures { result ≡ is_among (map string_bytes names.now.keys) name.now }
{
    names.contains(name)
}

/// Adds a name at the end, unless it is there.
#[tactic(auto, using(sd_source::proofs::nodes_lemmas::NameLemmas::keys_with_name))]
fn note(alloc: Global, names: &mut IndexSet<String>, name: &str) -> Result<(), NoMemory>
    ensures { OnOk result (map string_bytes names.new.keys ≡ with_name (map string_bytes names.old.keys) name.now) }
{
    if !is_noted(names, name) {
        names.insert(String::from_str(alloc, name)?)?;
    }
    Ok(())
}

/// Adds the names of the programs that a statement calls, in the blocks below it too.
#[cycle(called)]
fn note_called_by(
    alloc: Global,
    names: &mut IndexSet<String>,
    statement: &Statement,
) -> Result<(), NoMemory>
    ensures { OnOk result (map string_bytes names.new.keys ≡ noted (map string_bytes names.old.keys) (definition.called_by (statement_of statement.now))) }
{
    match statement {
        Statement::Call { name, .. } => note(alloc, names, name.as_str()),
        Statement::Map { body, .. } | Statement::Consume { body, .. } => {
            note_called(alloc, names, body)
        }
        Statement::For { body, .. } | Statement::While { body, .. } => {
            note_called(alloc, names, body)
        }
        Statement::If { body, other, .. } => {
            note_called(alloc, names, body)?;
            note_called(alloc, names, other)
        }
        _ => Ok(()),
    }
}

/// Adds the names of the programs that a block calls.
#[cycle(called)]
pub(crate) fn note_called(
    alloc: Global,
    names: &mut IndexSet<String>,
    body: &[Statement],
) -> Result<(), NoMemory>
    ensures { OnOk result (map string_bytes names.new.keys ≡ noted (map string_bytes names.old.keys) (definition.called_in (block_of body.now))) }
{
    for statement in body {
        note_called_by(alloc, names, statement)?;
    }
    Ok(())
}
