ghost use Rattle.std.specs.Prelude.{◌≡◌, OnOk};
ghost use Rattle.sd_lex.specs.TreeFold.{statement_of, block_of};
ghost use Rattle.sd_source.specs.nodes.Names.{noted_own};
ghost use Rattle.sd_source.specs.nodes.Nodes.{chosen};
ghost use Rattle.sd_source.specs.nodes.SourceItems.{connected_by, connected};
ghost use Rattle.sd_source.specs.declared.nodes.access.Access.TheVariants.{Read, Write};

use crate::nodes::access::Access;
use crate::nodes::name_set::NameSet;
use sd_lex::Statement;
use sd_list::NoMemory;
use std::alloc::Global;

/// Notes the containers from which a tasklet's lines read, or those to which they write.
#[tactic(auto, using(crate::proofs::nodes_lemmas::NameLemmas::own_both, crate::proofs::nodes_lemmas::AccessLemmas::chosen_connected))]
pub fn note_connected(
    alloc: Global,
    own: &NameSet,
    access: Access,
    body: &[Statement],
    names: &mut NameSet,
) -> Result<(), NoMemory>
    ensures { OnOk result (names.new ≡ noted_own own.now names.old (chosen access (connected Read (block_of body.now)) (connected Write (block_of body.now)))) }
{
    for statement in body {
        note_connector(alloc, own, access, statement, names)?;
    }
    Ok(())
}

fn note_connector(
    alloc: Global,
    own: &NameSet,
    access: Access,
    statement: &Statement,
    names: &mut NameSet,
) -> Result<(), NoMemory>
    ensures { OnOk result (names.new ≡ noted_own own.now names.old (connected_by access (statement_of statement.now))) }
{
    match (access, statement) {
        (Access::Read, Statement::Input { memlet, .. })
        | (Access::Write, Statement::Output { memlet, .. }) => {
            names.note_own(alloc, own, &memlet.name)
        }
        _ => Ok(()),
    }
}
