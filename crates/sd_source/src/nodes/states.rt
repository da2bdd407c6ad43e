ghost use Rattle.std.specs.Prelude.{◌≡◌, ◌++◌, ◌∷◌, [], IfOk, OnOk};
ghost use Rattle.sd_lex.specs.TreeFold.{statement_of, block_of};
ghost use Rattle.sd_source.specs.nodes.SourceNodes.{state_nodes, with_states, with_all_states};

use crate::nodes::name_set::NameSet;
use crate::nodes::node::Node;
use crate::nodes::nodes::{add_inner, add_read, add_written};
use crate::nodes::table::ParameterTable;
use sd_lex::Statement;
use sd_list::{NoMemory, Sequence};
use std::alloc::Global;

/// Adds the nodes of each state that the statements make, of a graph with these containers.
#[cycle(states)]
pub fn add_all_states(
    alloc: Global,
    functions: &ParameterTable,
    own: &NameSet,
    body: &[Statement],
    states: &mut Vec<Sequence<Node>>,
) -> Result<(), NoMemory>
    ensures { OnOk result (states.new.items ≡ with_all_states functions.now own.now states.old.items (block_of body.now)) }
{
    for statement in body {
        add_states(alloc, functions, own, statement, states)?;
    }
    Ok(())
}

#[cycle(states)]
fn add_states(
    alloc: Global,
    functions: &ParameterTable,
    own: &NameSet,
    statement: &Statement,
    states: &mut Vec<Sequence<Node>>,
) -> Result<(), NoMemory>
    ensures { OnOk result (states.new.items ≡ with_states functions.now own.now states.old.items (statement_of statement.now)) }
{
    match statement {
        Statement::Argument { .. } | Statement::Local { .. } | Statement::Stream { .. } => Ok(()),
        Statement::For { body, .. } | Statement::While { body, .. } => {
            add_all_states(alloc, functions, own, body, states)
        }
        Statement::If { body, other, .. } => {
            add_all_states(alloc, functions, own, body, states)?;
            add_all_states(alloc, functions, own, other, states)
        }
        Statement::Assign { .. }
        | Statement::Copy { .. }
        | Statement::Reduce { .. }
        | Statement::Map { .. }
        | Statement::Tasklet { .. }
        | Statement::Consume { .. }
        | Statement::Call { .. }
        | Statement::Input { .. }
        | Statement::Output { .. }
        | Statement::Set { .. }
        | Statement::SetAt { .. }
        | Statement::When { .. } => {
            let nodes = nodes_of_state(alloc, functions, own, statement)?;
            states.push(nodes)?;
            Ok(())
        }
    }
}

/// The nodes of a state in which the item of a statement stands alone.
fn nodes_of_state(
    alloc: Global,
    functions: &ParameterTable,
    own: &NameSet,
    statement: &Statement,
) -> Result<Sequence<Node>, NoMemory>
    ensures { IfOk result (λ nodes. nodes ≡ state_nodes functions.now own.now (statement_of statement.now)) }
{
    let mut current = NameSet::new(alloc);
    let mut nodes = Vec::new(alloc);
    add_read(
        alloc,
        functions,
        own,
        false,
        statement,
        &mut current,
        &mut nodes,
    )?;
    add_inner(alloc, functions, statement, &mut nodes)?;
    add_written(
        alloc,
        functions,
        own,
        false,
        statement,
        &mut current,
        &mut nodes,
    )?;
    Ok(Sequence::from(nodes))
}
