ghost use Rattle.std.specs.Prelude.{◌≡◌, [], ◌++◌, ◌∷◌, Bool, List, Some, None, replicate, OnOk};
ghost use Rattle.sd_lex.specs.TreeFold.{statement_of, block_of};
ghost use Rattle.sd_source.specs.nodes.Items.{Name, single, no_item, and_item};
ghost use Rattle.sd_source.specs.nodes.Nodes.{plain_node, with_mentioned, with_read, with_written, with_inner, with_nodes};
ghost use Rattle.sd_source.specs.nodes.SourceItems.{item_of, items_of};
ghost use Rattle.sd_source.specs.declared.nodes.access.Access.TheVariants.{Read, Write};

use crate::nodes::access::Access;
use crate::nodes::declarations::locals_of;
use crate::nodes::mentioned::note_mentioned;
use crate::nodes::name_set::NameSet;
use crate::nodes::node::Node;
use crate::nodes::table::ParameterTable;
use sd_lex::{Statement, has_connector};
use sd_list::{NoMemory, Text};
use std::alloc::Global;

/// Adds so many nodes that hold no graph.
#[inline(never)]
#[tactic(auto, using(crate::proofs::nodes_lemmas::NodeLemmas::grown))]
fn add_plain(line: u32, count: usize, nodes: &mut Vec<Node>) -> Result<(), NoMemory>
    ensures { OnOk result (nodes.new.items ≡ nodes.old.items ++ replicate count (plain_node line)) }
{
    for _ in 0..count {
        nodes.push(Node { line, called: None })?;
    }
    Ok(())
}

/// Adds the new access nodes for what an item reads, which are then current.
pub fn add_read(
    alloc: Global,
    functions: &ParameterTable,
    own: &NameSet,
    in_scope: bool,
    statement: &Statement,
    current: &mut NameSet,
    nodes: &mut Vec<Node>,
) -> Result<(), NoMemory>
    ensures nodes { OnOk result (nodes.new.items ≡ with_read own.now current.old nodes.old.items (item_of functions.now in_scope (statement_of statement.now))) }
    ensures current { OnOk result (current.new ≡ with_mentioned own.now Read current.old (item_of functions.now in_scope (statement_of statement.now))) }
{
    let before = current.len();
    note_mentioned(
        alloc,
        functions,
        own,
        Access::Read,
        in_scope,
        statement,
        current,
    )?;
    add_plain(
        statement.line(),
        current.len().saturating_sub(before),
        nodes,
    )
}

/// Adds the access nodes for what an item writes, which are then current.
pub fn add_written(
    alloc: Global,
    functions: &ParameterTable,
    own: &NameSet,
    in_scope: bool,
    statement: &Statement,
    current: &mut NameSet,
    nodes: &mut Vec<Node>,
) -> Result<(), NoMemory>
    ensures nodes { OnOk result (nodes.new.items ≡ with_written own.now nodes.old.items (item_of functions.now in_scope (statement_of statement.now))) }
    ensures current { OnOk result (current.new ≡ with_mentioned own.now Write current.old (item_of functions.now in_scope (statement_of statement.now))) }
{
    let mut written = NameSet::new(alloc);
    note_mentioned(
        alloc,
        functions,
        own,
        Access::Write,
        in_scope,
        statement,
        &mut written,
    )?;
    note_mentioned(
        alloc,
        functions,
        own,
        Access::Write,
        in_scope,
        statement,
        current,
    )?;
    add_plain(statement.line(), written.len(), nodes)
}

/// Adds the nodes of an item, the access nodes of its list aside.
#[cycle(nodes)]
pub fn add_inner(
    alloc: Global,
    functions: &ParameterTable,
    statement: &Statement,
    nodes: &mut Vec<Node>,
) -> Result<(), NoMemory>
    ensures { (in_scope : Bool) → OnOk result (nodes.new.items ≡ with_inner nodes.old.items (item_of functions.now in_scope (statement_of statement.now))) }
{
    match statement {
        Statement::Map { line, body, .. } => {
            add_plain(*line, 1, nodes)?;
            let own = locals_of(alloc, body)?;
            add_body(alloc, functions, &own, body, nodes)?;
            add_plain(*line, 1, nodes)
        }
        Statement::Consume { line, body, .. } => {
            if has_connector(body) {
                return add_consuming(*line, nodes);
            }
            add_plain(*line, 1, nodes)?;
            let own = locals_of(alloc, body)?;
            add_body(alloc, functions, &own, body, nodes)?;
            add_plain(*line, 1, nodes)
        }
        Statement::Call { line, name, .. } => add_called(alloc, *line, name, nodes),
        Statement::Assign { line, .. }
        | Statement::Copy { line, .. }
        | Statement::Reduce { line, .. }
        | Statement::Tasklet { line, .. } => add_plain(*line, 1, nodes),
        Statement::Argument { .. }
        | Statement::Local { .. }
        | Statement::Stream { .. }
        | Statement::For { .. }
        | Statement::While { .. }
        | Statement::If { .. }
        | Statement::Input { .. }
        | Statement::Output { .. }
        | Statement::Set { .. }
        | Statement::SetAt { .. }
        | Statement::When { .. } => Ok(()),
    }
}

/// Adds the nodes of the items of a scope's body, whose own containers these are.
#[cycle(nodes)]
fn add_body(
    alloc: Global,
    functions: &ParameterTable,
    own: &NameSet,
    body: &[Statement],
    nodes: &mut Vec<Node>,
) -> Result<(), NoMemory>
    ensures { OnOk result (nodes.new.items ≡ with_nodes own.now [] nodes.old.items (items_of functions.now (block_of body.now))) }
{
    let mut current = NameSet::new(alloc);
    for statement in body {
        add_read(alloc, functions, own, true, statement, &mut current, nodes)?;
        add_inner(alloc, functions, statement, nodes)?;
        add_written(alloc, functions, own, true, statement, &mut current, nodes)?;
    }
    Ok(())
}

/// Adds the nodes of a consume scope with one tasklet: its entry, the tasklet and its exit.
#[tactic(auto, using(crate::proofs::nodes_lemmas::NodeLemmas::tasklet_nodes))]
fn add_consuming(line: u32, nodes: &mut Vec<Node>) -> Result<(), NoMemory>
    ensures { (reads writes : List Name) → OnOk result (nodes.new.items ≡ with_nodes [] [] (nodes.old.items ++ plain_node line ∷ []) (and_item (single line None reads writes) no_item) ++ plain_node line ∷ []) }
{
    add_plain(line, 3, nodes)
}

/// Adds a node that holds the graph of a function.
fn add_called(alloc: Global, line: u32, name: &str, nodes: &mut Vec<Node>) -> Result<(), NoMemory>
    ensures { OnOk result (nodes.new.items ≡ nodes.old.items ++ record { line = line; called = Some name.now } ∷ []) }
{
    let called = Some(Text::from(name.to_string(alloc)?));
    nodes.push(Node { line, called })?;
    Ok(())
}
