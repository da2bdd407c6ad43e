ghost use Rattle.std.specs.Prelude.{◌≡◌, ◌+◌, ◌∷◌, length, map, option_map, string_bytes, IfOk, OnOk};
ghost use Rattle.sd_lex.specs.TreeFold.{statement_of, block_of, dimensions_of};
ghost use Rattle.sd_graph.specs.PlainTree as plain;
ghost use Rattle.sd_graph.specs.TreeFold.{item_trees, kind_tree};
ghost use Rattle.sd_program.specs.Bounds.{EachBound, EachDimension};
ghost use Rattle.sd_program.specs.Declared.{containers_in, containers_in_all};
ghost use Rattle.sd_program.specs.Every.{Every, EveryIn};
ghost use Rattle.sd_program.specs.Small.{IsSmall};
ghost use Rattle.sd_task.specs.in_force.SmallExtents.{HaveSmallExtents};
ghost use Rattle.sd_task.specs.task.Table.{with_container};
ghost use Rattle.sd_task.specs.task.TableOf.{table_of};
ghost use Rattle.sd_task.specs.tasklets.Item.{inputs_of};
ghost use Rattle.sd_elab.specs.items.Appended.{appended};
ghost use Rattle.sd_elab.specs.items.Counts.{variables_in, variables_in_all};
ghost use Rattle.sd_elab.specs.items.Graphs.{graph_named};
ghost use Rattle.sd_elab.specs.items.GraphsByNumber.{graphs_of};
ghost use Rattle.sd_elab.specs.items.Items as definition;
ghost use Rattle.sd_elab.specs.items.Kinds as kinds;
ghost use Rattle.sd_elab.specs.items.Scopes as scopes;

use crate::items::count::{
    containers_in, count_containers, count_names, count_variables, variables_in,
};
use crate::items::declaration::{declare, own_containers};
use crate::items::graphs::Graphs;
use crate::items::leaf::leaf_kind;
use sd_graph::{Item, ItemKind, Link, Memlet};
use sd_lex::{Slot, Statement, has_connector};
use sd_list::{NoMemory, Sequence, Text};
use sd_range::{Dim, Subset};
use sd_task::{Names, more, number, parameters, push_inputs, push_outputs, task_with};
use std::alloc::Global;

/// The numbers of the container and of the variable that come next.
#[derive(Clone, Copy)]
pub struct Numbers {
    pub container: u32,
    pub variable: u32,
}

/// One more item, if there is one.
#[tactic(auto, using(crate::proofs::items_lemmas::ItemLemmas::nothing_behind))]
fn push(items: &mut Vec<Item>, line: u32, kind: Option<ItemKind>) -> Result<(), NoMemory>
    ensures { OnOk result (item_trees items.new.items ≡ appended (item_trees items.old.items) (kinds.item_if_any line (option_map kind_tree kind))) }
{
    if let Some(kind) = kind {
        items.push(Item { line, kind })?;
    }
    Ok(())
}

/// The link of the element of a consume scope that is one tasklet.
fn taken_link(alloc: Global, element: &str, container: u32) -> Result<Link, NoMemory>
    ensures { IfOk result (λ link. link ≡ definition.taken_link element.now container) }
{
    let zero = number(alloc, 0);
    Ok(Link {
        connector: Text::from(String::from_str(alloc, element)?),
        memlet: Memlet {
            container,
            subset: Subset {
                dims: Sequence::from(vec![in alloc; Dim::Index(zero)]?),
            },
            volume: 1,
            resolution: None,
        },
    })
}

/// The inputs of the tasklet that a consume scope is: the first one is the element of this number.
fn taking_inputs(
    alloc: Global,
    names: &Names,
    element: &str,
    container: u32,
    body: &[Statement],
) -> Result<Vec<Link>, NoMemory>
    requires extents { HaveSmallExtents (table_of names.now).all }
    requires small { EveryIn (EachBound IsSmall) (block_of body.now) }
    ensures { IfOk result (λ links. links.items ≡ definition.taken_link element.now container ∷ inputs_of (table_of names.now) (block_of body.now)) }
{
    let mut links = vec![in alloc; taken_link(alloc, element, container)?]?;
    push_inputs(alloc, names, &mut links, body)?;
    Ok(links)
}

/// The tasklet that a consume scope is: it takes the element of this number.
fn taking_task(
    alloc: Global,
    names: &Names,
    element: &str,
    container: u32,
    body: &[Statement],
) -> Result<ItemKind, NoMemory>
    requires extents { HaveSmallExtents (table_of names.now).all }
    requires small { EveryIn (EachBound IsSmall) (block_of body.now) }
    ensures { IfOk result (λ kind. kind_tree kind ≡ scopes.taking_task (table_of names.now) element.now container (block_of body.now)) }
{
    let ins = taking_inputs(alloc, names, element, container, body)?;
    let mut outs = Vec::new(alloc);
    push_outputs(alloc, names, &mut outs, body)?;
    task_with(alloc, names, ins, outs, body)
}

/// The items of a scope's block. What it declares is in force in it alone.
#[cycle(items)]
#[tactic(auto, using(crate::proofs::items_lemmas::ItemLemmas::nothing_behind))]
fn scope_items(
    alloc: Global,
    graphs: &Graphs,
    names: &mut Names,
    numbers: &mut Numbers,
    body: &[Statement],
) -> Result<Vec<Item>, NoMemory>
    requires extents { HaveSmallExtents (table_of names.old).all }
    requires small { EveryIn (EachBound IsSmall) (block_of body.now) }
    ensures items { IfOk result (λ items. item_trees items.items ≡ definition.items_of_body (graph_named (graphs_of graphs.now)) (block_of body.now) (table_of names.old) numbers.old.container numbers.old.variable) }
    ensures names { OnOk result (table_of names.new ≡ table_of names.old) }
    ensures container { OnOk result (numbers.new.container ≡ numbers.old.container + containers_in_all (block_of body.now)) }
    ensures variable { OnOk result (numbers.new.variable ≡ numbers.old.variable + variables_in_all (block_of body.now)) }
{
    let kept = names.containers.len();
    let mut items = Vec::new(alloc);
    for statement in body {
        let container = numbers.container;
        push_item(alloc, graphs, names, numbers, true, statement, &mut items)?;
        declare(alloc, names, statement, container)?;
    }
    names.containers.truncate(kept);
    Ok(items)
}

/// The item of a map. Its parameters are in force in its block alone.
#[cycle(items)]
fn map_scope(
    alloc: Global,
    graphs: &Graphs,
    names: &mut Names,
    numbers: &mut Numbers,
    parameter_names: &[String],
    ranges: &[Slot],
    body: &[Statement],
) -> Result<ItemKind, NoMemory>
    requires extents { HaveSmallExtents (table_of names.old).all }
    requires ranges { EachDimension IsSmall (dimensions_of ranges.now) }
    requires small { EveryIn (EachBound IsSmall) (block_of body.now) }
    ensures kind { IfOk result (λ kind. kind_tree kind ≡ scopes.map_kind (graph_named (graphs_of graphs.now)) (table_of names.old) (map string_bytes parameter_names.now) (dimensions_of ranges.now) (block_of body.now) numbers.old.container numbers.old.variable) }
    ensures names { OnOk result (table_of names.new ≡ table_of names.old) }
    ensures container { OnOk result (numbers.new.container ≡ numbers.old.container + containers_in_all (block_of body.now)) }
    ensures variable { OnOk result (numbers.new.variable ≡ numbers.old.variable + (length (map string_bytes parameter_names.now) + variables_in_all (block_of body.now))) }
{
    let params = parameters(alloc, &names.variables, ranges, numbers.variable)?;
    let private = own_containers(alloc, body, numbers.container)?;
    let kept = names.variables.len();
    names
        .variables
        .push_all(alloc, parameter_names, numbers.variable)?;
    numbers.variable = more(numbers.variable, count_names(parameter_names)?)?;
    let body = scope_items(alloc, graphs, names, numbers, body)?;
    names.variables.truncate(kept);
    Ok(ItemKind::Map {
        params,
        private,
        body,
        sequential: false,
    })
}

/// The items of the block of a consume scope that is no tasklet. Its element is in force in it alone.
#[cycle(items)]
fn element_items(
    alloc: Global,
    graphs: &Graphs,
    names: &mut Names,
    numbers: &mut Numbers,
    element: &str,
    container: u32,
    body: &[Statement],
) -> Result<Vec<Item>, NoMemory>
    requires extents { HaveSmallExtents (table_of names.old).all }
    requires small { EveryIn (EachBound IsSmall) (block_of body.now) }
    ensures items { IfOk result (λ items. item_trees items.items ≡ definition.items_of_body (graph_named (graphs_of graphs.now)) (block_of body.now) (with_container element.now container (table_of names.old)) numbers.old.container numbers.old.variable) }
    ensures names { OnOk result (table_of names.new ≡ table_of names.old) }
    ensures container { OnOk result (numbers.new.container ≡ numbers.old.container + containers_in_all (block_of body.now)) }
    ensures variable { OnOk result (numbers.new.variable ≡ numbers.old.variable + variables_in_all (block_of body.now)) }
{
    names
        .containers
        .push(String::from_str(alloc, element)?, container)?;
    let items = scope_items(alloc, graphs, names, numbers, body)?;
    names.containers.pop();
    Ok(items)
}

/// The items of the block of a consume scope, whose element is the container of this number.
#[cycle(items)]
fn consumed_items(
    alloc: Global,
    graphs: &Graphs,
    names: &mut Names,
    numbers: &mut Numbers,
    line: u32,
    element: &str,
    container: u32,
    body: &[Statement],
) -> Result<Vec<Item>, NoMemory>
    requires extents { HaveSmallExtents (table_of names.old).all }
    requires small { EveryIn (EachBound IsSmall) (block_of body.now) }
    ensures items { IfOk result (λ items. item_trees items.items ≡ scopes.consumed_items (graph_named (graphs_of graphs.now)) (table_of names.old) line element.now container (block_of body.now) numbers.old.container numbers.old.variable) }
    ensures names { OnOk result (table_of names.new ≡ table_of names.old) }
    ensures container { OnOk result (numbers.new.container ≡ numbers.old.container + containers_in_all (block_of body.now)) }
    ensures variable { OnOk result (numbers.new.variable ≡ numbers.old.variable + variables_in_all (block_of body.now)) }
{
    if !has_connector(body) {
        return element_items(alloc, graphs, names, numbers, element, container, body);
    }
    numbers.container = more(numbers.container, count_containers(body)?)?;
    numbers.variable = more(numbers.variable, count_variables(body)?)?;
    let mut items = Vec::new(alloc);
    let kind = taking_task(alloc, names, element, container, body)?;
    push(&mut items, line, Some(kind))?;
    Ok(items)
}

/// The item of a consume scope.
#[cycle(items)]
fn consume_scope(
    alloc: Global,
    graphs: &Graphs,
    names: &mut Names,
    numbers: &mut Numbers,
    line: u32,
    stream: &str,
    element: &str,
    body: &[Statement],
) -> Result<ItemKind, NoMemory>
    requires extents { HaveSmallExtents (table_of names.old).all }
    requires small { EveryIn (EachBound IsSmall) (block_of body.now) }
    ensures kind { IfOk result (λ kind. kind_tree kind ≡ scopes.consume_kind (graph_named (graphs_of graphs.now)) (table_of names.old) line stream.now element.now (block_of body.now) numbers.old.container numbers.old.variable) }
    ensures names { OnOk result (table_of names.new ≡ table_of names.old) }
    ensures container { OnOk result (numbers.new.container ≡ numbers.old.container + (1 + containers_in_all (block_of body.now))) }
    ensures variable { OnOk result (numbers.new.variable ≡ numbers.old.variable + variables_in_all (block_of body.now)) }
{
    let stream = names.containers.number_or(0, stream);
    let container = numbers.container;
    numbers.container = more(container, 1)?;
    let private = own_containers(alloc, body, numbers.container)?;
    let body = consumed_items(
        alloc, graphs, names, numbers, line, element, container, body,
    )?;
    Ok(ItemKind::Consume {
        stream,
        element: container,
        private,
        body,
    })
}

/// What the item of a statement is, if it has one. The numbers are then those that come next behind it.
#[cycle(items)]
fn item_kind(
    alloc: Global,
    graphs: &Graphs,
    names: &mut Names,
    numbers: &mut Numbers,
    in_scope: bool,
    statement: &Statement,
) -> Result<Option<ItemKind>, NoMemory>
    requires extents { HaveSmallExtents (table_of names.old).all }
    requires small { Every (EachBound IsSmall) (statement_of statement.now) }
    ensures kind { IfOk result (λ kind. option_map kind_tree kind ≡ kinds.kind_of (graph_named (graphs_of graphs.now)) (statement_of statement.now) in_scope (table_of names.old) numbers.old.container numbers.old.variable) }
    ensures names { OnOk result (table_of names.new ≡ table_of names.old) }
    ensures container { OnOk result (numbers.new.container ≡ numbers.old.container + containers_in (statement_of statement.now)) }
    ensures variable { OnOk result (numbers.new.variable ≡ numbers.old.variable + variables_in (statement_of statement.now)) }
{
    match statement {
        Statement::Map {
            params,
            ranges,
            body,
            ..
        } => Ok(Some(map_scope(alloc, graphs, names, numbers, params, ranges, body)?)),
        Statement::Consume {
            line,
            stream,
            element,
            body,
            ..
        } => {
            let (stream, element) = (stream.as_str(), element.as_str());
            let kind = consume_scope(alloc, graphs, names, numbers, *line, stream, element, body)?;
            Ok(Some(kind))
        }
        _ => {
            skip(numbers, statement)?;
            leaf_kind(alloc, graphs, names, in_scope, statement)
        }
    }
}

/// Adds the item of a statement, if it has one. The numbers are then those that come next behind it.
#[cycle(items)]
#[tactic(auto, using(crate::proofs::items_lemmas::KindLemmas::items_by_kind))]
pub fn push_item(
    alloc: Global,
    graphs: &Graphs,
    names: &mut Names,
    numbers: &mut Numbers,
    in_scope: bool,
    statement: &Statement,
    items: &mut Vec<Item>,
) -> Result<(), NoMemory>
    requires extents { HaveSmallExtents (table_of names.old).all }
    requires small { Every (EachBound IsSmall) (statement_of statement.now) }
    ensures items { OnOk result (item_trees items.new.items ≡ appended (item_trees items.old.items) (definition.items_with (graph_named (graphs_of graphs.now)) (statement_of statement.now) in_scope (table_of names.old) numbers.old.container numbers.old.variable plain.no_item)) }
    ensures names { OnOk result (table_of names.new ≡ table_of names.old) }
    ensures container { OnOk result (numbers.new.container ≡ numbers.old.container + containers_in (statement_of statement.now)) }
    ensures variable { OnOk result (numbers.new.variable ≡ numbers.old.variable + variables_in (statement_of statement.now)) }
{
    let kind = item_kind(alloc, graphs, names, numbers, in_scope, statement)?;
    push(items, statement.line(), kind)
}

/// Behind a statement that is no scope with items of its own.
fn skip(numbers: &mut Numbers, statement: &Statement) -> Result<(), NoMemory>
    ensures container { OnOk result (numbers.new.container ≡ numbers.old.container + containers_in (statement_of statement.now)) }
    ensures variable { OnOk result (numbers.new.variable ≡ numbers.old.variable + variables_in (statement_of statement.now)) }
{
    numbers.container = more(numbers.container, containers_in(statement)?)?;
    numbers.variable = more(numbers.variable, variables_in(statement)?)?;
    Ok(())
}
