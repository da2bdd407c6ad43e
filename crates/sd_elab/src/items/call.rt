ghost use Rattle.std.specs.Prelude.{◌≡◌, map, IfOk};
ghost use Rattle.std.specs.List.{AllByRecursion};
ghost use Rattle.sd_lex.specs.TreeFold.{call_argument_of};
ghost use Rattle.sd_graph.specs.PlainTree.{nested_graph};
ghost use Rattle.sd_graph.specs.TreeFold.{kind_tree, named_container};
ghost use Rattle.sd_graph.specs.TreeParts.{containers_of};
ghost use Rattle.sd_program.specs.Bounds.{EachDimension};
ghost use Rattle.sd_program.specs.Small.{IsSmall};
ghost use Rattle.sd_task.specs.in_force.SmallExtents.{HaveSmallExtents};
ghost use Rattle.sd_task.specs.task.TableOf.{table_of};
ghost use Rattle.sd_elab.specs.items.Graphs.{graph_named};
ghost use Rattle.sd_elab.specs.items.GraphsByNumber.{graphs_of};
ghost use Rattle.sd_elab.specs.items.Items as definition;

use crate::items::graphs::Graphs;
use indexmap::IndexMap;
use sd_graph::{Container, ItemKind, Link};
use sd_lex::Slot;
use sd_list::NoMemory;
use sd_task::{Names, subset_link};
use std::alloc::Global;

/// The links of a call: each argument, with the callee's parameter as the connector.
fn call_links(
    alloc: Global,
    names: &Names,
    arguments: &[(String, Vec<Slot>)],
    parameters: &IndexMap<String, Container>,
) -> Result<Vec<Link>, NoMemory>
    requires extents { HaveSmallExtents (table_of names.now).all }
    requires small { AllByRecursion (λ argument. EachDimension IsSmall argument.1) (map call_argument_of arguments.now) }
    ensures { IfOk result (λ links. links.items ≡ definition.call_links (table_of names.now) (map call_argument_of arguments.now) (map named_container parameters.now.entries)) }
{
    let mut links = Vec::with_capacity(alloc, arguments.len())?;
    for ((name, slots), (parameter, _)) in arguments.iter().zip(parameters.iter()) {
        links.push(subset_link(alloc, names, parameter.as_str(), name.as_str(), slots)?)?;
    }
    Ok(links)
}

/// The item of a call: the latest graph of the name.
pub(crate) fn call(
    alloc: Global,
    graphs: &Graphs,
    names: &Names,
    name: &str,
    arguments: &[(String, Vec<Slot>)],
) -> Result<ItemKind, NoMemory>
    requires extents { HaveSmallExtents (table_of names.now).all }
    requires small { AllByRecursion (λ argument. EachDimension IsSmall argument.1) (map call_argument_of arguments.now) }
    ensures { IfOk result (λ kind. kind_tree kind ≡ nested_graph (graph_named (graphs_of graphs.now) name.now) (definition.call_links (table_of names.now) (map call_argument_of arguments.now) (containers_of (graph_named (graphs_of graphs.now) name.now)))) }
{
    let graph = graphs.copy_of(alloc, name)?;
    let links = call_links(alloc, names, arguments, &graph.containers)?;
    Ok(ItemKind::Nested {
        graph: Box::new(alloc, graph)?,
        links,
    })
}
