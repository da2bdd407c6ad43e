ghost use Rattle.std.specs.Prelude.{◌≡◌, map, string_bytes, IfOk, OnOk};
ghost use Rattle.sd_task.specs.containers.Declarations.{containers_of_function as containers_defined};
ghost use Rattle.sd_graph.specs.TreeFold.{graph_tree, named_container, state_tree};
ghost use Rattle.sd_elab.specs.items.Graphs.{graph_named};
ghost use Rattle.sd_elab.specs.items.GraphsByNumber.{graphs_of};
ghost use Rattle.sd_lex.specs.TreeFold.{function_of, block_of};
ghost use Rattle.sd_task.specs.in_force.SmallExtents.{HaveSmallExtents};
ghost use Rattle.sd_task.specs.task.TableOf.{table_of};
ghost use Rattle.sd_elab.specs.states.BuildingOf.{threaded_of, standing_of, HasSmallContainers, nothing_made};
ghost use Rattle.sd_elab.specs.elab.Elaborable.{IsElaborable};
ghost use Rattle.sd_elab.specs.elab.Elaboration as definition;

use crate::items::{Graphs, Numbers, count_containers};
use crate::states::{Building, thread_all};
use sd_graph::Sdfg;
use sd_lex::{Function, Statement};
use sd_list::NoMemory;
use sd_task::{Names, Scope, containers_of_function, more, variable_names};
use std::alloc::Global;

/// Puts the arguments in force; the first is container 0.
fn push_arguments(
    alloc: Global,
    containers: &mut Scope,
    arguments: &[Statement],
) -> Result<(), NoMemory>
    ensures { OnOk result (containers.new ≡ definition.arguments_in_force (block_of arguments.now) 0 containers.old) }
{
    let mut next = 0;
    for argument in arguments {
        if let Statement::Argument { name, .. } = argument {
            containers.push(name.as_str().to_string(alloc)?, next)?;
            next = more(next, 1)?;
        }
    }
    Ok(())
}

/// What is in force where a program's block begins.
fn names_of_function(
    alloc: Global,
    symbols: &[String],
    function: &Function,
) -> Result<Names, NoMemory>
    requires { IsElaborable (function_of function.now) }
    ensures table { IfOk result (λ names. table_of names ≡ definition.table_of_function (map string_bytes symbols.now) (function_of function.now)) }
    ensures extents { IfOk result (λ names. HaveSmallExtents (table_of names).all) }
{
    let mut containers = Scope::new(alloc);
    push_arguments(alloc, &mut containers, &function.arguments)?;
    let mut variables = Scope::new(alloc);
    variables.push_all(alloc, symbols, 0)?;
    Ok(Names {
        containers,
        variables,
        all: containers_of_function(alloc, symbols, function)?,
    })
}

/// An empty state before a program's block.
fn begin(alloc: Global, symbols: &[String], function: &Function) -> Result<Building, NoMemory>
    requires { IsElaborable (function_of function.now) }
    ensures threaded { IfOk result (λ building. threaded_of building ≡ nothing_made) }
    ensures standing { IfOk result (λ building. standing_of building ≡ definition.start_of (map string_bytes symbols.now) (function_of function.now)) }
    ensures extents { IfOk result HasSmallContainers }
{
    let container = count_containers(&function.arguments)?;
    let variable = u32::try_from(symbols.len()).map_err(|_| NoMemory)?;
    Ok(Building {
        finished: Vec::new(alloc),
        items: Vec::new(alloc),
        state: 1,
        numbers: Numbers {
            container,
            variable,
        },
        names: names_of_function(alloc, symbols, function)?,
    })
}

/// All states of a program; calls are of these graphs.
fn built(
    alloc: Global,
    symbols: &[String],
    graphs: &Graphs,
    function: &Function,
) -> Result<Building, NoMemory>
    requires { IsElaborable (function_of function.now) }
    ensures states { IfOk result (λ building. map state_tree building.finished.items ≡ definition.states_of_function (map string_bytes symbols.now) (graph_named (graphs_of graphs.now)) (function_of function.now)) }
    ensures containers { IfOk result (λ building. map named_container building.names.all.entries ≡ containers_defined (map string_bytes symbols.now) (function_of function.now)) }
{
    let mut building = begin(alloc, symbols, function)?;
    thread_all(alloc, graphs, &mut building, &function.body)?;
    building.close(alloc, Vec::new(alloc))?;
    Ok(building)
}

/// The graph of one program; calls are of these graphs.
#[tactic(auto, using(sd_graph::proofs::TreeLemmas::graph_rolled))]
pub(crate) fn function_graph(
    alloc: Global,
    symbols: &[String],
    graphs: &Graphs,
    function: &Function,
) -> Result<Sdfg, NoMemory>
    requires { IsElaborable (function_of function.now) }
    ensures { IfOk result (λ graph. graph_tree graph ≡ definition.function_graph (map string_bytes symbols.now) (graph_named (graphs_of graphs.now)) (function_of function.now)) }
{
    let building = built(alloc, symbols, graphs, function)?;
    let names = building.names;
    Ok(Sdfg {
        name: function.name.as_str().to_string(alloc)?,
        containers: names.all,
        arguments: count_containers(&function.arguments)?,
        variables: variable_names(alloc, symbols, &function.body)?,
        symbols: u32::try_from(symbols.len()).map_err(|_| NoMemory)?,
        states: building.finished,
    })
}
