ghost use Rattle.std.specs.Prelude.{◌≡◌, [], map, reverse, string_bytes, IfOk};
ghost use Rattle.sd_graph.specs.TreeFold.{graph_tree};
ghost use Rattle.sd_elab.specs.items.GraphsByNumber.{graphs_of};
ghost use Rattle.sd_lex.specs.TreeFold.{function_of, program_of};
ghost use Rattle.sd_elab.specs.elab.Elaboration as definition;
ghost use Rattle.sd_program.specs.WellFormed.{IsWellFormed};
ghost use Rattle.sd_elab.specs.elab.Elaborable.{AreElaborable};

use crate::elab::function::function_graph;
use crate::items::{Graphs, empty_graph};
use crate::needs::needed;
use sd_graph::Sdfg;
use sd_lex::{Function, Program};
use sd_list::NoMemory;
use std::alloc::Global;

/// The graphs of programs, the latest of them first, each of which calls those behind it.
fn graphs_of_programs(
    alloc: Global,
    symbols: &[String],
    functions: Vec<&Function>,
) -> Result<Graphs, NoMemory>
    requires { AreElaborable (map (λ function. function_of function.now) functions.items) }
    ensures { IfOk result (λ graphs. graphs_of graphs ≡ definition.graphs_with (map string_bytes symbols.now) [] (reverse (map (λ function. function_of function.now) functions.entry.items))) }
{
    let mut graphs = Graphs::new(alloc);
    let mut left = functions;
    while let Some(function) = left.pop() {
        let name = function.name.as_str().to_string(alloc)?;
        let graph = function_graph(alloc, symbols, &graphs, function)?;
        graphs.push(name, graph)?;
    }
    Ok(graphs)
}

/// The graph of a source: that of its last program, whose calls are of the programs before it.
///
/// A source without a program has a graph with nothing in it. Of the programs before the last one only
/// those are made into graphs that it calls, or that one of these calls. A call holds a copy of a graph;
/// at most eight calls stand in a chain, so no part of a graph is copied more than eight times.
///
/// Names and graphs are looked up by hash. The states of a block are counted once for each loop and
/// branch about it, the containers of a block once for each scope about it, and a free name for the
/// element of a tasklet is the first of `x$1`, `x$2` and so on that is free. A program that was read has
/// at most 256 states and 256 containers, so each of these is bounded by a number, and the work is
/// linear in the source and the graph that is made of it.
#[tactic(auto, using(crate::proofs::elab_lemmas::FunctionLemmas::elaborable_all, crate::proofs::elab_lemmas::FunctionLemmas::graph_of_none))]
pub fn elaborate(alloc: Global, program: &Program) -> Result<Sdfg, NoMemory>
    requires well_formed { IsWellFormed (program_of program.now) }
    ensures graph { IfOk result (λ graph. graph_tree graph ≡ definition.graph_of (program_of program.now)) }
{
    match program.functions.split_last() {
        None => Ok(empty_graph(alloc)),
        Some((last, above)) => {
            let needed = needed(alloc, above, &last.body)?;
            let graphs = graphs_of_programs(alloc, &program.symbols, needed)?;
            function_graph(alloc, &program.symbols, &graphs, last)
        }
    }
}
