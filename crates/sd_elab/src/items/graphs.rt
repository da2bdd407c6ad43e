ghost use Rattle.std.specs.Prelude.{◌≡◌, [], ◌∷◌, string_bytes, IfOk, OnOk};
ghost use Rattle.sd_graph.specs.TreeFold.{graph_tree};
ghost use Rattle.sd_elab.specs.items.Graphs.{no_graph, graph_named};
ghost use Rattle.sd_elab.specs.items.GraphsByNumber.{graphs_of};

use indexmap::IndexMap;
use sd_graph::Sdfg;
use sd_list::NoMemory;
use sd_task::Scope;
use std::alloc::Global;
use std::marker::Model;

/// Graphs of earlier programs by name; the latest of a name counts.
#[derive(Drop)]
pub struct Graphs {
    /// The name of each graph, with its place.
    numbers: Scope,
    graphs: Vec<Sdfg>,
}

impl Model for Graphs {
    ghost use Rattle.std.specs.Prelude.{ℕ, List, length};
    ghost use Rattle.std.specs.Coded.{codes};
    ghost use Rattle.sd_graph.specs.contracts.graph.Sdfg as sdfg;
    ghost use Rattle.sd_graph.specs.declared.graph.Sdfg.{Sdfg};
    ghost use Rattle.sd_program.specs.Names.{Named};
    ghost use Rattle.sd_elab.specs.items.GraphsByNumber.{AreBelow};

    ghost Value = { Named ℕ × List Sdfg };

    ghost coded = { Prim.hlevel (codes, sdfg.the_row.coded) };

    ghost view = { λ known. (known.numbers, known.graphs.items) };

    ghost invariant = { λ known. AreBelow (length known.graphs.items) known.numbers };
}

impl Graphs {
    /// No graph.
    pub fn new(alloc: Global) -> Graphs
        ensures { graphs_of result ≡ [] }
    {
        Graphs {
            numbers: Scope::new(alloc),
            graphs: Vec::new(alloc),
        }
    }

    /// One more graph, the latest.
    #[tactic(auto, using(crate::proofs::items_lemmas::GraphsLemmas::below_grown))]
    pub fn push(&mut self, name: String, graph: Sdfg) -> Result<(), NoMemory>
        ensures { OnOk result (graphs_of self.new ≡ (string_bytes name, graph_tree graph) ∷ graphs_of self.old) }
    {
        let number = u32::try_from(self.graphs.len()).map_err(|_| NoMemory)?;
        self.graphs.reserve(1)?;
        self.numbers.push(name, number)?;
        self.graphs.push(graph)?;
        Ok(())
    }

    /// The latest graph of a name once more; one without anything where there is none.
    #[tactic(auto, using(crate::proofs::items_lemmas::GraphsLemmas::found_below, crate::proofs::items_lemmas::GraphsLemmas::named_found))]
    pub(crate) fn copy_of(&self, alloc: Global, name: &str) -> Result<Sdfg, NoMemory>
        ensures { IfOk result (λ graph. graph_tree graph ≡ graph_named (graphs_of self.now) name.now) }
    {
        match self.numbers.find(name) {
            Some(number) => self.graphs[number as usize].copy_of(alloc),
            None => Ok(empty_graph(alloc)),
        }
    }
}

/// A graph without anything.
pub fn empty_graph(alloc: Global) -> Sdfg
    ensures { graph_tree result ≡ no_graph }
{
    Sdfg {
        name: String::new(alloc),
        containers: IndexMap::new(alloc),
        arguments: 0,
        variables: Vec::new(alloc),
        symbols: 0,
        states: Vec::new(alloc),
    }
}
