ghost use Rattle.std.specs.Prelude.{◌≡◌, IfOk};
ghost use Rattle.sd_graph.specs.TreeFold.{graph_tree};

use crate::container::Container;
use crate::exit::Exit;
use crate::link::Link;
use crate::tasklet::Tasklet;
use indexmap::IndexMap;
use sd_list::NoMemory;
use sd_num::Resolution;
use sd_range::Range;
use std::alloc::Global;

/// A stateful dataflow multigraph.
///
/// The first `arguments` containers are the arguments. The first `symbols` variables are the size
/// symbols: all that the source declares, in its order, used or not. After binding no expression
/// names them. The type does not ask this: a contract that needs it says so.
#[derive(Drop)]
#[cycle(graph)]
pub struct Sdfg {
    pub name: String,
    pub containers: IndexMap<String, Container>,
    pub arguments: u32,
    pub variables: Vec<String>,
    pub symbols: u32,
    pub states: Vec<State>,
}

/// A state: its items, and the transitions out of it.
#[derive(Drop)]
#[cycle(graph)]
pub struct State {
    pub items: Vec<Item>,
    pub exits: Vec<Exit>,
}

/// One thing that a list of a state or scope does, with the line of its statement.
#[derive(Drop)]
#[cycle(graph)]
pub struct Item {
    pub line: u32,
    pub kind: ItemKind,
}

/// What an item does.
#[derive(Drop)]
#[cycle(graph)]
pub enum ItemKind {
    Task {
        code: Tasklet,
        ins: Vec<Link>,
        outs: Vec<Link>,
    },
    /// Its body for each point of the ranges: in any order, or each point behind the one before it where it is sequential.
    Map {
        params: Vec<(u32, Range)>,
        private: Vec<u32>,
        body: Vec<Item>,
        sequential: bool,
    },
    /// Its body for each value of the stream, which stands in the container `element`.
    Consume {
        stream: u32,
        element: u32,
        private: Vec<u32>,
        body: Vec<Item>,
    },
    /// A whole graph; one link per argument of it, in order.
    Nested {
        graph: Box<Sdfg>,
        links: Vec<Link>,
    },
    /// Each element of `from` resolved into one of `to`; without an axis into its first one.
    Reduce {
        resolution: Resolution,
        axis: Option<u32>,
        identity: Option<i64>,
        from: Link,
        to: Link,
    },
    Copy {
        from: Link,
        to: Link,
    },
}

/// A graph meant to have no size symbol left and a constant for every extent.
#[derive(Drop)]
pub struct Bound {
    pub graph: Sdfg,
}

impl Bound {
    /// The same graph once more.
    pub fn copy_of(&self, alloc: Global) -> Result<Bound, NoMemory>
        ensures { IfOk result (λ copy. graph_tree copy.graph ≡ graph_tree self.now.graph) }
    {
        Ok(Bound {
            graph: self.graph.copy_of(alloc)?,
        })
    }
}
