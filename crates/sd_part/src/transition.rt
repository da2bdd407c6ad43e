ghost use Rattle.std.specs.Prelude.{◌≡◌, ◌∷◌, [], IfOk, OnOk, OnErr};
ghost use Rattle.sd_work.specs.Exit.{first_exit};
ghost use Rattle.sd_graph.specs.TreeFold.{graph_tree};
ghost use Rattle.sd_graph.specs.TreeParts.{containers_of};
ghost use Rattle.sd_graph.specs.Context.{own_reach};
ghost use Rattle.sd_mem.specs.machine.Coming.{exits_of};
ghost use Rattle.sd_part.specs.Follow.{following, values_following, through, values_through};

use crate::kept::Kept;
use crate::lent::machine_over;
use sd_graph::Bound;
use sd_leaves::{Entry, Onward, go_on};
use sd_list::NoMemory;
use sd_mem::Memory;
use sd_scope::Base;
use std::alloc::Global;

/// Where a run of a graph goes on whose state is done.
#[derive(Drop)]
pub enum Followed {
    /// To this state, for so many turns: 1 where the way is marked, else none.
    To(u32, u64),
    /// Nowhere: no exit may be taken.
    End,
    /// A condition came to a fault, or a turn was wanted and none was left.
    Stopped(Kept),
}

/// Makes the transition of a graph from a state that is done, with so many turns. The variables get the values behind the exit; where
/// no exit is taken they stay. The memory is lent, and stays as it is.
pub fn follow(
    alloc: Global,
    bound: &Bound,
    state: u32,
    values: &mut Vec<i128>,
    memory: &mut Memory,
    turns: u64,
) -> Result<Followed, NoMemory>
    ensures follow { IfOk result (λ followed. followed ≡ following (first_exit (exits_of (graph_tree bound.now.graph) (own_reach (containers_of (graph_tree bound.now.graph))) [] state values.old.items) (memory.old.contents ∷ [])) turns) }
    ensures values { OnOk result (values.new.items ≡ values_following (first_exit (exits_of (graph_tree bound.now.graph) (own_reach (containers_of (graph_tree bound.now.graph))) [] state values.old.items) (memory.old.contents ∷ [])) turns values.old.items) }
    ensures values_stay { OnErr result (values.new.items ≡ values.old.items) }
    ensures memory { memory.new ≡ memory.old }
{
    let base = Base::outermost(alloc);
    let machine = machine_over(alloc, memory, turns)?;
    let graph = &bound.graph;
    let onward = go_on(alloc, state, values.as_slice(), graph, &base, &machine);
    memory.take_back(machine.into_memory());
    match onward? {
        Onward::Nowhere => Ok(Followed::End),
        Onward::Fault(place, kind) => Ok(Followed::Stopped(Kept::Fault(place, kind))),
        Onward::State(entry) => Ok(enter(entry, values, turns)),
    }
}

/// Goes on with an entry, where a turn is left if one is wanted.
fn enter(entry: Entry, values: &mut Vec<i128>, turns: u64) -> Followed
    ensures follow { result ≡ through entry.marked entry.state turns }
    ensures values { values.new.items ≡ values_through entry.marked entry.values.items turns values.old.items }
{
    if !entry.marked {
        *values = entry.values;
        return Followed::To(entry.state, 0);
    }
    if turns == 0 {
        return Followed::Stopped(Kept::Turns(1));
    }
    *values = entry.values;
    Followed::To(entry.state, 1)
}
