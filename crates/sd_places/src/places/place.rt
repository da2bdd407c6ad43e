//! The places of a graph, in their order.
ghost use Rattle.std.specs.Prelude.{◌≡◌, ◌++◌, ◌∷◌, [], bytes_eq, map, IfOk, OnOk};
ghost use Rattle.sd_graph.specs.TreeFold.{graph_tree, item_trees, kind_tree, state_tree, state_trees};
ghost use Rattle.sd_validity.specs.rules.Places as places;
ghost use Rattle.sd_places.specs.places.PlaceOf.{place_of, scopes_of};

use crate::ranks::ranks_of;
use sd_graph::{Exit, Item, ItemKind, Sdfg, State};
use sd_list::NoMemory;
use sd_range::Range;
use sd_wire::{loops_about, loops_in_force};
use std::alloc::Global;
use std::rc::Rc;

/// What stands at a place: a graph, a state's items with the transitions out of it, or an item.
#[derive(Clone, Copy)]
pub enum Thing<'a> {
    Whole,
    Leaving {
        items: &'a [Item],
        exits: &'a [Exit],
    },
    Doing(&'a ItemKind),
}

/// The scopes about an item: how many, their private containers with the elements, and their
/// parameters, those of the innermost first.
#[derive(Drop)]
pub struct Scopes {
    pub count: u64,
    pub private: Vec<u32>,
    pub params: Vec<u32>,
}

/// Where something stands, and what.
#[derive(Drop)]
pub struct Place<'a> {
    pub path: Vec<u32>,
    pub graph: &'a Sdfg,
    pub graph_path: Vec<u32>,
    pub depth: u64,
    pub ranks: Rc<Vec<bool>>,
    pub state: u32,
    pub loops: Vec<u32>,
    pub loop_count: u64,
    pub scopes: Scopes,
    pub thing: Thing<'a>,
}

/// The same numbers once more.
fn copied(alloc: Global, numbers: &[u32]) -> Result<Vec<u32>, NoMemory>
    ensures { IfOk result (λ copy. copy.items ≡ numbers.now) }
{
    Ok(numbers.to_vec(alloc)?)
}

/// These numbers, and behind them those.
fn joined(alloc: Global, first: &[u32], rest: &[u32]) -> Result<Vec<u32>, NoMemory>
    ensures { IfOk result (λ all. all.items ≡ first.now ++ rest.now) }
{
    let mut all = copied(alloc, first)?;
    all.extend_from_slice(rest)?;
    Ok(all)
}

/// A path, and one number more.
fn further(alloc: Global, path: &[u32], number: u32) -> Result<Vec<u32>, NoMemory>
    ensures { IfOk result (λ longer. longer.items ≡ places.further path.now number) }
{
    let mut longer = copied(alloc, path)?;
    longer.push(number)?;
    Ok(longer)
}

/// The variables of a map's parameters.
fn param_numbers(alloc: Global, params: &[(u32, Range)]) -> Result<Vec<u32>, NoMemory>
    ensures { IfOk result (λ numbers. numbers.items ≡ places.param_numbers params.now) }
{
    let mut numbers = Vec::with_capacity(alloc, params.len())?;
    for (variable, _) in params {
        numbers.push(*variable)?;
    }
    Ok(numbers)
}

impl Scopes {
    /// No scope.
    pub fn none(alloc: Global) -> Scopes
        ensures { scopes_of result ≡ places.no_scopes }
    {
        Scopes {
            count: 0,
            private: Vec::new(alloc),
            params: Vec::new(alloc),
        }
    }

    /// The same scopes once more.
    fn copy_of(&self, alloc: Global) -> Result<Scopes, NoMemory>
        ensures { IfOk result (λ copy. scopes_of copy ≡ scopes_of self.now) }
    {
        Ok(Scopes {
            count: self.count,
            private: copied(alloc, &self.private)?,
            params: copied(alloc, &self.params)?,
        })
    }

    /// Those about the body of a map that stands in these.
    pub fn in_map(
        &self,
        alloc: Global,
        params: &[(u32, Range)],
        private: &[u32],
    ) -> Result<Scopes, NoMemory>
        ensures { IfOk result (λ scopes. scopes_of scopes ≡ places.in_map (scopes_of self.now) params.now private.now) }
    {
        Ok(Scopes {
            count: self.count.checked_add(1).ok_or(NoMemory)?,
            private: joined(alloc, private, &self.private)?,
            params: joined(alloc, &param_numbers(alloc, params)?, &self.params)?,
        })
    }

    /// Those about the body of a consume scope that stands in these.
    pub fn in_consume(
        &self,
        alloc: Global,
        element: u32,
        private: &[u32],
    ) -> Result<Scopes, NoMemory>
        ensures { IfOk result (λ scopes. scopes_of scopes ≡ places.in_consume (scopes_of self.now) element private.now) }
    {
        let own = joined(alloc, &[element], private)?;
        Ok(Scopes {
            count: self.count.checked_add(1).ok_or(NoMemory)?,
            private: joined(alloc, &own, &self.private)?,
            params: copied(alloc, &self.params)?,
        })
    }
}

impl<'a> Place<'a> {
    /// Whether this place is of the same graph as another.
    pub fn is_of_graph(&self, other: &Place<'_>) -> bool
        ensures { result ≡ bytes_eq self.now.graph_path.items other.now.graph_path.items }
    {
        self.graph_path.as_slice() == other.graph_path.as_slice()
    }

    /// The same place once more.
    pub fn copy_of(&self, alloc: Global) -> Result<Place<'a>, NoMemory>
        ensures { IfOk result (λ copy. place_of copy ≡ place_of self.now) }
    {
        Ok(Place {
            path: copied(alloc, &self.path)?,
            graph: self.graph,
            graph_path: copied(alloc, &self.graph_path)?,
            depth: self.depth,
            ranks: self.ranks.clone()?,
            state: self.state,
            loops: copied(alloc, &self.loops)?,
            loop_count: self.loop_count,
            scopes: self.scopes.copy_of(alloc)?,
            thing: self.thing,
        })
    }

    /// The place of a graph as a whole.
    pub fn of_graph(
        alloc: Global,
        graph: &'a Sdfg,
        path: &[u32],
        depth: u64,
    ) -> Result<Place<'a>, NoMemory>
        ensures { IfOk result (λ place. place_of place ≡ places.graph_place (graph_tree graph.now) path.now depth) }
    {
        Ok(Place {
            path: copied(alloc, path)?,
            graph,
            graph_path: copied(alloc, path)?,
            depth,
            ranks: Rc::new(alloc, ranks_of(alloc, graph)?)?,
            state: 0,
            loops: Vec::new(alloc),
            loop_count: 0,
            scopes: Scopes::none(alloc),
            thing: Thing::Whole,
        })
    }

    /// That of a state of the same graph.
    pub fn of_state(
        &self,
        alloc: Global,
        number: u32,
        state: &'a State,
    ) -> Result<Place<'a>, NoMemory>
        ensures { IfOk result (λ place. place_of place ≡ places.state_place (place_of self.now) number (state_tree state.now).0 (state_tree state.now).1) }
    {
        let variables = u32::try_from(self.graph.variables.len()).map_err(|_| NoMemory)?;
        Ok(Place {
            path: further(alloc, &self.path, number)?,
            graph: self.graph,
            graph_path: copied(alloc, &self.graph_path)?,
            depth: self.depth,
            ranks: self.ranks.clone()?,
            state: number,
            loops: loops_in_force(alloc, &self.graph.states, variables, number)?,
            loop_count: loops_about(alloc, &self.graph.states, number)?,
            scopes: self.scopes.copy_of(alloc)?,
            thing: Thing::Leaving {
                items: &state.items,
                exits: &state.exits,
            },
        })
    }

    /// That of an item in these scopes.
    pub fn of_item(
        &self,
        alloc: Global,
        scopes: &Scopes,
        number: u32,
        kind: &'a ItemKind,
    ) -> Result<Place<'a>, NoMemory>
        ensures { IfOk result (λ place. place_of place ≡ places.item_place (place_of self.now) (scopes_of scopes.now) number (kind_tree kind.now)) }
    {
        Ok(Place {
            path: further(alloc, &self.path, number)?,
            graph: self.graph,
            graph_path: copied(alloc, &self.graph_path)?,
            depth: self.depth,
            ranks: self.ranks.clone()?,
            state: self.state,
            loops: copied(alloc, &self.loops)?,
            loop_count: self.loop_count,
            scopes: scopes.copy_of(alloc)?,
            thing: Thing::Doing(kind),
        })
    }
}
