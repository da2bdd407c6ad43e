ghost use Rattle.std.specs.Prelude.{◌≡◌, ℕ, ◌+◌, [], ◌∷◌, map, None, Some, slice_index_or, IfOk};
ghost use Rattle.sd_graph.specs.TreeFold.{graph_tree, named_container};
ghost use Rattle.sd_graph.specs.TreeParts.{containers_of};
ghost use Rattle.sd_graph.specs.ContainerParts.{Containers, container_at, extents_of};
ghost use Rattle.sd_graph.specs.Context.{frames_at, raised, view};
ghost use Rattle.sd_graph.specs.Unfold.{reach_inside};
ghost use Rattle.sd_scope.specs.scope.Standing.{context_of, opening_reach, reach_by};

use crate::scope::access::{station, way_here};
use crate::scope::extents::container_extents;
use crate::scope::place::frames_at;
use crate::scope::scope::{Scope, one_more};
use indexmap::IndexMap;
use sd_graph::{Container, ContainerKind, Frame, Link, Sdfg};
use sd_list::{NoMemory, Sequence};
use sd_mem::Station;
use sd_range::Subset;
use std::alloc::Global;

/// One step of a way through the arguments of nested graphs: an index inside these extents stands for the composed one.
#[derive(Drop)]
pub struct View {
    pub extents: Sequence<u64>,
    pub subset: Subset,
    /// Those of the variables where the nested graph stands.
    pub values: Sequence<i128>,
}

impl View {
    /// The same view once more.
    fn copy_of(&self, alloc: Global) -> Result<View, NoMemory>
        ensures { IfOk result (λ copy. copy ≡ self.now) }
    {
        let extents = self.extents.as_slice().to_vec(alloc)?;
        let values = self.values.as_slice().to_vec(alloc)?;
        Ok(View {
            extents: Sequence::from(extents),
            subset: self.subset.copy_of(alloc)?,
            values: Sequence::from(values),
        })
    }
}

/// How an argument of a nested graph is reached from a run of it: the container where the way ends, its level as it is seen
/// from the run, the views on the way there, the innermost first, and that container's extents.
#[derive(Drop)]
pub struct Way {
    pub station: Station,
    pub views: Sequence<View>,
    pub extents: Sequence<u64>,
}

/// What stays as it is during a run of a graph: the ways of its arguments, by their numbers, and the frames of the graphs
/// round it. A container without a way is of the run's own memory.
#[derive(Drop)]
pub struct Base {
    pub ways: Sequence<Option<Way>>,
    pub around: Sequence<Frame>,
}

impl Base {
    /// That of a whole run, which nothing is round. Takes no memory.
    pub fn outermost(alloc: Global) -> Base
        ensures ways { result.ways ≡ [] }
        ensures around { result.around ≡ [] }
    {
        Base {
            ways: Sequence::new(alloc),
            around: Sequence::new(alloc),
        }
    }

    /// That of a run of a nested graph, which stands in a line of a scope: its arguments are reached through these links.
    pub fn inside(
        alloc: Global,
        graph: &Sdfg,
        base: &Base,
        scope: &Scope,
        line: u32,
        inner: &Sdfg,
        links: &[Link],
    ) -> Result<Base, NoMemory>
        ensures reach { IfOk result (λ within. opening_reach (containers_of (graph_tree inner.now)) within ≡ reach_inside (context_of (graph_tree graph.now) base.now scope.now) links.now (containers_of (graph_tree inner.now))) }
        ensures around { IfOk result (λ within. within.around ≡ frames_at (context_of (graph_tree graph.now) base.now scope.now) line) }
    {
        let ways = ways_inside(alloc, graph, base, scope, &inner.containers, links)?;
        let around = frames_at(alloc, graph, base, scope, line)?;
        Ok(Base {
            ways: Sequence::from(ways),
            around: Sequence::from(around),
        })
    }
}

/// The ways of the containers of a nested graph.
fn ways_inside(
    alloc: Global,
    graph: &Sdfg,
    base: &Base,
    scope: &Scope,
    inner: &IndexMap<String, Container>,
    links: &[Link],
) -> Result<Vec<Option<Way>>, NoMemory>
    ensures { IfOk result (λ ways. (number : ℕ) → reach_by 0 (map named_container inner.now.entries) number (slice_index_or ways.items number None) ≡ reach_inside (context_of (graph_tree graph.now) base.now scope.now) links.now (map named_container inner.now.entries) number) }
{
    let mut ways = Vec::with_capacity(alloc, inner.len())?;
    for (_, container) in inner.iter() {
        let number = ways.len();
        ways.push(way_of(alloc, graph, base, scope, container, links, number)?)?;
    }
    Ok(ways)
}

/// The way of a container of a nested graph that has this number there; only an argument with a link has one.
fn way_of(
    alloc: Global,
    graph: &Sdfg,
    base: &Base,
    scope: &Scope,
    container: &Container,
    links: &[Link],
    number: usize,
) -> Result<Option<Way>, NoMemory>
    ensures { IfOk result (λ way. (inner : Containers) → container_at inner number ≡ container.now → reach_by 0 inner number way ≡ reach_inside (context_of (graph_tree graph.now) base.now scope.now) links.now inner number) }
{
    if container.kind != ContainerKind::Argument {
        return Ok(None);
    }
    match links.get(number) {
        None => Ok(None),
        Some(link) => {
            let way = way_through(alloc, graph, base, scope, container, link)?;
            Ok(Some(way))
        }
    }
}

/// The way of an argument through its link.
fn way_through(
    alloc: Global,
    graph: &Sdfg,
    base: &Base,
    scope: &Scope,
    container: &Container,
    link: &Link,
) -> Result<Way, NoMemory>
    ensures { IfOk result (λ way. (inner : Containers) (number : ℕ) → reach_by 0 inner number (Some way) ≡ raised (view container.now link.now.memlet.subset scope.now.values.values ((context_of (graph_tree graph.now) base.now scope.now).reach link.now.memlet.container))) }
{
    let outer = link.memlet.container;
    let station = station(base, scope, outer)?;
    let view = view_of(alloc, scope, container, link)?;
    match way_here(base, scope, outer) {
        None => {
            let extents = own_extents(alloc, &graph.containers, outer)?;
            way_behind(alloc, station, view, &[], extents.as_slice())
        }
        Some(way) => {
            way_behind(
                alloc,
                station,
                view,
                way.views.as_slice(),
                way.extents.as_slice(),
            )
        }
    }
}

/// The way to a container behind a view and these others, a level higher than it is outside.
fn way_behind(
    alloc: Global,
    outside: Station,
    view: View,
    others: &[View],
    extents: &[u64],
) -> Result<Way, NoMemory>
    ensures { IfOk result (λ way. way ≡ record { station = record { level = outside.level + 1; container = outside.container }; views = view ∷ others.now; extents = extents.now }) }
{
    let level = one_more(outside.level)?;
    let views = views_behind(alloc, view, others)?;
    let extents = extents.to_vec(alloc)?;
    Ok(Way {
        station: Station {
            level,
            container: outside.container,
        },
        views: Sequence::from(views),
        extents: Sequence::from(extents),
    })
}

/// The view of an argument through its link.
fn view_of(
    alloc: Global,
    scope: &Scope,
    container: &Container,
    link: &Link,
) -> Result<View, NoMemory>
    ensures { IfOk result (λ made. made ≡ record { extents = extents_of container.now; subset = link.now.memlet.subset; values = scope.now.values.values }) }
{
    let extents = container_extents(alloc, container)?;
    let values = scope.values.values.as_slice().to_vec(alloc)?;
    Ok(View {
        extents: Sequence::from(extents),
        subset: link.memlet.subset.copy_of(alloc)?,
        values: Sequence::from(values),
    })
}

/// A view before others.
fn views_behind(alloc: Global, first: View, others: &[View]) -> Result<Vec<View>, NoMemory>
    ensures { IfOk result (λ views. views.items ≡ first ∷ others.now) }
{
    let mut views = Vec::new(alloc);
    views.push(first)?;
    for view in others {
        views.push(view.copy_of(alloc)?)?;
    }
    Ok(views)
}

/// The extents of one of the graph's containers.
fn own_extents(
    alloc: Global,
    containers: &IndexMap<String, Container>,
    container: u32,
) -> Result<Vec<u64>, NoMemory>
    ensures { IfOk result (λ extents. extents.items ≡ extents_of (container_at (map named_container containers.now.entries) container)) }
{
    match containers.get_index(container as usize) {
        Some((_, container)) => container_extents(alloc, container),
        None => Ok(Vec::new(alloc)),
    }
}
