ghost use Rattle.std.specs.Prelude.{◌≡◌, ℕ, [], ◌∷◌, map, slice_index_or, None, IfOk};
ghost use Rattle.sd_graph.specs.ContainerParts.{extents_of, container_at};
ghost use Rattle.sd_graph.specs.TreeFold.{graph_tree, named_container};
ghost use Rattle.sd_graph.specs.TreeParts.{containers_of};
ghost use Rattle.sd_scope.specs.scope.Standing.{opening_reach};
ghost use Rattle.sd_cut.specs.Windowed.{dim_shifted, way_through, way_at, ways_from, reach_in};

use indexmap::IndexMap;
use sd_graph::{Container, Sdfg};
use sd_list::{NoMemory, Sequence};
use sd_mem::Station;
use sd_range::{Affine, Dim, Range, Subset};
use sd_scope::{Base, View, Way};
use std::alloc::Global;

/// A box of a container's elements: what is added to an index to find its place in the box, and the box's extents.
#[derive(Drop)]
pub struct Window {
    pub shift: Sequence<i128>,
    pub extents: Sequence<u64>,
}

/// A dimension that begins at this number.
fn dim_of(alloc: Global, shift: i128) -> Result<Dim, NoMemory>
    ensures { IfOk result (λ dim. dim ≡ dim_shifted shift) }
{
    let mut ends = Vec::new(alloc);
    ends.push(Affine::constant(alloc, shift))?;
    Ok(Dim::Span(Range {
        begin: Affine::constant(alloc, shift),
        ends: Sequence::from(ends),
        step: 1,
    }))
}

/// The dimensions that begin at these numbers.
fn dims_of(alloc: Global, shift: &[i128]) -> Result<Vec<Dim>, NoMemory>
    ensures { IfOk result (λ dims. dims.items ≡ map dim_shifted shift.now) }
{
    let mut dims = Vec::with_capacity(alloc, shift.len())?;
    for number in shift {
        dims.push(dim_of(alloc, *number)?)?;
    }
    Ok(dims)
}

/// The extents of a container.
fn extents(alloc: Global, container: &Container) -> Result<Vec<u64>, NoMemory>
    ensures { IfOk result (λ shape. shape.items ≡ extents_of container.now) }
{
    let mut shape = Vec::with_capacity(alloc, container.extents.len())?;
    for extent in container.extents.as_slice() {
        let extent = u64::try_from(extent.constant.unsigned_abs()).map_err(|_| NoMemory)?;
        shape.push(extent)?;
    }
    Ok(shape)
}

/// The extents of the container of a number.
fn extents_at(
    alloc: Global,
    containers: &IndexMap<String, Container>,
    number: usize,
) -> Result<Vec<u64>, NoMemory>
    ensures { IfOk result (λ shape. shape.items ≡ extents_of (container_at (map named_container containers.now.entries) number)) }
{
    match containers.get_index(number) {
        Some((_, container)) => extents(alloc, container),
        None => Ok(Vec::new(alloc)),
    }
}

/// The way to a container through its window, which has the container's number.
fn way_of(
    alloc: Global,
    containers: &IndexMap<String, Container>,
    number: usize,
    window: &Window,
) -> Result<Way, NoMemory>
    ensures { IfOk result (λ way. way ≡ way_through (map named_container containers.now.entries) number window.now) }
{
    let container = u32::try_from(number).map_err(|_| NoMemory)?;
    let view = View {
        extents: Sequence::from(extents_at(alloc, containers, number)?),
        subset: Subset {
            dims: Sequence::from(dims_of(alloc, window.shift.as_slice())?),
        },
        values: Sequence::new(alloc),
    };
    let mut views = Vec::new(alloc);
    views.push(view)?;
    Ok(Way {
        station: Station {
            level: 0,
            container,
        },
        views: Sequence::from(views),
        extents: Sequence::from(window.extents.as_slice().to_vec(alloc)?),
    })
}

/// The same where there is a window.
fn way_if(
    alloc: Global,
    containers: &IndexMap<String, Container>,
    number: usize,
    window: &Option<Window>,
) -> Result<Option<Way>, NoMemory>
    ensures { IfOk result (λ way. way ≡ way_at (map named_container containers.now.entries) number window.now) }
{
    match window {
        None => Ok(None),
        Some(window) => Ok(Some(way_of(alloc, containers, number, window)?)),
    }
}

/// The ways to the containers through their windows.
fn ways_of(
    alloc: Global,
    containers: &IndexMap<String, Container>,
    windows: &[Option<Window>],
) -> Result<Vec<Option<Way>>, NoMemory>
    ensures { IfOk result (λ ways. ways.items ≡ ways_from (map named_container containers.now.entries) 0 windows.now) }
{
    let mut ways = Vec::with_capacity(alloc, windows.len())?;
    for window in windows {
        let number = ways.len();
        ways.push(way_if(alloc, containers, number, window)?)?;
    }
    Ok(ways)
}

/// A run of a graph whose containers are reached through windows; one without a window is reached as it is.
pub fn windowed_base(
    alloc: Global,
    graph: &Sdfg,
    windows: &[Option<Window>],
) -> Result<Base, NoMemory>
    ensures reach { IfOk result (λ base. opening_reach (containers_of (graph_tree graph.now)) base ≡ reach_in (containers_of (graph_tree graph.now)) windows.now) }
    ensures around { IfOk result (λ base. base.around ≡ []) }
{
    let ways = ways_of(alloc, &graph.containers, windows)?;
    Ok(Base {
        ways: Sequence::from(ways),
        around: Sequence::new(alloc),
    })
}
