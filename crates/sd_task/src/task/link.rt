ghost use Rattle.std.specs.Prelude.{◌≡◌, map, string_bytes, IfOk};
ghost use Rattle.std.specs.List.{AllByRecursion};
ghost use Rattle.sd_lex.specs.TreeFold.{expressions_of, dimensions_of, memlet_of};
ghost use Rattle.sd_range.specs.declared.subset.Dim.TheVariants.{Index};
ghost use Rattle.sd_program.specs.Affines.{affines_of};
ghost use Rattle.sd_task.specs.task.Links as definition;
ghost use Rattle.sd_program.specs.Bounds.{EachExpression, EachDimension};
ghost use Rattle.sd_program.specs.Small.{IsSmall, IsWithinLimits};
ghost use Rattle.sd_task.specs.in_force.SmallExtents.{HaveSmallExtents};
ghost use Rattle.sd_task.specs.in_force.Subsets as subsets;
ghost use Rattle.sd_task.specs.task.Table.{extents_at};
ghost use Rattle.sd_task.specs.task.TableOf.{table_of};

use crate::in_force::{Scope, affine, connector_subset, subset_of};
use crate::task::names::Names;
use sd_graph::{Link, Memlet, Port};
use sd_lex::{Expr, Lambda, Moved, Slot};
use sd_list::{NoMemory, Sequence, Text};
use sd_num::Resolution;
use sd_range::{Affine, Dim, Subset};
use std::alloc::Global;

/// Each expression as an index.
fn indices(alloc: Global, variables: &Scope, at: &[Expr]) -> Result<Vec<Dim>, NoMemory>
    requires { EachExpression IsSmall (expressions_of at.now) }
    ensures { IfOk result (λ dims. dims.items ≡ map Index (affines_of variables.now (expressions_of at.now))) }
{
    let mut dims = Vec::with_capacity(alloc, at.len())?;
    for index in at {
        dims.push(Dim::Index(affine(alloc, variables, index)?))?;
    }
    Ok(dims)
}

/// The link of one element.
pub fn element_link(
    alloc: Global,
    names: &Names,
    connector: String,
    name: &str,
    at: &[Expr],
    resolution: Option<Resolution>,
) -> Result<Link, NoMemory>
    requires { EachExpression IsSmall (expressions_of at.now) }
    ensures { IfOk result (λ link. link ≡ definition.element_link (table_of names.now) (string_bytes connector) name.now (expressions_of at.now) resolution) }
{
    let dims = indices(alloc, &names.variables, at)?;
    Ok(Link {
        connector: Text::from(connector),
        memlet: Memlet {
            container: names.containers.number_or(0, name),
            subset: Subset {
                dims: Sequence::from(dims),
            },
            volume: 1,
            resolution,
        },
    })
}

/// The extents of the container of a number; a stream has none.
#[tactic(auto, using(crate::proofs::task_lemmas::ExtentLemmas::extents_found, crate::proofs::task_lemmas::ExtentLemmas::extents_missing, crate::proofs::task_lemmas::ExtentLemmas::extents_within))]
fn extents(names: &Names, container: u32) -> &[Affine]
    requires { HaveSmallExtents (table_of names.now).all }
    ensures extents { result.now ≡ extents_at (table_of names.now).all container }
    ensures within { AllByRecursion IsWithinLimits result.now }
{
    match names.all.get_index(container as usize) {
        Some((_, found)) => found.extents.as_slice(),
        None => &[],
    }
}

/// A link of all fields.
fn link_to(
    alloc: Global,
    connector: &str,
    container: u32,
    dims: Vec<Dim>,
    volume: i64,
    resolution: Option<Resolution>,
) -> Result<Link, NoMemory>
    ensures { IfOk result (λ link. link ≡ definition.link_to connector.now container dims.items volume resolution) }
{
    Ok(Link {
        connector: Text::from(String::from_str(alloc, connector)?),
        memlet: Memlet {
            container,
            subset: Subset {
                dims: Sequence::from(dims),
            },
            volume,
            resolution,
        },
    })
}

/// The link of a subset of a container.
pub fn subset_link(
    alloc: Global,
    names: &Names,
    connector: &str,
    name: &str,
    slots: &[Slot],
) -> Result<Link, NoMemory>
    requires extents { HaveSmallExtents (table_of names.now).all }
    requires small { EachDimension IsSmall (dimensions_of slots.now) }
    ensures { IfOk result (λ link. link ≡ definition.subset_link (table_of names.now) connector.now name.now (dimensions_of slots.now)) }
{
    let container = names.containers.number_or(0, name);
    let dims = subset_of(alloc, &names.variables, slots, extents(names, container))?;
    link_to(alloc, connector, container, dims, 1, None)
}

/// The resolution that a lambda stands for.
pub fn resolution_of(lambda: Lambda) -> Resolution
    ensures { result ≡ definition.resolution_of lambda }
{
    match lambda {
        Lambda::Sum => Resolution::Sum,
        Lambda::Product => Resolution::Product,
        Lambda::Min => Resolution::Min,
        Lambda::Max => Resolution::Max,
        Lambda::And => Resolution::And,
        Lambda::Or => Resolution::Or,
        Lambda::Xor => Resolution::Xor,
        Lambda::Last => Resolution::Last,
    }
}

/// The link of a tasklet's connector.
pub fn memlet_link(
    alloc: Global,
    names: &Names,
    connector: &str,
    moved: &Moved,
) -> Result<Link, NoMemory>
    requires extents { HaveSmallExtents (table_of names.now).all }
    requires small { EachDimension IsSmall (memlet_of moved.now).dimensions }
    ensures { IfOk result (λ link. link ≡ definition.memlet_link (table_of names.now) connector.now (memlet_of moved.now)) }
{
    let container = names.containers.number_or(0, moved.name.as_str());
    let dims = connector_subset(
        alloc,
        &names.variables,
        &moved.dims,
        extents(names, container),
    )?;
    let resolution = match moved.lambda {
        None => None,
        Some(lambda) => Some(resolution_of(lambda)),
    };
    link_to(
        alloc,
        connector,
        container,
        dims,
        moved.volume.unwrap_or(1),
        resolution,
    )
}

/// How many dimensions are ranges.
fn ranges_among(dims: &[Dim]) -> Result<u32, NoMemory>
    ensures { IfOk result (λ ranges. ranges ≡ subsets.ranges_among dims.now) }
{
    let mut ranges = 0u32;
    for dim in dims {
        if let Dim::Span(_) = dim {
            ranges = ranges.checked_add(1).ok_or(NoMemory)?;
        }
    }
    Ok(ranges)
}

/// The connectors that have these links.
pub fn ports(alloc: Global, links: &[Link]) -> Result<Vec<Port>, NoMemory>
    ensures { IfOk result (λ ports. ports.items ≡ definition.ports_of links.now) }
{
    let mut ports = Vec::with_capacity(alloc, links.len())?;
    for link in links {
        ports.push(Port {
            connector: link.connector.copy_of(alloc)?,
            dims: ranges_among(link.memlet.subset.dims.as_slice())?,
        })?;
    }
    Ok(ports)
}
