//! The extents of connectors and containers.
ghost use Rattle.std.specs.Prelude.{◌≡◌, map, length, IfOk};
ghost use Rattle.sd_range.specs.Range.{count_between, least_value, range_values};
ghost use Rattle.sd_graph.specs.PlainTree.{GraphTree};
ghost use Rattle.sd_graph.specs.ContainerParts.{extents_of};
ghost use Rattle.sd_graph.specs.Context.{link_extents, span_counts};
ghost use Rattle.sd_scope.specs.scope.Standing.{context_of};
ghost use Rattle.sd_scope.specs.declared.scope.base.Base.{Base as BaseNow};

use crate::scope::element::size_of;
use crate::scope::evaluation::value_of;
use crate::scope::scope::Scope;
use sd_graph::{Container, Link};
use sd_list::NoMemory;
use sd_range::{Affine, Dim, Range};
use std::alloc::Global;

/// The least of the values of the ends of a range; 0 where there is none.
fn least_end(ends: &[Affine], values: &[i128]) -> Result<i128, NoMemory>
    ensures { IfOk result (λ least. least ≡ least_value values.now ends.now) }
{
    let Some((first, others)) = ends.split_first() else {
        return Ok(0);
    };
    let mut least = value_of(first, values)?;
    for end in others {
        least = least.min(value_of(end, values)?);
    }
    Ok(least)
}

/// How many numbers there are from `begin` to `last`, a step apart.
fn count_between(begin: i128, last: i128, step: i128) -> Result<u128, NoMemory>
    ensures { IfOk result (λ count. count ≡ count_between begin last step) }
{
    if last < begin {
        return Ok(0);
    }
    if step == 0 {
        return Err(NoMemory);
    }
    let gaps = last.abs_diff(begin) / step.unsigned_abs();
    gaps.checked_add(1).ok_or(NoMemory)
}

/// How many values a range has.
fn range_count(range: &Range, values: &[i128]) -> Result<u128, NoMemory>
    ensures { IfOk result (λ count. count ≡ length (range_values values.now range.now)) }
{
    let begin = value_of(&range.begin, values)?;
    let last = least_end(range.ends.as_slice(), values)?;
    count_between(begin, last, range.step)
}

/// How many values each range of a subset has.
fn span_counts(alloc: Global, dims: &[Dim], values: &[i128]) -> Result<Vec<u128>, NoMemory>
    ensures { IfOk result (λ counts. counts.items ≡ span_counts dims.now values.now) }
{
    let mut counts = Vec::new(alloc);
    for dim in dims {
        if let Dim::Span(range) = dim {
            counts.push(range_count(range, values)?)?;
        }
    }
    Ok(counts)
}

/// The extents of the connector of a link. Takes no memory where the subset has no range.
pub fn connector_extents(alloc: Global, scope: &Scope, link: &Link) -> Result<Vec<u128>, NoMemory>
    ensures { IfOk result (λ extents. (tree : GraphTree) (base : BaseNow) → extents.items ≡ link_extents (context_of tree base scope.now) link.now) }
{
    let dims = link.memlet.subset.dims.as_slice();
    span_counts(alloc, dims, scope.values.values.as_slice())
}

/// The extents of a container.
pub(crate) fn container_extents(alloc: Global, container: &Container) -> Result<Vec<u64>, NoMemory>
    ensures { IfOk result (λ extents. extents.items ≡ extents_of container.now) }
{
    let mut extents = Vec::with_capacity(alloc, container.extents.len())?;
    for extent in container.extents.as_slice() {
        extents.push(u64::try_from(size_of(extent)).map_err(|_| NoMemory)?)?;
    }
    Ok(extents)
}
