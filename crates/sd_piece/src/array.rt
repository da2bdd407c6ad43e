//! Whether a memory has an array of a graph, as the graph has it.
ghost use Rattle.std.specs.List.{AllByRecursion};
ghost use Rattle.std.specs.Option.{MatchOption};
ghost use Rattle.std.specs.Prelude.{◌≡◌, ◌↔◌, ◌<◌, ◌≤◌, ◌^◌, ◌++◌, length, IfOk, IsTrue, OnOk};
ghost use Rattle.sd_range.specs.Points.{product};
ghost use Rattle.sd_range.specs.Subset.{inside};
ghost use Rattle.sd_work.specs.Memory.{elements_of};
ghost use Rattle.sd_mem.specs.mem.Shaped.{contents_at, shape_at};
ghost use Rattle.sd_piece.specs.Held as definition;

use sd_list::NoMemory;
use sd_mem::{Elements, Memory};
use std::alloc::Global;

/// Adds the last index of an array of these extents to a list, with the number behind the last one in a dimension.
fn push_beyond(extents: &[u64], dimension: usize, index: &mut Vec<i128>) -> Result<(), NoMemory>
    ensures { OnOk result (index.new.items ≡ index.old.items ++ definition.beyond dimension extents.now) }
{
    let Some((extent, others)) = extents.split_first() else {
        return Ok(());
    };
    if dimension == 0 {
        index.push(i128::from(*extent))?;
        return push_last(others, index);
    }
    index.push(i128::from(*extent) - 1)?;
    push_beyond(others, dimension - 1, index)
}

/// Adds the last index of an array of these extents to a list.
fn push_last(extents: &[u64], index: &mut Vec<i128>) -> Result<(), NoMemory>
    ensures { OnOk result (index.new.items ≡ index.old.items ++ definition.last_index extents.now) }
{
    for extent in extents {
        index.push(i128::from(*extent) - 1)?;
    }
    Ok(())
}

/// Whether an array has the last index of these extents.
fn has_last(
    alloc: Global,
    memory: &Memory,
    container: u32,
    extents: &[u64],
) -> Result<bool, NoMemory>
    ensures { IfOk result (λ has. has ≡ inside (shape_at memory.now container) (definition.last_index extents.now)) }
{
    let mut index = Vec::with_capacity(alloc, extents.len())?;
    push_last(extents, &mut index)?;
    Ok(memory.place(container, index.as_slice()).is_some())
}

/// Whether an array has an index behind the last one of these extents in a dimension.
fn has_beyond(
    alloc: Global,
    memory: &Memory,
    container: u32,
    extents: &[u64],
    dimension: usize,
) -> Result<bool, NoMemory>
    ensures { IfOk result (λ has. has ≡ inside (shape_at memory.now container) (definition.beyond dimension extents.now)) }
{
    let mut index = Vec::with_capacity(alloc, extents.len())?;
    push_beyond(extents, dimension, &mut index)?;
    Ok(memory.place(container, index.as_slice()).is_some())
}

/// How many elements an array holds.
fn element_count(memory: &Memory, container: u32) -> usize
    ensures { result ≡ length (elements_of (contents_at memory.now container)) }
{
    match memory.cells(container) {
        Elements::W32(cells) => cells.len(),
        Elements::W64(cells) => cells.len(),
    }
}

/// The product of extents, none of which is 0; `None` where it does not fit 64 bits.
fn product_of(extents: &[u64]) -> Option<u64>
    requires { AllByRecursion (λ extent. 0 < extent) extents.now }
    ensures { MatchOption result (2 ^ 64 ≤ product extents.now) (λ all. all ≡ product extents.now) }
{
    let mut all: u64 = 1;
    for extent in extents {
        all = all.checked_mul(*extent)?;
    }
    Some(all)
}

/// Whether a memory has an array of these extents, none of which is 0, with all its elements.
pub(crate) fn has_array(
    alloc: Global,
    memory: &Memory,
    container: u32,
    extents: &[u64],
) -> Result<bool, NoMemory>
    ensures { IfOk result (λ has. IsTrue has ↔ definition.HasArray extents.now memory.now container) }
{
    if !has_last(alloc, memory, container, extents)? {
        return Ok(false);
    }
    for dimension in 0..extents.len() {
        if has_beyond(alloc, memory, container, extents, dimension)? {
            return Ok(false);
        }
    }
    let count = element_count(memory, container) as u64;
    let Some(all) = product_of(extents) else {
        return Ok(false);
    };
    Ok(count == all)
}
