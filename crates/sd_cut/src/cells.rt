ghost use Rattle.std.specs.Prelude.{◌≡◌, ◌++◌, [], map, length, IfOk, drop};
ghost use Rattle.std.specs.List.{All};
ghost use Rattle.sd_range.specs.Subset.{elements, IsDim};
ghost use Rattle.sd_subset.specs.elements.Way.{opening, IsEvaluableDim};
ghost use Rattle.sd_cut.specs.Cells.{span_within, spans_within, subset_within, value_at};

use crate::window::Window;
use sd_list::{NoMemory, Sequence};
use sd_mem::Memory;
use sd_range::{Affine, Dim, Env, Range, Subset};
use sd_subset::Elements;
use std::alloc::Global;

/// The values of a dimension within a window. A number that does not fit counts as a want of memory.
fn span_of(alloc: Global, shift: i128, extent: u64) -> Result<Dim, NoMemory>
    ensures span { IfOk result (λ dim. dim ≡ span_within shift extent) }
    ensures is_dim { IfOk result IsDim }
    ensures evaluable { IfOk result (IsEvaluableDim []) }
{
    let Some(low) = 0_i128.checked_sub(shift) else {
        return Err(NoMemory);
    };
    let Some(high) = (i128::from(extent) - 1).checked_sub(shift) else {
        return Err(NoMemory);
    };
    let mut ends = Vec::new(alloc);
    ends.push(Affine::constant(alloc, high))?;
    Ok(Dim::Span(Range {
        begin: Affine::constant(alloc, low),
        ends: Sequence::from(ends),
        step: 1,
    }))
}

/// The dimensions of a window.
fn spans_of(alloc: Global, shift: &[i128], extents: &[u64]) -> Result<Vec<Dim>, NoMemory>
    requires same { length shift.now ≡ length extents.now }
    ensures spans { IfOk result (λ dims. dims.items ≡ spans_within shift.now extents.now) }
    ensures are_dims { IfOk result (λ dims. All IsDim dims.items) }
    ensures evaluable { IfOk result (λ dims. All (IsEvaluableDim []) dims.items) }
{
    let mut dims = Vec::with_capacity(alloc, shift.len())?;
    for (i, number) in shift.iter().enumerate() {
        dims.push(span_of(alloc, *number, extents[i])?)?;
    }
    Ok(dims)
}

/// The values of a container's elements in a window, in row order; 0 where the window goes beyond the container.
pub fn cells_within(
    alloc: Global,
    memory: &Memory,
    container: u32,
    window: &Window,
) -> Result<Vec<i64>, NoMemory>
    requires same { length window.now.shift ≡ length window.now.extents }
    ensures { IfOk result (λ cells. cells.items ≡ map (value_at memory.now container) (elements (subset_within window.now.shift window.now.extents) [])) }
{
    let dims = spans_of(alloc, window.shift.as_slice(), window.extents.as_slice())?;
    let subset = Subset {
        dims: Sequence::from(dims),
    };
    let env = Env {
        values: Sequence::new(alloc),
    };
    let mut left = Elements::new(alloc, &subset, &env)?;
    let mut index = vec![in alloc; 0; subset.dims.len()]?;
    let mut cells = Vec::new(alloc);
    while left.next(index.as_mut_slice()) {
        cells.push(value_of(memory, container, index.as_slice()))?;
    }
    Ok(cells)
}

/// The value of an element; 0 where the index is outside.
pub(crate) fn value_of(memory: &Memory, container: u32, index: &[i128]) -> i64
    ensures { result ≡ value_at memory.now container index.now }
{
    match memory.read(container, index) {
        Some(value) => value,
        None => 0,
    }
}
