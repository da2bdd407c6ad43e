ghost use Rattle.std.specs.Prelude.{◌≡◌, ◌<◌, Ok, length, map};
ghost use Rattle.sd_graph.specs.TaskletMeaning as meaning;
ghost use Rattle.sd_tcode.specs.op.Machine.{answered, held, extents_at, cells_at, cell_of};
ghost use Rattle.sd_tcode.specs.op.Memory.{HasCellsAt};

use crate::op::source::Source;
use sd_graph::FaultKind;
use sd_tasklet::{is_inside, row_number};

/// The extents of a connector, and the elements of an input connector that has dimensions, in row
/// order.
#[derive(Drop)]
pub struct Array {
    pub extents: Vec<u64>,
    pub cells: Vec<i64>,
}

/// The extents of a connector.
#[inline(always)]
fn extents_of(arrays: &[Array], connector: u32) -> &[u64]
    requires { connector < length arrays.now }
    ensures { result.now ≡ extents_at (map held arrays.now) connector }
{
    &arrays[connector as usize].extents
}

/// The elements of a connector.
#[inline(always)]
fn cells_of(arrays: &[Array], connector: u32) -> &[i64]
    requires { connector < length arrays.now }
    ensures { result.now ≡ cells_at (map held arrays.now) connector }
{
    &arrays[connector as usize].cells
}

/// An index is inside a connector, or else the fault that it is not.
#[inline(always)]
fn is_at(arrays: &[Array], connector: u32, at: &[i64]) -> Result<(), FaultKind>
    requires { connector < length arrays.now }
    ensures { meaning.checked (extents_at (map held arrays.now) connector) at.now ≡ answered result at.now }
{
    if is_inside(extents_of(arrays, connector), at) {
        return Ok(());
    }
    Err(FaultKind::Subscript)
}

/// The element at an index, or else the fault that it is not inside.
#[inline(always)]
fn element(arrays: &[Array], connector: u32, at: &[i64]) -> Result<i64, FaultKind>
    requires there { connector < length arrays.now }
    requires cells { HasCellsAt (map held arrays.now) connector }
    requires some { 0 < length at.now }
    ensures { result ≡ meaning.and_then (meaning.checked (extents_at (map held arrays.now) connector) at.now) (λ at. Ok (cell_of (map held arrays.now) connector at)) }
{
    is_at(arrays, connector, at)?;
    Ok(cells_of(arrays, connector)[row_number(extents_of(arrays, connector), at)])
}

/// The arrays of code, which have the elements themselves.
#[derive(Clone, Copy)]
pub struct Own<'a> {
    pub all: &'a [Array],
}

impl<'a> Source for Own<'a> {
    ghost use Rattle.std.specs.Prelude.{map};
    ghost use Rattle.sd_tcode.specs.op.Machine.{held};
    ghost use Rattle.sd_tcode.specs.op.Memory.{HasCellsAt};

    ghost connectors = { λ arrays. map held arrays.all.now };

    ghost is_held = { λ arrays connector. HasCellsAt (map held arrays.all.now) connector };

    #[inline(always)]
    fn is_at(&self, connector: u32, at: &[i64]) -> Result<(), FaultKind> {
        is_at(self.all, connector, at)
    }

    #[inline(always)]
    fn element(&self, connector: u32, at: &[i64]) -> Result<i64, FaultKind> {
        element(self.all, connector, at)
    }
}
