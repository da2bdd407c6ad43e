ghost use Rattle.std.specs.Prelude.{◌≡◌, ◌<◌, ◌^◌, slice_index_or};
ghost use Rattle.sd_work.specs.Memory.{look};
ghost use Rattle.sd_row.specs.row.Row.{reference_on};
ghost use Rattle.sd_row.specs.view.View.{along, reference_in};

use crate::row::Track;
use sd_mem::{Address, Machine};

/// The elements of an input where they stand: the first one, so many in each dimension, and how far those are apart whose places
/// differ by one in it.
#[derive(Drop)]
pub struct Window {
    pub first: Track,
    pub extents: Vec<u64>,
    pub strides: Vec<u64>,
}

/// The number of the element at a place, from that of the first one on.
#[inline(always)]
fn number_along(first: u64, strides: &[u64], at: &[i64]) -> u64
    requires { along first strides.now at.now < 2 ^ 64 }
    ensures { result ≡ along first strides.now at.now }
{
    let mut number = first;
    for dim in 0..at.len() {
        number += stride_of(strides, dim) * at[dim].unsigned_abs();
    }
    number
}

/// The stride of a dimension; one that is not there has 0.
#[inline(always)]
fn stride_of(strides: &[u64], dim: usize) -> u64
    ensures { result ≡ slice_index_or strides.now dim 0 }
{
    match strides.get(dim) {
        Some(stride) => *stride,
        None => 0,
    }
}

impl Window {
    /// The value of the element at a place, at a point of a row.
    #[inline(always)]
    pub(crate) fn seen(&self, k: u32, at: &[i64], machine: &Machine) -> i64
        requires { along (reference_on self.now.first k).element self.now.strides.items at.now < 2 ^ 64 }
        ensures { result ≡ look (reference_in k self.now at.now) machine.now.memories }
    {
        let first = self.first.cell(k);
        let element = number_along(first.element, self.strides.as_slice(), at);
        machine.look(Address {
            station: first.station,
            element,
        })
    }
}
