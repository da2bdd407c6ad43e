ghost use Rattle.std.specs.Prelude.{◌≡◌, ◌↔◌, IfOk, IsTrue};

use crate::affine::Affine;
use crate::range::Range;
use sd_list::{NoMemory, Sequence};
use std::alloc::Global;

/// One dimension of a subset: one index, or those of a range.
#[derive(Drop)]
pub enum Dim {
    Index(Affine),
    Span(Range),
}

impl Dim {
    /// The same dimension once more.
    pub fn copy_of(&self, alloc: Global) -> Result<Dim, NoMemory>
        ensures { IfOk result (λ copy. copy ≡ self.now) }
    {
        match self {
            Dim::Index(at) => Ok(Dim::Index(at.copy_of(alloc)?)),
            Dim::Span(range) => Ok(Dim::Span(range.copy_of(alloc)?)),
        }
    }

    /// Whether both are the same index, or both the same range. Takes no memory.
    pub fn same(&self, other: &Dim) -> bool
        ensures { IsTrue result ↔ (self.now ≡ other.now) }
    {
        match (self, other) {
            (Dim::Index(at), Dim::Index(other)) => at.same(other),
            (Dim::Span(range), Dim::Span(other)) => range.same(other),
            _ => false,
        }
    }
}

/// Some of a container's elements: those whose index lies in each dimension in its own part.
#[derive(Drop)]
pub struct Subset {
    pub dims: Sequence<Dim>,
}

impl Subset {
    /// The same subset once more.
    pub fn copy_of(&self, alloc: Global) -> Result<Subset, NoMemory>
        ensures { IfOk result (λ copy. copy ≡ self.now) }
    {
        let mut dims = Vec::with_capacity(alloc, self.dims.len())?;
        for dim in self.dims.as_slice() {
            dims.push(dim.copy_of(alloc)?)?;
        }
        Ok(Subset {
            dims: Sequence::from(dims),
        })
    }

    /// Whether both have the same dimensions in the same order. Takes no memory.
    pub fn same(&self, other: &Subset) -> bool
        ensures { IsTrue result ↔ (self.now ≡ other.now) }
    {
        are_same(self.dims.as_slice(), other.dims.as_slice())
    }
}

/// Whether both lists have the same dimensions in the same order.
fn are_same(a: &[Dim], b: &[Dim]) -> bool
    ensures { IsTrue result ↔ (a.now ≡ b.now) }
{
    if a.len() != b.len() {
        return false;
    }
    for (i, x) in a.iter().enumerate() {
        if !x.same(&b[i]) {
            return false;
        }
    }
    true
}
