ghost use Rattle.std.specs.Prelude.{◌≡◌, ◌↔◌, IfOk, IsTrue};
ghost use Rattle.sd_range.specs.Arithmetic.{affine_zero};
ghost use Rattle.sd_subset.specs.boxes.Box as definition;
ghost use Rattle.sd_subset.specs.boxes.Hull.{differs_by_constant};

use sd_list::{NoMemory, Sequence};
use sd_range::{Affine, Dim};
use std::alloc::Global;

/// The lowest and the highest of what is touched in one dimension.
#[derive(Drop)]
pub struct Bounds {
    pub low: Affine,
    pub high: Affine,
}

impl Bounds {
    /// The same bounds once more.
    pub fn copy_of(&self, alloc: Global) -> Result<Bounds, NoMemory>
        ensures { IfOk result (λ copy. copy ≡ self.now) }
    {
        Ok(Bounds {
            low: self.low.copy_of(alloc)?,
            high: self.high.copy_of(alloc)?,
        })
    }
}

/// Whether both expressions have the same terms: then, and only then, they differ by a constant.
pub(crate) fn have_same_terms(a: &Affine, b: &Affine) -> bool
    ensures same { (IsTrue result) ↔ (a.now.terms ≡ b.now.terms) }
    ensures level { result ≡ differs_by_constant a.now b.now }
{
    a.terms.as_slice() == b.terms.as_slice()
}

/// The last of the ends of a range; 0 where it has none.
fn last_end(alloc: Global, ends: &[Affine]) -> Result<Affine, NoMemory>
    ensures { IfOk result (λ end. end ≡ definition.last_of affine_zero ends.now) }
{
    match ends.last() {
        Some(end) => end.copy_of(alloc),
        None => Ok(Affine::constant(alloc, 0)),
    }
}

/// The bounds of a dimension.
fn bounds_of(alloc: Global, dim: &Dim) -> Result<Bounds, NoMemory>
    ensures { IfOk result (λ bounds. bounds ≡ definition.bounds_of dim.now) }
{
    match dim {
        Dim::Index(at) => Ok(Bounds {
            low: at.copy_of(alloc)?,
            high: at.copy_of(alloc)?,
        }),
        Dim::Span(range) => Ok(Bounds {
            low: range.begin.copy_of(alloc)?,
            high: last_end(alloc, range.ends.as_slice())?,
        }),
    }
}

/// The box of a subset with these dimensions.
pub fn box_of(alloc: Global, dims: &[Dim]) -> Result<Sequence<Bounds>, NoMemory>
    ensures { IfOk result (λ all. all ≡ definition.box_of dims.now) }
{
    let mut all = Vec::with_capacity(alloc, dims.len())?;
    for dim in dims {
        all.push(bounds_of(alloc, dim)?)?;
    }
    Ok(Sequence::from(all))
}
