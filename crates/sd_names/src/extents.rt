//! The extents of containers.
ghost use Rattle.std.specs.Prelude.{◌≡◌, ◌∷◌, [], IfOk};
ghost use Rattle.sd_names.specs.Extents as definition;
ghost use Rattle.sd_names.specs.Extents.{AreWithin};

use sd_list::{NoMemory, Sequence};
use sd_range::Affine;
use std::alloc::Global;
use std::marker::Model;

/// The extents of an array, each within the limits of affine expressions.
#[derive(Drop)]
pub struct Extents {
    extents: Sequence<Affine>,
}

impl Model for Extents {
    ghost use Rattle.std.specs.Prelude.{List};
    ghost use Rattle.sd_range.specs.declared.affine.Affine.{Affine};
    ghost use Rattle.sd_names.specs.Extents.{AreWithin};

    ghost Value = { List Affine };

    ghost view = { λ e. e.extents };

    ghost invariant = { λ e. AreWithin e.extents };
}

impl Extents {
    /// Extents that are within the limits.
    pub fn new(extents: Sequence<Affine>) -> Extents
        requires { AreWithin extents }
        ensures { result ≡ extents }
    {
        Extents { extents }
    }

    /// One extent, of 1.
    pub fn one(alloc: Global) -> Result<Extents, NoMemory>
        ensures { IfOk result (λ all. all ≡ definition.one_extent ∷ []) }
    {
        let mut all = Vec::new(alloc);
        all.push(Affine::constant(alloc, 1))?;
        Ok(Extents::new(Sequence::from(all)))
    }

    /// The extents, of the first dimension first.
    pub fn as_slice(&self) -> &[Affine]
        ensures extents { result.now ≡ self.now }
        ensures within { AreWithin result.now }
    {
        self.extents.as_slice()
    }

    /// The same extents once more.
    pub fn copy_of(&self, alloc: Global) -> Result<Extents, NoMemory>
        ensures { IfOk result (λ copy. copy ≡ self.now) }
    {
        let mut all = Vec::new(alloc);
        for extent in self.extents.as_slice() {
            all.push(extent.copy_of(alloc)?)?;
        }
        Ok(Extents::new(Sequence::from(all)))
    }
}

/// Whether both have the same constant and the same terms.
pub fn is_same(a: &Affine, b: &Affine) -> bool
    ensures { result ≡ definition.is_same a.now b.now }
{
    a.constant == b.constant && a.terms.as_slice() == b.terms.as_slice()
}

/// Whether both lists have the same extents.
pub fn are_same(a: &[Affine], b: &[Affine]) -> bool
    ensures { result ≡ definition.are_same a.now b.now }
{
    let mut left = b;
    for extent in a {
        match left {
            [other, rest @ ..] => {
                if !is_same(extent, other) {
                    return false;
                }
                left = rest;
            }
            [] => return false,
        }
    }
    left.is_empty()
}
