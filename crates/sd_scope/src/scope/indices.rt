//! The indices of a link's elements, one after another.
ghost use Rattle.std.specs.Prelude.{◌≡◌, [], ◌∷◌, IfOk};
ghost use Rattle.std.specs.Bool.{OnTrue, OnFalse};
ghost use Rattle.sd_range.specs.Subset.{elements};

use crate::scope::evaluation::check_dims;
use crate::scope::scope::Scope;
use sd_graph::Link;
use sd_list::NoMemory;
use sd_subset::Elements;
use std::alloc::Global;
use std::marker::Model;

/// A way through the indices of a link's elements, in row order, the last dimension fastest.
///
/// It stands before the first one at first, and `next` leads from index to index. No call but `of` takes memory.
#[derive(Drop)]
pub struct Indices {
    elements: Elements,
    index: Vec<i128>,
}

impl Model for Indices {
    ghost use Rattle.sd_scope.specs.scope.IndexWay.{IndexWay};

    ghost Value = { IndexWay };

    ghost use Rattle.sd_scope.specs.scope.IndexWalk.{way_of, IsWay};

    ghost view = { way_of };

    ghost invariant = { IsWay };
}

impl Indices {
    /// Stands before the first index of a link, where a scope stands.
    pub fn of(alloc: Global, scope: &Scope, link: &Link) -> Result<Indices, NoMemory>
        ensures { IfOk result (λ indices. indices.left ≡ elements link.now.memlet.subset scope.now.values.values) }
    {
        let subset = &link.memlet.subset;
        check_dims(subset.dims.as_slice(), scope.values.values.as_slice())?;
        Ok(Indices {
            elements: Elements::new(alloc, subset, &scope.values)?,
            index: vec![in alloc; 0; subset.dims.len()]?,
        })
    }

    /// Goes to the next index; `false` where none is left.
    pub fn next(&mut self) -> bool
        ensures found { OnTrue result (self.old.left ≡ self.new.at ∷ self.new.left) }
        ensures over { OnFalse result (self.old.left ≡ []) }
    {
        self.elements.next(self.index.as_mut_slice())
    }

    /// The index at which it stands.
    pub fn at(&self) -> &[i128]
        ensures { result.now ≡ self.now.at }
    {
        self.index.as_slice()
    }
}
