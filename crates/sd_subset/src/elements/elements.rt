ghost use Rattle.std.specs.Prelude.{◌≡◌, [], ◌∷◌, length, map, IfOk};
ghost use Rattle.std.specs.Bool.{OnTrue, OnFalse};
ghost use Rattle.std.specs.List.{All};
ghost use Rattle.sd_range.specs.Range.{IsEvaluableRange};
ghost use Rattle.sd_range.specs.Subset.{IsDim};
ghost use Rattle.sd_subset.specs.elements.Way.{opening, way_through, IsEvaluableDim, range_of};

use sd_list::{NoMemory, Sequence};
use sd_range::{Dim, Env, Points, Range, Subset};
use std::alloc::Global;
use std::marker::Model;

/// A way through the elements of a subset, in row order, the last dimension fastest.
///
/// It stands before the first element at first, and `next` leads from element to element. No
/// call but `new` takes memory.
#[derive(Drop)]
pub struct Elements {
    points: Points,
}

impl Model for Elements {
    ghost use Rattle.sd_subset.specs.elements.Way.{Way};

    ghost Value = { Way };

    ghost use Rattle.sd_subset.specs.elements.Walk.{way_of, IsWay};

    ghost view = { way_of };

    ghost invariant = { IsWay };
}

/// The range of each dimension: that of an index goes from it to itself.
fn ranges_of_dims(alloc: Global, dims: &[Dim]) -> Result<Vec<Range>, NoMemory>
    ensures { IfOk result (λ copy. copy.items ≡ map range_of dims.now) }
{
    let mut ranges = Vec::with_capacity(alloc, dims.len())?;
    for dim in dims {
        ranges.push(range_of_dim(alloc, dim)?)?;
    }
    Ok(ranges)
}

/// The range of a dimension.
pub(crate) fn range_of_dim(alloc: Global, dim: &Dim) -> Result<Range, NoMemory>
    ensures { IfOk result (λ copy. copy ≡ range_of dim.now) }
{
    match dim {
        Dim::Index(at) => {
            let mut ends = Vec::with_capacity(alloc, 1)?;
            ends.push(at.copy_of(alloc)?)?;
            Ok(Range {
                begin: at.copy_of(alloc)?,
                ends: Sequence::from(ends),
                step: 1,
            })
        }
        Dim::Span(range) => range.copy_of(alloc),
    }
}

impl Elements {
    /// Stands before the first element of the subset, where the variables have these values.
    pub fn new(alloc: Global, subset: &Subset, env: &Env) -> Result<Elements, NoMemory>
        requires dims { All IsDim subset.now.dims }
        requires evaluable { All (IsEvaluableDim env.now.values) subset.now.dims }
        ensures { IfOk result (λ way. way ≡ opening subset.now env.now.values) }
    {
        let ranges = ranges_of_dims(alloc, subset.dims.as_slice())?;
        let points = Points::new(alloc, ranges.as_slice(), env)?;
        Ok(Elements { points })
    }

    /// Goes to the next element and puts its index into `index`, which has a number for each
    /// dimension; `false` where none is left, and then `index` stays.
    pub fn next(&mut self, index: &mut [i128]) -> bool
        requires { length index.old ≡ length self.old.ranges }
        ensures found { OnTrue result (self.old.left ≡ index.new ∷ self.new.left) }
        ensures over { OnFalse result (self.old.left ≡ []) }
        ensures stays { OnFalse result ((self.new ≡ self.old) × (index.new ≡ index.old)) }
        ensures ranges { self.new.ranges ≡ self.old.ranges }
    {
        if !self.points.next() {
            return false;
        }
        index.copy_from_slice(self.points.at());
        true
    }

    /// Stands before the first element again, now where the variables have these values.
    pub fn restart(&mut self, env: &Env)
        requires { All (IsEvaluableRange env.now.values) self.old.ranges }
        ensures { self.new ≡ way_through self.old.ranges env.now.values }
    {
        self.points.restart(env);
    }
}
