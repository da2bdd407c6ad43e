ghost use Rattle.std.specs.Prelude.{◌≡◌, ◌↔◌, IfOk, IsTrue};
ghost use Rattle.sd_range.specs.Points.{ranges_of};

use crate::affine::Affine;
use sd_list::{NoMemory, Sequence};
use std::alloc::Global;

/// The values from `begin` on, `step` apart, up to the least of the ends.
///
/// A range has one to four ends, which are inclusive, and a step of at least 1.
#[derive(Drop)]
pub struct Range {
    pub begin: Affine,
    pub ends: Sequence<Affine>,
    pub step: i128,
}

impl Range {
    /// The same range once more.
    pub fn copy_of(&self, alloc: Global) -> Result<Range, NoMemory>
        ensures { IfOk result (λ copy. copy ≡ self.now) }
    {
        let mut ends = Vec::with_capacity(alloc, self.ends.len())?;
        for end in self.ends.as_slice() {
            ends.push(end.copy_of(alloc)?)?;
        }
        Ok(Range {
            begin: self.begin.copy_of(alloc)?,
            ends: Sequence::from(ends),
            step: self.step,
        })
    }

    /// Whether both have the same begin, the same ends in the same order and the same step.
    /// Takes no memory.
    pub fn same(&self, other: &Range) -> bool
        ensures { IsTrue result ↔ (self.now ≡ other.now) }
    {
        self.step == other.step
            && self.begin.same(&other.begin)
            && are_same(self.ends.as_slice(), other.ends.as_slice())
    }
}

/// Whether both lists have the same expressions in the same order.
fn are_same(a: &[Affine], b: &[Affine]) -> bool
    ensures { IsTrue result ↔ (a.now ≡ b.now) }
{
    if a.len() != b.len() {
        return false;
    }
    for (i, x) in a.iter().enumerate() {
        if !x.same(&b[i]) {
            return false;
        }
    }
    true
}

/// The same ranges once more.
pub(crate) fn copied(alloc: Global, ranges: &[Range]) -> Result<Vec<Range>, NoMemory>
    ensures { IfOk result (λ copy. copy.items ≡ ranges.now) }
{
    let mut copy = Vec::with_capacity(alloc, ranges.len())?;
    for range in ranges {
        copy.push(range.copy_of(alloc)?)?;
    }
    Ok(copy)
}

/// The same ranges once more, without the variables of the parameters.
pub(crate) fn ranges_copied(
    alloc: Global,
    parameters: &[(u32, Range)],
) -> Result<Vec<Range>, NoMemory>
    ensures { IfOk result (λ copy. copy.items ≡ ranges_of parameters.now) }
{
    let mut copy = Vec::with_capacity(alloc, parameters.len())?;
    for (_, range) in parameters {
        copy.push(range.copy_of(alloc)?)?;
    }
    Ok(copy)
}
