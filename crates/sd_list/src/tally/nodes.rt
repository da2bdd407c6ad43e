//! A tree of sums in one list: below the node `at` stand those of `2 at` and `2 at + 1`, and the leaves from `width` on.
ghost use Rattle.std.specs.Prelude.{◌≡◌, ◌<◌, ◌≤◌, ◌+◌, ◌-◌, ◌^◌, ◌++◌, length, drop, take, replicate, slice_set, IfOk, OnOk};
ghost use Rattle.std.specs.List.{sum};
ghost use Rattle.sd_list.specs.tally.Nodes.{node, IsSum, IsSummed, IsBelow, doubled};

use crate::list::NoMemory;
use std::alloc::Global;

/// A part by its number, and what is over of the number that was looked for, counted from the part's first unit.
#[derive(Clone, Copy, Debug, PartialEq, Eq)]
pub struct Found {
    pub number: usize,
    pub rest: u64,
}

/// As many leaves as the power of two that has room for so many counts, and how often it is doubled.
pub(crate) fn width_for(counts: usize) -> Result<(usize, usize), NoMemory>
    ensures room { IfOk result (λ both. counts ≤ both.0) }
    ensures wide { IfOk result (λ both. 0 < both.0) }
    ensures doubled { IfOk result (λ both. both.0 ≡ doubled both.1) }
{
    let mut width: usize = 1;
    let mut depth: usize = 0;
    while width < counts {
        width = width.checked_add(width).ok_or(NoMemory)?;
        depth += 1;
    }
    Ok((width, depth))
}

/// Nodes with these counts as the first leaves, and 0 everywhere else.
pub(crate) fn laid_out(alloc: Global, counts: &[u64], width: usize) -> Result<Vec<u64>, NoMemory>
    requires room { length counts.now ≤ width }
    ensures { IfOk result (λ nodes. nodes.items ≡ replicate width 0 ++ counts.now ++ replicate (width - length counts.now) 0) }
{
    let mut nodes: Vec<u64> = vec![in alloc; 0; width]?;
    let rest: Vec<u64> = vec![in alloc; 0; width - counts.len()]?;
    nodes.extend_from_slice(counts)?;
    nodes.extend_from_slice(&rest)?;
    Ok(nodes)
}

/// Puts into each node above the leaves the sum of the two below it.
pub(crate) fn sum_up(nodes: &mut [u64], width: usize) -> Result<(), NoMemory>
    requires sized { length nodes.old ≡ width + width }
    ensures sized { length nodes.new ≡ width + width }
    ensures summed { OnOk result (IsSummed width nodes.new) }
    ensures leaves { drop width nodes.new ≡ drop width nodes.old }
{
    let mut at = width;
    while at > 1 {
        at -= 1;
        nodes[at] = nodes[at + at]
            .checked_add(nodes[at + at + 1])
            .ok_or(NoMemory)?;
    }
    Ok(())
}

/// The sum of all leaves.
pub(crate) fn whole(nodes: &[u64]) -> u64
    requires there { 1 < length nodes.now }
    ensures { result ≡ node nodes.now 1 }
{
    nodes[1]
}

/// The sum of all leaves but this one.
pub(crate) fn others(nodes: &[u64], width: usize, number: usize) -> u64
    requires sized { length nodes.now ≡ width + width }
    requires summed { IsSummed width nodes.now }
    requires there { number < width }
    ensures { result + node nodes.now (width + number) ≡ node nodes.now 1 }
{
    nodes[1] - nodes[width + number]
}

/// Puts a count into a leaf, and the sums that change with it into the nodes above.
pub(crate) fn put(nodes: &mut [u64], width: usize, number: usize, count: u64)
    requires sized { length nodes.old ≡ width + width }
    requires summed { IsSummed width nodes.old }
    requires there { number < width }
    requires fits { node nodes.old 1 + count < 2 ^ 64 + node nodes.old (width + number) }
    ensures sized { length nodes.new ≡ width + width }
    ensures summed { IsSummed width nodes.new }
    ensures leaves { drop width nodes.new ≡ slice_set (drop width nodes.old) number count }
{
    nodes[width + number] = count;
    let mut at = (width + number) / 2;
    while at > 0 {
        nodes[at] = nodes[at + at] + nodes[at + at + 1];
        at /= 2;
    }
}

/// Of the two nodes below, the one in which the unit of this number is, and its number there.
fn step_down(nodes: &[u64], at: usize, unit: u64) -> (usize, u64)
    requires there { at + at + 1 < length nodes.now }
    requires sum { IsSum nodes.now at }
    requires inside { unit < node nodes.now at }
    ensures { IsBelow nodes.now at unit result }
{
    let left = nodes[at + at];
    if unit < left {
        (at + at, unit)
    } else {
        (at + at + 1, unit - left)
    }
}

/// The leaf in which the unit of this number is, counted from the first leaf on.
pub(crate) fn find_leaf(nodes: &[u64], width: usize, depth: usize, unit: u64) -> Found
    requires sized { length nodes.now ≡ width + width }
    requires doubled { width ≡ doubled depth }
    requires summed { IsSummed width nodes.now }
    requires inside { unit < node nodes.now 1 }
    ensures there { result.number < width }
    ensures before { sum (take result.number (drop width nodes.now)) + result.rest ≡ unit }
    ensures inside { result.rest < node nodes.now (width + result.number) }
{
    let mut at: usize = 1;
    let mut rest = unit;
    for _level in 0..depth {
        let below = step_down(nodes, at, rest);
        at = below.0;
        rest = below.1;
    }
    Found {
        number: at - width,
        rest,
    }
}
