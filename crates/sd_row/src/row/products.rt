//! Many points of a row at which two reads are multiplied and the product is added to one element, the same for each.
ghost use Rattle.std.specs.Prelude.{◌≡◌, ℕ, ◌+◌, ◌-◌, ◌<◌, ◌≤◌, ◌^◌, pos, ◌*ℤ◌, List, [], ◌∷◌, length, map, replicate, Some, IsTrue, IsFalse};
ghost use Rattle.std.specs.Option.{MatchOption};
ghost use Rattle.std.specs.Bool.{⊤};
ghost use Rattle.sd_num.specs.Wrapped.{wrapped};
ghost use Rattle.sd_num.specs.declared.resolution.Resolution.TheVariants as resolutions;
ghost use Rattle.sd_tcode.specs.op.Machine.{Held};
ghost use Rattle.sd_tcode.specs.declared.op.op.Op.TheVariants as ops;
ghost use Rattle.sd_mem.specs.machine.ComesTo.{IsEnd};
ghost use Rattle.sd_mem.specs.declared.machine.end.End.TheVariants as ends;
ghost use Rattle.sd_tcode.specs.columns.Products.{added, element_on};
ghost use Rattle.sd_row.specs.row.Row.{order_of};
ghost use Rattle.sd_row.specs.row.Point.{seen_on, IsOver, below};
ghost use Rattle.sd_row.specs.row.Setting.{Setting, IsSetting, row_coming};
ghost use Rattle.sd_row.specs.row.Block.{AreApart};

use crate::row::block::is_for;
use crate::row::row::{Row, Write};
use crate::row::track::Track;
use crate::row::writing::still;
use sd_mem::{Elements, Machine};
use sd_num::{Cell, Resolution};
use sd_tcode::{Code, Op, Spaced, add_products};

/// The registers of an instruction that multiplies.
#[derive(Clone, Copy)]
struct Factors {
    to: u32,
    left: u32,
    right: u32,
}

/// Those of the only instruction of code, where it multiplies.
fn factors_of(code: &Code) -> Option<Factors>
    ensures { MatchOption result ⊤ (λ factors. code.now.ops ≡ ops.Mul factors.to factors.left factors.right ∷ []) }
{
    let ops = code.ops();
    if ops.len() != 1 {
        return None;
    }
    match ops[0] {
        Op::Mul { to, left, right } => Some(Factors { to, left, right }),
        _ => None,
    }
}

/// The only write, where it adds to the same element at each point.
fn sum_of(writes: &[Write]) -> Option<&Write>
    ensures all { MatchOption result ⊤ (λ write. writes.now ≡ write.now ∷ []) }
    ensures step { MatchOption result ⊤ (λ write. write.now.to.elements.step ≡ pos 0) }
    ensures by { MatchOption result ⊤ (λ write. write.now.by ≡ Some resolutions.Sum) }
{
    let write = still(writes)?;
    match write.by {
        Some(Resolution::Sum) => Some(write),
        _ => None,
    }
}

/// A number, and the products of elements and of a read at so many points added to it, from one on; `None` where one of them is not
/// there.
fn add_elements<L: Cell>(
    number: i64,
    left: &[L],
    lefts: &Spaced,
    right: &Track,
    from: u32,
    count: u32,
    machine: &Machine,
) -> Option<i64>
    requires few { from + count < 2 ^ 32 }
    ensures { MatchOption result ⊤ (λ sum. sum ≡ added (λ run. wrapped (element_on (map L.element left.now) lefts.now (from + run) *ℤ seen_on (from + run) machine.now.memories right.now)) number count) }
{
    match machine.cells(right.station) {
        Elements::W32(cells) => add_products(
            number,
            left,
            lefts,
            cells,
            &right.elements,
            from,
            count,
        ),
        Elements::W64(cells) => add_products(
            number,
            left,
            lefts,
            cells,
            &right.elements,
            from,
            count,
        ),
    }
}

/// A number, and the products of two reads at so many points added to it, from one on; `None` where one of the elements is not there.
fn add_reads(
    number: i64,
    left: &Track,
    right: &Track,
    from: u32,
    count: u32,
    machine: &Machine,
) -> Option<i64>
    requires few { from + count < 2 ^ 32 }
    ensures { MatchOption result ⊤ (λ sum. sum ≡ added (λ run. wrapped (seen_on (from + run) machine.now.memories left.now *ℤ seen_on (from + run) machine.now.memories right.now)) number count) }
{
    let lefts = &left.elements;
    match machine.cells(left.station) {
        Elements::W32(cells) => add_elements(number, cells, lefts, right, from, count, machine),
        Elements::W64(cells) => add_elements(number, cells, lefts, right, from, count, machine),
    }
}

/// Runs the code at the points from one on and below another one, where it multiplies two reads and adds the product to one element
/// of 64 bits that is none of those; `false` where that is not done, and then nothing has changed.
pub(crate) fn run_products(
    row: &Row,
    code: &Code,
    from: u32,
    until: u32,
    machine: &mut Machine,
) -> bool
    requires order { from ≤ until }
    requires apart { AreApart row.now }
    requires plain { code.now.plain ≡ Some (order_of row.now) }
    ensures not_done { IsFalse result → machine.new ≡ machine.old }
    ensures done { IsTrue result → (setting : Setting) (arrays : List Held) → IsSetting row.now code.now until setting → IsOver setting.own machine.old
        → map (λ array. length array.extents) arrays ≡ code.now.dims → map (λ array. array.extents) arrays ≡ replicate code.now.layout.connectors []
        → IsEnd (row_coming setting from (until - from) (below machine.old)) (below machine.old) ends.Finished (below machine.new) }
    ensures own { IsTrue result → (setting : Setting) → IsSetting row.now code.now until setting → IsOver setting.own machine.old → IsOver setting.own machine.new }
{
    let count = until - from;
    let Some(factors) = factors_of(code) else {
        return false;
    };
    let Some(write) = sum_of(&row.writes) else {
        return false;
    };
    let (left, right) = (factors.left as usize, factors.right as usize);
    if !is_for(code, row) || left >= row.reads.len() || right >= row.reads.len() {
        return false;
    }
    if row.variables.len() + write.connector as usize != factors.to as usize {
        return false;
    }
    if !write.to.is_wide(machine) {
        return false;
    }
    let cell = write.to.cell(from);
    let held = machine.look(cell);
    let Some(sum) = add_reads(
        held,
        &row.reads[left],
        &row.reads[right],
        from,
        count,
        machine,
    ) else {
        return false;
    };
    if !machine.pay_for(count) {
        return false;
    }
    machine.write(cell, None, sum);
    true
}
