//! Many points of a row at once.
ghost use Rattle.std.specs.Prelude.{◌≡◌, ℕ, ◌+◌, ◌-◌, ◌<◌, ◌≤◌, ◌^◌, List, [], ◌++◌, length, map, take, replicate, slice_set, Some, IsTrue, IsFalse};
ghost use Rattle.std.specs.List.{AllByRecursion};
ghost use Rattle.sd_tcode.specs.op.Machine.{Held};
ghost use Rattle.sd_tcode.specs.tcode.Compiled.{IsSafe};
ghost use Rattle.sd_mem.specs.machine.ComesTo.{IsEnd};
ghost use Rattle.sd_mem.specs.declared.machine.end.End.TheVariants as ends;
ghost use Rattle.sd_tcode.specs.columns.Columns.{value_on, registers_of, register_count, run_count, AreWide, AreKept};
ghost use Rattle.sd_row.specs.row.Row.{order_of};
ghost use Rattle.sd_row.specs.row.Point.{seen_on, IsOver, below};
ghost use Rattle.sd_row.specs.row.Setting.{Setting, IsSetting, row_coming};
ghost use Rattle.sd_row.specs.row.Block.{IsApart, AreApart};

use crate::row::row::{Row, Write};
use crate::row::track::Track;
use crate::row::writing::write_runs;
use sd_mem::{Elements, Machine};
use sd_tcode::{Code, Columns, Spaced};

/// Whether no write goes to a container that is read.
pub(crate) fn are_apart(reads: &[Track], writes: &[Write]) -> bool
    ensures { IsTrue result → AllByRecursion (IsApart writes.now) reads.now }
{
    for read in reads {
        if !is_apart(read, writes) {
            return false;
        }
    }
    true
}

/// Whether no write goes to the container of a read.
fn is_apart(read: &Track, writes: &[Write]) -> bool
    ensures { IsTrue result → IsApart writes.now read.now }
{
    for write in writes {
        if read.station == write.to.station {
            return false;
        }
    }
    true
}

/// Gives a register what is read at so many points, from one on.
fn gather_read(
    columns: &mut Columns,
    register: usize,
    read: &Track,
    from: u32,
    count: u32,
    machine: &Machine,
)
    requires wide { AreWide columns.old }
    requires register { register < register_count columns.old }
    requires runs { count ≤ run_count columns.old }
    requires few { from + count < 2 ^ 32 }
    ensures kept { AreKept columns.old columns.new }
    ensures set { (run : ℕ) → run < count → registers_of columns.new run ≡ slice_set (registers_of columns.old run) register (seen_on (from + run) machine.now.memories read.now) }
{
    match machine.cells(read.station) {
        Elements::W32(cells) => columns.gather(register, cells, &read.elements, from, count),
        Elements::W64(cells) => columns.gather(register, cells, &read.elements, from, count),
    }
}

/// Gives the first registers what is read at so many points, from one on.
fn gather_reads(columns: &mut Columns, reads: &[Track], from: u32, count: u32, machine: &Machine)
    requires wide { AreWide columns.old }
    requires registers { length reads.now ≤ register_count columns.old }
    requires runs { count ≤ run_count columns.old }
    requires few { from + count < 2 ^ 32 }
    ensures kept { AreKept columns.old columns.new }
    ensures read { (run : ℕ) → run < count → take (length reads.now) (registers_of columns.new run) ≡ map (seen_on (from + run) machine.now.memories) reads.now }
{
    for number in 0..reads.len() {
        gather_read(columns, number, &reads[number], from, count, machine);
    }
}

/// Gives the registers from one on the values of variables at so many points, from one on.
fn spread_variables(
    columns: &mut Columns,
    first: usize,
    variables: &[Spaced],
    from: u32,
    count: u32,
)
    requires wide { AreWide columns.old }
    requires registers { first + length variables.now ≤ register_count columns.old }
    requires runs { count ≤ run_count columns.old }
    requires few { from + count < 2 ^ 32 }
    ensures kept { AreKept columns.old columns.new }
    ensures set { (run : ℕ) → run < count → take (first + length variables.now) (registers_of columns.new run) ≡ take first (registers_of columns.old run) ++ map (λ numbers. value_on numbers (from + run)) variables.now }
{
    for number in 0..variables.len() {
        columns.spread(first + number, &variables[number], from, count);
    }
}

/// Whether the code has a register for each read and each variable of a row.
pub(crate) fn is_for(code: &Code, row: &Row) -> bool
    ensures inputs { IsTrue result → code.now.layout.inputs ≡ length row.now.reads.items }
    ensures variables { IsTrue result → code.now.layout.variables ≡ length row.now.variables.items }
    ensures safe { IsSafe code.now }
{
    code.input_count() == row.reads.len() && code.layout().variables as usize == row.variables.len()
}

/// Runs the code at the points from one on and below another one, where what they read is written by none of them;
/// `false` where that is not done, and then nothing has changed.
pub(crate) fn run_block(
    row: &Row,
    code: &Code,
    columns: &mut Columns,
    from: u32,
    until: u32,
    machine: &mut Machine,
) -> bool
    requires order { from ≤ until }
    requires apart { AreApart row.now }
    requires plain { code.now.plain ≡ Some (order_of row.now) }
    requires registers { register_count columns.old ≡ code.now.registers }
    requires wide { AreWide columns.old }
    ensures kept { AreKept columns.old columns.new }
    ensures not_done { IsFalse result → machine.new ≡ machine.old }
    ensures done { IsTrue result → (setting : Setting) (arrays : List Held) → IsSetting row.now code.now until setting → IsOver setting.own machine.old
        → map (λ array. length array.extents) arrays ≡ code.now.dims → map (λ array. array.extents) arrays ≡ replicate code.now.layout.connectors []
        → IsEnd (row_coming setting from (until - from) (below machine.old)) (below machine.old) ends.Finished (below machine.new) }
    ensures own { IsTrue result → (setting : Setting) → IsSetting row.now code.now until setting → IsOver setting.own machine.old → IsOver setting.own machine.new }
{
    let count = until - from;
    if !is_for(code, row) {
        return false;
    }
    if columns.run_count() < count as usize {
        return false;
    }
    gather_reads(columns, &row.reads, from, count, machine);
    spread_variables(columns, row.reads.len(), &row.variables, from, count);
    if !columns.run(code, count) {
        return false;
    }
    if !machine.pay_for(count) {
        return false;
    }
    write_runs(
        columns,
        row.variables.len(),
        &row.writes,
        from,
        count,
        machine,
    );
    true
}
