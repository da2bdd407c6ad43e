//! The writes of many points, from columns.
ghost use Rattle.std.specs.Prelude.{◌≡◌, ◌+◌, ◌<◌, ◌≤◌, ◌^◌, pos, List, [], ◌∷◌, map};
ghost use Rattle.std.specs.Option.{MatchOption};
ghost use Rattle.std.specs.Bool.{⊤};
ghost use Rattle.sd_num.specs.declared.width.Width.TheVariants.{W64};
ghost use Rattle.sd_work.specs.Change.{became};
ghost use Rattle.std.specs.List.{AllByRecursion};
ghost use Rattle.sd_tcode.specs.columns.Columns.{AreWide, register_count, run_count};
ghost use Rattle.sd_row.specs.row.Point.{width_on};
ghost use Rattle.sd_row.specs.row.Block.{after_points, after_writes, column_value};

use crate::row::row::Write;
use sd_mem::Machine;
use sd_num::{Resolution, resolve};
use sd_tcode::Columns;

/// Writes the outputs of a run to the elements of a point.
#[inline(always)]
fn write_run(
    columns: &Columns,
    first: usize,
    writes: &[Write],
    run: u32,
    k: u32,
    machine: &mut Machine,
)
    requires wide { AreWide columns.now }
    requires run { run < run_count columns.now }
    requires outputs { AllByRecursion (λ connector. first + connector < register_count columns.now) (map (λ write. write.connector) writes.now) }
    ensures memories { machine.new.memories ≡ after_writes (column_value first columns.now run) k writes.now machine.old.memories }
    ensures turns { machine.new.turns ≡ machine.old.turns }
{
    for write in writes {
        let value = columns.value(first + write.connector as usize, run as usize);
        machine.write(write.to.cell(k), write.by, value);
    }
}

/// Writes the outputs of runs to the elements of so many points, from one on, point by point.
fn write_each(
    columns: &Columns,
    first: usize,
    writes: &[Write],
    from: u32,
    count: u32,
    machine: &mut Machine,
)
    requires wide { AreWide columns.now }
    requires runs { count ≤ run_count columns.now }
    requires few { from + count < 2 ^ 32 }
    requires outputs { AllByRecursion (λ connector. first + connector < register_count columns.now) (map (λ write. write.connector) writes.now) }
    ensures memories { machine.new.memories ≡ after_points (column_value first columns.now) writes.now from count machine.old.memories }
    ensures turns { machine.new.turns ≡ machine.old.turns }
{
    for run in 0..count {
        write_run(columns, first, writes, run, from + run, machine);
    }
}

/// What stands in an element of 64 bits after a value is written there.
#[inline(always)]
fn written(by: Option<Resolution>, old: i64, value: i64) -> i64
    ensures { result ≡ became by old value }
{
    match by {
        None => value,
        Some(resolution) => resolve(resolution, old, value),
    }
}

/// Writes an output of runs to one element of 64 bits, the same for each point.
fn write_one(
    columns: &Columns,
    first: usize,
    write: &Write,
    from: u32,
    count: u32,
    machine: &mut Machine,
)
    requires wide { AreWide columns.now }
    requires runs { count ≤ run_count columns.now }
    requires output { first + write.now.connector < register_count columns.now }
    requires still { write.now.to.elements.step ≡ pos 0 }
    requires bits { width_on machine.old.memories write.now.to ≡ W64 }
    ensures memories { machine.new.memories ≡ after_points (column_value first columns.now) (write.now ∷ []) from count machine.old.memories }
    ensures turns { machine.new.turns ≡ machine.old.turns }
{
    let cell = write.to.cell(from);
    let output = first + write.connector as usize;
    let mut held = machine.look(cell);
    for run in 0..count {
        let value = columns.value(output, run as usize);
        held = written(write.by, held, value);
    }
    machine.write(cell, None, held);
}

/// The only write, where it goes to the same element at each point.
pub(crate) fn still(writes: &[Write]) -> Option<&Write>
    ensures all { MatchOption result ⊤ (λ write. writes.now ≡ write.now ∷ []) }
    ensures step { MatchOption result ⊤ (λ write. write.now.to.elements.step ≡ pos 0) }
{
    if writes.len() != 1 || writes[0].to.elements.step != 0 {
        return None;
    }
    Some(&writes[0])
}

/// Writes the outputs of runs to the elements of so many points, from one on.
pub(crate) fn write_runs(
    columns: &Columns,
    first: usize,
    writes: &[Write],
    from: u32,
    count: u32,
    machine: &mut Machine,
)
    requires wide { AreWide columns.now }
    requires runs { count ≤ run_count columns.now }
    requires few { from + count < 2 ^ 32 }
    requires outputs { AllByRecursion (λ connector. first + connector < register_count columns.now) (map (λ write. write.connector) writes.now) }
    ensures memories { machine.new.memories ≡ after_points (column_value first columns.now) writes.now from count machine.old.memories }
    ensures turns { machine.new.turns ≡ machine.old.turns }
{
    match still(writes) {
        Some(write) if write.to.is_wide(machine) => {
            write_one(columns, first, write, from, count, machine);
        }
        _ => write_each(columns, first, writes, from, count, machine),
    }
}
