ghost use Rattle.std.specs.Prelude.{◌≡◌, ◌<◌, ◌≤◌, ◌-◌, Some, IsTrue};
ghost use Rattle.sd_tcode.specs.columns.Columns.{register_count, AreWide, AreKept};
ghost use Rattle.sd_tcode.specs.tcode.Held.{IsReady, given};
ghost use Rattle.sd_mem.specs.machine.ComesTo.{IsEnd};
ghost use Rattle.sd_row.specs.row.Row.{order_of};
ghost use Rattle.sd_row.specs.row.Point.{HasScalars, IsOver, below};
ghost use Rattle.sd_row.specs.row.Block.{AreApart};
ghost use Rattle.sd_row.specs.row.Setting.{Setting, IsSetting, row_coming, end_of_row};

use crate::row::block::{are_apart, run_block};
use crate::row::point::run_point;
use crate::row::products::run_products;
use crate::row::row::Row;
use sd_graph::FaultKind;
use sd_mem::Machine;
use sd_tcode::{Code, Columns, Frame};

/// So many points at most are run at once.
pub const MOST_RUNS: u32 = 256;

/// How the run of a row ends.
#[derive(Clone, Copy)]
pub enum RowEnd {
    Finished,
    /// At the point of this number.
    Fault(u32, FaultKind),
    /// A turn was wanted, and none was left.
    OutOfTurns,
}

/// Runs the code at the points of a row from one on and below another one, one by one, inside a memory that holds nothing.
fn run_each(
    row: &Row,
    code: &Code,
    frame: &mut Frame,
    from: u32,
    until: u32,
    machine: &mut Machine,
) -> RowEnd
    requires order { from ≤ until }
    requires ready { IsReady code.now frame.old }
    requires scalars { HasScalars row.now code.now.layout.connectors (given frame.old) }
    requires plain { code.now.plain ≡ Some (order_of row.now) }
    ensures end { (setting : Setting) → IsSetting row.now code.now until setting → IsOver setting.own machine.old
        → IsEnd (row_coming setting from (until - from) (below machine.old)) (below machine.old) (end_of_row setting result) (below machine.new) }
    ensures own { (setting : Setting) → IsSetting row.now code.now until setting → IsOver setting.own machine.old → IsOver setting.own machine.new }
    ensures ready { IsReady code.now frame.new }
    ensures scalars { HasScalars row.now code.now.layout.connectors (given frame.new) }
{
    for k in from..until {
        if !machine.pay(true) {
            return RowEnd::OutOfTurns;
        }
        if let Some(kind) = run_point(row, code, frame, k, machine) {
            return RowEnd::Fault(k, kind);
        }
    }
    RowEnd::Finished
}

/// Runs the code at the points of a row from one on and below another one: at once where no write goes to a container that is
/// read, or else one by one.
fn run_some(
    row: &Row,
    code: &Code,
    frame: &mut Frame,
    columns: &mut Columns,
    apart: bool,
    from: u32,
    until: u32,
    machine: &mut Machine,
) -> RowEnd
    requires order { from ≤ until }
    requires apart { IsTrue apart → AreApart row.now }
    requires ready { IsReady code.now frame.old }
    requires scalars { HasScalars row.now code.now.layout.connectors (given frame.old) }
    requires plain { code.now.plain ≡ Some (order_of row.now) }
    requires registers { register_count columns.old ≡ code.now.registers }
    requires wide { AreWide columns.old }
    ensures end { (setting : Setting) → IsSetting row.now code.now until setting → IsOver setting.own machine.old
        → IsEnd (row_coming setting from (until - from) (below machine.old)) (below machine.old) (end_of_row setting result) (below machine.new) }
    ensures own { (setting : Setting) → IsSetting row.now code.now until setting → IsOver setting.own machine.old → IsOver setting.own machine.new }
    ensures ready { IsReady code.now frame.new }
    ensures scalars { HasScalars row.now code.now.layout.connectors (given frame.new) }
    ensures columns { AreKept columns.old columns.new }
{
    if !apart {
        return run_each(row, code, frame, from, until, machine);
    }
    if run_products(row, code, from, until, machine) {
        return RowEnd::Finished;
    }
    if run_block(row, code, columns, from, until, machine) {
        return RowEnd::Finished;
    }
    run_each(row, code, frame, from, until, machine)
}

/// Where the points end that are run together with one, among so many.
fn block_end(from: u32, count: u32) -> u32
    requires { from < count }
    ensures more { from < result }
    ensures within { result ≤ count }
{
    count.min(from.saturating_add(MOST_RUNS))
}

/// Runs the code at each point of a row, inside a memory that holds nothing. Takes no memory.
pub fn run_row(
    row: &Row,
    code: &Code,
    frame: &mut Frame,
    columns: &mut Columns,
    count: u32,
    machine: &mut Machine,
) -> RowEnd
    requires ready { IsReady code.now frame.old }
    requires scalars { HasScalars row.now code.now.layout.connectors (given frame.old) }
    requires plain { code.now.plain ≡ Some (order_of row.now) }
    requires registers { register_count columns.old ≡ code.now.registers }
    requires wide { AreWide columns.old }
    ensures end { (setting : Setting) → IsSetting row.now code.now count setting → IsOver setting.own machine.old
        → IsEnd (row_coming setting 0 count (below machine.old)) (below machine.old) (end_of_row setting result) (below machine.new) }
    ensures own { (setting : Setting) → IsSetting row.now code.now count setting → IsOver setting.own machine.old → IsOver setting.own machine.new }
    ensures ready { IsReady code.now frame.new }
    ensures scalars { HasScalars row.now code.now.layout.connectors (given frame.new) }
    ensures columns { AreKept columns.old columns.new }
{
    let apart = are_apart(&row.reads, &row.writes);
    let mut from = 0;
    while from < count {
        let until = block_end(from, count);
        match run_some(row, code, frame, columns, apart, from, until, machine) {
            RowEnd::Finished => {}
            other => return other,
        }
        from = until;
    }
    RowEnd::Finished
}
