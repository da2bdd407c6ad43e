ghost use Rattle.std.specs.Prelude.{IfOk, IsTrue};
ghost use Rattle.std.specs.Option.{MatchOption};
ghost use Rattle.std.specs.Bool.{⊤};
ghost use Rattle.sd_graph.specs.TreeFold.{tasklet_tree};
ghost use Rattle.sd_rows.specs.rows.Code.{IsInstance, AreColumnsOf, IsFit};
ghost use Rattle.sd_rows.specs.rows.Map.{tree_of};

use crate::rows::map::TaskMap;
use sd_compile::{compile, is_named};
use sd_graph::{Link, Tasklet};
use sd_list::NoMemory;
use sd_row::{MOST_RUNS, are_for_each, are_scalar_links, are_scalar_ports, ones};
use sd_tcode::{Code, Columns, Frame};
use std::alloc::Global;

/// A tasklet as flat code, with room for its runs.
#[derive(Drop)]
pub(crate) struct Instance {
    pub code: Code,
    pub frame: Frame,
    pub columns: Columns,
}

impl Instance {
    /// That for rows of so many points of a tasklet whose connectors are scalars and whose outputs are each set once, outside of
    /// branches; `None` of another one.
    pub(crate) fn of(
        alloc: Global,
        task: &TaskMap<'_>,
        points: u32,
    ) -> Result<Option<Instance>, NoMemory>
        ensures columns { IfOk result (λ instance. MatchOption instance ⊤ (λ instance. AreColumnsOf instance.code instance.columns)) }
        ensures instance { IfOk result (λ instance. MatchOption instance ⊤ (λ instance. IsInstance (tree_of task.now) task.now.ins.now task.now.outs.now instance.code instance.frame)) }
    {
        if !is_for(task.tasklet, task.ins, task.outs) {
            return Ok(None);
        }
        let code = compile(alloc, task.tasklet)?;
        if code.plain().is_none() {
            return Ok(None);
        }
        let widest = ones(alloc, code.input_count())?;
        let frame = Frame::reserve(alloc, &code, widest.as_slice())?;
        let columns = Columns::reserve(alloc, code.register_count(), points.min(MOST_RUNS))?;
        Ok(Some(Instance {
            code,
            frame,
            columns,
        }))
    }
}

/// Whether the tasklet names what it has, and has a scalar link for each of its connectors, which are scalars.
fn is_for(tasklet: &Tasklet, ins: &[Link], outs: &[Link]) -> bool
    ensures { IsTrue result → IsFit (tasklet_tree tasklet.now) ins.now outs.now }
{
    if !is_named(tasklet) || !are_for_each(tasklet, ins, outs) {
        return false;
    }
    if !are_scalar_ports(tasklet.ins.as_slice()) || !are_scalar_ports(tasklet.outs.as_slice()) {
        return false;
    }
    are_scalar_links(ins) && are_scalar_links(outs)
}
