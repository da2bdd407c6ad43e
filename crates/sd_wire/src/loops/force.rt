ghost use Rattle.std.specs.Prelude.{◌≡◌, IfOk};
ghost use Rattle.sd_graph.specs.LoopScope as definition;
ghost use Rattle.sd_graph.specs.TreeFold.{state_trees};

use crate::loops::path::leads_to;
use crate::loops::span::{loop_spans, variables_in};
use sd_graph::State;
use sd_list::NoMemory;
use std::alloc::Global;

/// The loop variables in force in a state, by their numbers, the outermost first. There are as
/// many variables as told.
pub fn loops_in_force(
    alloc: Global,
    states: &[State],
    variables: u32,
    state: u32,
) -> Result<Vec<u32>, NoMemory>
    ensures { IfOk result (λ found. found.items ≡ definition.loops_in_force (state_trees states.now) variables state) }
{
    let spans = loop_spans(alloc, states, variables)?;
    variables_in(alloc, spans.as_slice(), state)
}

/// Whether a state stands on a path from one to another that comes to the first at its begin only.
pub(crate) fn is_on_loop(
    alloc: Global,
    states: &[State],
    begin: usize,
    end: usize,
    state: usize,
) -> Result<bool, NoMemory>
    ensures { IfOk result (λ is. is ≡ definition.is_on_loop (state_trees states.now) begin end state) }
{
    if !leads_to(alloc, states, begin, begin, state)? {
        return Ok(false);
    }
    leads_to(alloc, states, begin, state, end)
}
