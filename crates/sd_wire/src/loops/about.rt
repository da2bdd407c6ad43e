//! How many loops there are about a state.
ghost use Rattle.std.specs.Prelude.{◌≡◌, length, map, IfOk};
ghost use Rattle.std.specs.List.{list_any};
ghost use Rattle.sd_graph.specs.TreeFold.{exit_tree, state_trees};
ghost use Rattle.sd_graph.specs.LoopScope as scope;
ghost use Rattle.sd_wire.specs.loops.About as definition;
ghost use Rattle.sd_wire.specs.loops.Marks.{returns_to};

use crate::loops::force::is_on_loop;
use crate::loops::mark::{has_return, is_any_marked};
use sd_graph::State;
use sd_list::NoMemory;
use std::alloc::Global;

/// How many loops there are about a state, each told by its begin.
pub fn loops_about(alloc: Global, states: &[State], state: u32) -> Result<u64, NoMemory>
    ensures { IfOk result (λ count. count ≡ definition.loops_about (state_trees states.now) state) }
{
    if !is_any_marked(states) {
        return Ok(0);
    }
    let mut count = 0_u64;
    for begin in 0..states.len() {
        if is_in_loop(alloc, states, state as usize, begin)? {
            count += 1;
        }
    }
    Ok(count)
}

/// Whether a state is in a loop that begins at another.
fn is_in_loop(alloc: Global, states: &[State], state: usize, begin: usize) -> Result<bool, NoMemory>
    ensures { IfOk result (λ is. is ≡ definition.is_in_loop (state_trees states.now) state begin) }
{
    for (end, last) in states.iter().enumerate() {
        if !has_return(last.exits.as_slice(), begin) {
            continue;
        }
        if is_on_loop(alloc, states, begin, end, state)? {
            return Ok(true);
        }
    }
    Ok(false)
}
