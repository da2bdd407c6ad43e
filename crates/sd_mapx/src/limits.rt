//! The last condition of each rewrite: its result meets the rules of transitions and of limits.
ghost use Rattle.std.specs.Prelude.{◌≡◌, IfOk};
ghost use Rattle.sd_graph.specs.TreeFold.{graph_tree};
ghost use Rattle.sd_mapx.specs.Conditions as conditions;

use sd_graph::Sdfg;
use sd_list::NoMemory;
use sd_places::{all_places, first_failing};
use sd_rules::Transitions;
use sd_validate::first_over_limits;
use std::alloc::Global;

/// Whether the graph meets the rules of transitions and of limits.
pub(crate) fn meets_limits(alloc: Global, graph: &Sdfg) -> Result<bool, NoMemory>
    ensures { IfOk result (λ meets. meets ≡ conditions.meets_limits (graph_tree graph.now)) }
{
    let places = all_places(alloc, graph)?;
    if first_failing(alloc, &Transitions, places.as_slice())?.is_some() {
        return Ok(false);
    }
    Ok(first_over_limits(alloc, places.as_slice())?.is_none())
}
