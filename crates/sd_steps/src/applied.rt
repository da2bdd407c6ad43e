//! Steps done one after another.
ghost use Rattle.std.specs.Prelude.{◌≡◌, Ok, None, IfOk, IfErr};
ghost use Rattle.sd_graph.specs.TreeFold.{graph_tree};
ghost use Rattle.sd_mapx.specs.Conditions.{Tells};
ghost use Rattle.sd_steps.specs.Chained as definition;

use sd_chain::{Chain, ChainError, Step};
use sd_graph::Bound;
use sd_mapx::{Refused, collapse, expand, interchange, tile};
use std::alloc::Global;

/// The graph with a step done. Refuses with the lowest condition that fails.
pub(crate) fn rewritten(alloc: Global, bound: &Bound, step: &Step) -> Result<Bound, Refused>
    ensures done { IfOk result (λ new. graph_tree new.graph ≡ definition.rewritten (graph_tree bound.now.graph) step.now) }
    ensures holds { IfOk result (λ _. definition.failing (graph_tree bound.now.graph) step.now ≡ None) }
    ensures refused { IfErr result (Tells (definition.failing (graph_tree bound.now.graph) step.now)) }
{
    match step {
        Step::MapCollapse { at } => collapse(alloc, bound, at),
        Step::MapExpansion { at } => expand(alloc, bound, at),
        Step::MapInterchange { at } => interchange(alloc, bound, at),
        Step::MapTiling { at, sizes } => tile(alloc, bound, at, sizes.as_slice()),
    }
}

/// What is told of the step of a line that is refused.
fn told(line: u32, refused: Refused) -> ChainError
    ensures { result ≡ definition.told line refused }
{
    match refused {
        Refused::Condition(condition) => ChainError::Condition(line, condition),
        Refused::Memory => ChainError::Memory,
    }
}

/// The graph with the steps of a chain done one after another, each on the graph as it then is. Refuses at the first
/// step of which a condition fails, with its line and the lowest such condition.
pub fn apply(alloc: Global, bound: &Bound, chain: &Chain) -> Result<Bound, ChainError>
    ensures ok { IfOk result (λ new. definition.chained (graph_tree bound.now.graph) chain.now.steps ≡ Ok (graph_tree new.graph)) }
    ensures err { IfErr result (definition.IsRefusal (definition.chained (graph_tree bound.now.graph) chain.now.steps)) }
{
    let mut new = bound.copy_of(alloc)?;
    for (line, step) in chain.steps.as_slice() {
        new = rewritten(alloc, &new, step).map_err(|refused| told(*line, refused))?;
    }
    Ok(new)
}
