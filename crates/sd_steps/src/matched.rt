//! The steps that may be done on a graph.
ghost use Rattle.std.specs.Prelude.{◌≡◌, ◌++◌, ◌∷◌, [], IfOk, OnOk};
ghost use Rattle.std.specs.List.{filter};
ghost use Rattle.sd_graph.specs.TreeFold.{graph_tree};
ghost use Rattle.sd_steps.specs.Matched as definition;

use crate::applied::rewritten;
use sd_chain::Step;
use sd_graph::{Bound, Path};
use sd_list::{NoMemory, Sequence};
use sd_mapx::Refused;
use sd_prop::{Over, Scope, scopes};
use std::alloc::Global;

/// The rewrites of a scope.
#[derive(Clone, Copy)]
enum Rewrite {
    Collapse,
    Expansion,
    Interchange,
    Tiling,
}

/// Those in the order in which they are tried.
const REWRITES: [Rewrite; 4] = [
    Rewrite::Collapse,
    Rewrite::Expansion,
    Rewrite::Interchange,
    Rewrite::Tiling,
];

/// The size with which tiles are tried.
const TRIED_SIZE: u64 = 2;

/// Whether no condition of a step fails.
fn may_be_done(alloc: Global, bound: &Bound, step: &Step) -> Result<bool, NoMemory>
    ensures { IfOk result (λ may. may ≡ definition.may_be_done (graph_tree bound.now.graph) step.now) }
{
    match rewritten(alloc, bound, step) {
        Ok(_) => Ok(true),
        Err(Refused::Condition(_)) => Ok(false),
        Err(Refused::Memory) => Err(NoMemory),
    }
}

/// The sizes with which tiles of a scope are tried: the same one for each of its parameters.
fn tried_sizes(alloc: Global, scope: &Scope<'_>) -> Result<Sequence<u64>, NoMemory>
    ensures { IfOk result (λ sizes. sizes ≡ definition.tried_sizes scope.now) }
{
    let mut sizes = Sequence::new(alloc);
    if let Over::Points { params, .. } = scope.over() {
        for _ in params {
            sizes.push(TRIED_SIZE)?;
        }
    }
    Ok(sizes)
}

/// A rewrite at a scope.
fn step_at(alloc: Global, rewrite: Rewrite, scope: &Scope<'_>) -> Result<Step, NoMemory>
    ensures { IfOk result (λ step. step ≡ definition.step_at rewrite scope.now) }
{
    let steps = Sequence::from(scope.path().to_vec(alloc)?);
    let at = Path { steps };
    Ok(match rewrite {
        Rewrite::Collapse => Step::MapCollapse { at },
        Rewrite::Expansion => Step::MapExpansion { at },
        Rewrite::Interchange => Step::MapInterchange { at },
        Rewrite::Tiling => {
            let sizes = tried_sizes(alloc, scope)?;
            Step::MapTiling { at, sizes }
        }
    })
}

/// Adds a step, where no condition of it fails.
fn push_match(
    alloc: Global,
    bound: &Bound,
    step: Step,
    found: &mut Vec<Step>,
) -> Result<(), NoMemory>
    ensures { OnOk result (found.new.items ≡ found.old.items ++ filter (definition.may_be_done (graph_tree bound.now.graph)) (step ∷ [])) }
{
    if may_be_done(alloc, bound, &step)? {
        found.push(step)?;
    }
    Ok(())
}

/// Adds the steps of a rewrite at these scopes that may be done.
#[tactic(auto, using(crate::proofs::More::more))]
fn push_matches(
    alloc: Global,
    bound: &Bound,
    rewrite: Rewrite,
    scopes: &[Scope<'_>],
    found: &mut Vec<Step>,
) -> Result<(), NoMemory>
    ensures { OnOk result (found.new.items ≡ found.old.items ++ definition.matches_at (graph_tree bound.now.graph) rewrite scopes.now) }
{
    for scope in scopes {
        let step = step_at(alloc, rewrite, scope)?;
        push_match(alloc, bound, step, found)?;
    }
    Ok(())
}

/// The steps that may be done: by the names of rewrites, and then by the scopes of the graph in the order of its states and
/// nodes, depth first.
#[tactic(auto, using(crate::proofs::More::more))]
pub fn matches(alloc: Global, bound: &Bound) -> Result<Vec<Step>, NoMemory>
    ensures { IfOk result (λ found. found.items ≡ definition.matched (graph_tree bound.now.graph)) }
{
    let scopes = scopes(alloc, &bound.graph)?;
    let mut found = Vec::new(alloc);
    for rewrite in REWRITES {
        push_matches(alloc, bound, rewrite, scopes.as_slice(), &mut found)?;
    }
    Ok(found)
}
