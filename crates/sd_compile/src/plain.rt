ghost use Rattle.std.specs.Prelude.{◌≡◌, [], Some, None, IfOk, option_map, if◌then◌else◌};
ghost use Rattle.sd_graph.specs.TreeFold.{act_tree, act_trees, tasklet_tree};
ghost use Rattle.sd_tcode.specs.tcode.Plain as plain;

use crate::emit::is_scalar;
use sd_graph::{Act, Tasklet};
use sd_list::NoMemory;
use std::alloc::Global;

/// A connector is among these.
fn is_among(connectors: &[u32], connector: u32) -> bool
    ensures { result ≡ plain.is_among connectors.now connector }
{
    connectors.contains(&connector)
}

/// Whether a statement sets at most a scalar that is not set yet, and no statement is a branch; the
/// scalar comes to those that are set.
fn set_after(order: &mut Vec<u32>, act: &Act) -> Result<bool, NoMemory>
    ensures { IfOk result (λ sets. plain.set_after order.old.items (act_tree act.now) ≡ (if sets then Some order.new.items else None)) }
{
    match act {
        Act::Local { .. } => Ok(true),
        Act::Out { connector, at, .. } => {
            if !is_scalar(at) {
                return Ok(false);
            }
            if is_among(order, *connector) {
                return Ok(false);
            }
            order.push(*connector)?;
            Ok(true)
        }
        Act::When { .. } => Ok(false),
    }
}

/// The outputs in the order in which statements set them, where each is a scalar that is set at most
/// once, and no statement is a branch.
fn set_by(alloc: Global, acts: &[Act]) -> Result<Option<Vec<u32>>, NoMemory>
    ensures { IfOk result (λ found. option_map (λ v. v.items) found ≡ plain.set_by [] (act_trees acts.now)) }
{
    let mut order = Vec::new(alloc);
    for act in acts {
        if !set_after(&mut order, act)? {
            return Ok(None);
        }
    }
    Ok(Some(order))
}

/// The outputs in the order in which they are set, where each is a scalar that is set exactly once,
/// outside of branches.
pub(crate) fn plain_outputs(alloc: Global, code: &Tasklet) -> Result<Option<Vec<u32>>, NoMemory>
    ensures { IfOk result (λ found. option_map (λ v. v.items) found ≡ plain.plain_of (tasklet_tree code.now)) }
{
    match set_by(alloc, &code.body)? {
        Some(order) if order.len() == code.outs.len() => Ok(Some(order)),
        _ => Ok(None),
    }
}
