//! The order in which edges are listed.
ghost use Rattle.std.specs.Prelude.{◌≡◌, OnOk};
ghost use Rattle.sd_wire.specs.wiring.Listing as definition;

use sd_graph::Edge;
use sd_list::NoMemory;

/// Lists edges by their targets.
fn list_by_target(edges: &mut Vec<Edge>) -> Result<(), NoMemory>
    ensures { OnOk result (edges.new.items ≡ definition.listed_by (λ edge. edge.to) edges.old.items) }
{
    edges.sort_by_key(|edge| edge.to)?;
    Ok(())
}

/// Lists edges by their sources.
fn list_by_source(edges: &mut Vec<Edge>) -> Result<(), NoMemory>
    ensures { OnOk result (edges.new.items ≡ definition.listed_by (λ edge. edge.from) edges.old.items) }
{
    edges.sort_by_key(|edge| edge.from)?;
    Ok(())
}

/// Lists edges by their sources, and those with one source by their targets.
pub(crate) fn list(edges: &mut Vec<Edge>) -> Result<(), NoMemory>
    ensures { OnOk result (edges.new.items ≡ definition.listed edges.old.items) }
{
    list_by_target(edges)?;
    list_by_source(edges)
}
